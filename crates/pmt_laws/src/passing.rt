//! What is decided of a trace while its events come.

ghost use Rattle.pmt_laws.specs.Passing.{ClflushIsKept, DecidedOrOpen, DecidedStays, FenceDecides, FenceIsKept, FenceRaises, OpenIsDropped};

/// Whether an event is kept stays as it is, whatever events follow, once the event has come and, where it is a flush, once its
/// thread has fenced.
pub fn decided_stays()
    ensures { DecidedStays }
{}

/// An event that has come is decided, or it is an open flush.
pub fn decided_or_open()
    ensures { DecidedOrOpen }
{}

/// If the trace ends, its open flushes are not kept.
pub fn open_is_dropped()
    ensures { OpenIsDropped }
{}

/// A fence raises the front of a line to the most that an open flush of its thread covers.
pub fn fence_raises()
    ensures { FenceRaises }
{}

/// At a fence those open flushes of its thread are kept that cover more than the front just before it and than each newer one.
pub fn fence_decides()
    ensures { FenceDecides }
{}

/// A fence is kept exactly if it raises the front of some line.
pub fn fence_is_kept()
    ensures { FenceIsKept }
{}

/// A clflush is kept exactly if the front of its line is below the count just before it.
pub fn clflush_is_kept()
    ensures { ClflushIsKept }
{}
