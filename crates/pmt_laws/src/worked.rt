//! Small traces, with what the definitions say of them.

ghost use Rattle.pmt_laws.specs.Worked.{DoubleFlush, OverwrittenBeforeFlush, OrderWithinALine, WideLine, NarrowLine, ClflushTwice, EveryFinding, WorkedAreTraces, FenceOfAnotherThread, FlushedByTwoThreads, TwoRounds, StoreAfterFlush, OrderedByFence, OrderedFenceTooLate, SameByteTwice, ClflushBeatsClwb, SecondByteAgain};

/// A fence completes the flushes of its own thread alone, so the store stays pending and the fence of the other thread goes.
pub fn fence_of_another_thread()
    ensures { FenceOfAnotherThread }
{}

/// Of two threads that flush a line, the first one to fence persists the store, and the flush and fence of the other go.
pub fn flushed_by_two_threads()
    ensures { FlushedByTwoThreads }
{}

/// Where a later round persists all that an earlier one did, the earlier one stays, since a crash may come between them.
pub fn two_rounds()
    ensures { TwoRounds }
{}

/// A fence persists what was stored before the flush, and no store after it.
pub fn store_after_flush()
    ensures { StoreAfterFlush }
{}

/// With the fence between two stores, the first store persists before the second.
pub fn ordered_by_fence()
    ensures { OrderedByFence }
{}

/// With the fence after both stores, the second store may persist first, though both flush and fence have come by then.
pub fn ordered_fence_too_late()
    ensures { OrderedFenceTooLate }
{}

/// A store of the byte that is there already is a store like any other: its flush and its fence stay.
pub fn same_byte_twice()
    ensures { SameByteTwice }
{}

/// A clflush persists the store by itself, so the flush before it and the fence after it go.
pub fn clflush_beats_clwb()
    ensures { ClflushBeatsClwb }
{}

/// Of two flushes before a fence the second is redundant, since the first has marked the store, and yet the second is kept.
pub fn double_flush()
    ensures { DoubleFlush }
{}

/// A store is overwritten where a byte of it is stored again before a flush, and not where the byte beside it is.
pub fn overwritten_before_flush()
    ensures { OverwrittenBeforeFlush }
{}

/// The stores of a line persist in their order, with no fence between them.
pub fn order_within_a_line()
    ensures { OrderWithinALine }
{}

/// With lines of 128 bytes, a flush 64 bytes further on is of the line of the byte.
pub fn wide_line()
    ensures { WideLine }
{}

/// With lines of 64 bytes, a flush 64 bytes further on is of another line.
pub fn narrow_line()
    ensures { NarrowLine }
{}

/// Of two stores that overlap a crash may leave neither, the first one, or both, with the newer byte over the older one.
pub fn second_byte_again()
    ensures { SecondByteAgain }
{}

/// Of two clflushes the second is redundant, since the first has made the store safe.
pub fn clflush_twice()
    ensures { ClflushTwice }
{}

/// The whole analysis of a trace with findings of each kind.
pub fn every_finding()
    ensures { EveryFinding }
{}

/// Each of the worked traces is within the limits of a trace.
pub fn worked_are_traces()
    ensures { WorkedAreTraces }
{}
