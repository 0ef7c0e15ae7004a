//! What a fence makes of the flushes that wait for it: each function has an empty body, and its contract states a law.

ghost use Rattle.std.specs.Prelude.{ℕ, List};
ghost use Rattle.pmt_model.specs.Machine.{Act};
ghost use Rattle.pmt_rows.specs.Waiting.{FenceKeptByRaise, KeptByRaise, FenceRaises, OpenTells, WaitsOn};

/// A fence that goes over its thread's open flushes, from the newest to the oldest, and takes the last safe store of each line to the
/// store that the flush marks where that is later, leaves the last safe stores as they are after it.
pub fn fence_raises()
    ensures { FenceRaises }
{}

/// A thread has an open flush exactly where one waits.
pub fn open_tells()
    ensures { OpenTells }
{}

/// What waits goes on event by event.
pub fn waits_on()
    ensures { (last : ℕ → List Act → ℕ) → WaitsOn last }
{}

/// Of the flushes that wait for a fence, those are kept that take the last safe store of their line to a later one, from the newest to the
/// oldest.
pub fn kept_by_raise()
    ensures { KeptByRaise }
{}

/// The fence is kept exactly where one of them does so.
pub fn fence_kept_by_raise()
    ensures { FenceKeptByRaise }
{}
