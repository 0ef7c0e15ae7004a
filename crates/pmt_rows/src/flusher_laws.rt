//! What the set is after each act: the function has an empty body, and its contract states a law.

ghost use Rattle.pmt_rows.specs.Threads.{FlushersGoOn};

/// A store to the line clears the set, a flush of it adds its thread, and no other act changes it.
pub fn flushers_go_on()
    ensures { FlushersGoOn }
{}
