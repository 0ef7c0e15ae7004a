//! The kept selection is a shortest one, and has nothing left to trim.
ghost use Rattle.pmt_laws.specs.ModelLaws.{KeepIsShortest, TrimmedAgain, TrimmedHasNoWaste, TrimmedStays};

/// No selection that leaves the same counts of persisted stores to a crash at every place has fewer events than the kept one.
pub fn keep_is_shortest()
    ensures { KeepIsShortest }
{}

/// A trimmed trace has no redundant flush and no fence without flush.
pub fn trimmed_has_no_waste()
    ensures { TrimmedHasNoWaste }
{}

/// Each event of a trimmed trace would be kept again: trimming it drops nothing.
pub fn trimmed_again()
    ensures { TrimmedAgain }
{}

/// Trimming a trimmed trace gives the same trace.
pub fn trimmed_stays()
    ensures { TrimmedStays }
{}
