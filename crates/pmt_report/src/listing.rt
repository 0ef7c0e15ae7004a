//! What the entries of a report are, whichever way they are made.

ghost use Rattle.pmt_report.specs.Reports.{EntriesAreListing};

/// The entries of a report go by event number, and are the lines of its findings and verdicts: of each one, and of nothing else.
pub fn entries_are_listing()
    ensures { EntriesAreListing }
{}
