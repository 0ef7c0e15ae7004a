//! What holds of the lines of a range: the function has an empty body, and its contract states the law.

ghost use Rattle.pmt_tables.specs.Slots.{LinesAreMet};

/// Each byte of a range is of a line between the first and the last one that it meets.
pub fn lines_are_met()
    ensures { LinesAreMet }
{}
