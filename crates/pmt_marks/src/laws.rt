//! Theorems about the definitions: each function has an empty body, and its contract is the statement.

ghost use Rattle.pmt_marks.specs.Lines.{LineStaysUnchanged};

/// Acts that concern other lines alone leave the state of a line as it is.
pub fn others_leave_be()
    ensures { LineStaysUnchanged }
{}
