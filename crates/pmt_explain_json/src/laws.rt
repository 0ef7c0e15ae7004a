//! Laws of the answer.
ghost use Rattle.pmt_explain_json.specs.Lines.{TextHasNoLf};

/// No LF is in the text of a value. So a line of the answer, which is such a text and LF, is one line.
pub fn text_has_no_lf()
    ensures { TextHasNoLf }
{}
