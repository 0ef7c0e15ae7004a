//! The analysis of a trace.

ghost use Rattle.pmt_laws.specs.ModelLaws.{AnalysisIsUnique};

/// A trace has one analysis: the answer is the same, whoever gives it.
pub fn analysis_is_unique()
    ensures { AnalysisIsUnique }
{}
