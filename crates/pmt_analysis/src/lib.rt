//! The analysis of a trace, as a value that is right whenever it can be looked at.
//!
//! What an analysis is stands in `specs/` and in pmt_model.
#![tactic(auto)]

pub mod workers;

ghost use Rattle.std.specs.Prelude.{◌≡◌};
ghost use Rattle.pmt_model.specs.Analyses.{IsAnalysis};
ghost use Rattle.pmt_analysis.specs.Analysing.{IsAnalysed};

pub use crate::workers::are_allowed;
use pmt_model::{Finding, Selection, Trace, Verdict};
use std::marker::Model;

/// The analysis of a trace.
#[derive(Drop)]
pub struct Analysis {
    trace: Trace,
    lines: usize,
    findings: Vec<Finding>,
    verdicts: Vec<Verdict>,
    selection: Selection,
}

impl Model for Analysis {
    ghost use Rattle.pmt_analysis.specs.Analysing.{Analysed, IsAnalysed};

    ghost Value = { Analysed };

    ghost view = { λ a. record { trace = a.trace; lines = a.lines; findings = a.findings.items; verdicts = a.verdicts.items; selection = a.selection } };

    ghost invariant = { λ a. IsAnalysed (record { trace = a.trace; lines = a.lines; findings = a.findings.items; verdicts = a.verdicts.items; selection = a.selection }) };
}

impl Analysis {
    /// The analysis that these are: of the trace, with how many lines of it are stored or flushed, its findings in report order, its
    /// verdicts in event order, and what is kept of it.
    pub fn new(
        trace: Trace,
        lines: usize,
        findings: Vec<Finding>,
        verdicts: Vec<Verdict>,
        selection: Selection,
    ) -> Self
        requires { IsAnalysis trace lines findings.items verdicts.items selection }
        ensures trace { result.trace ≡ trace }
        ensures right { IsAnalysed result }
    {
        let _is_trace = trace.len();
        Analysis {
            trace,
            lines,
            findings,
            verdicts,
            selection,
        }
    }

    /// The trace.
    pub fn trace(&self) -> &Trace
        ensures value { result.now ≡ self.now.trace }
        ensures right { IsAnalysed self.now }
    {
        &self.trace
    }

    /// How many lines are stored or flushed.
    pub fn lines(&self) -> usize
        ensures value { result ≡ self.now.lines }
        ensures right { IsAnalysed self.now }
    {
        self.lines
    }

    /// All findings, in report order.
    pub fn findings(&self) -> &[Finding]
        ensures value { result.now ≡ self.now.findings }
        ensures right { IsAnalysed self.now }
    {
        self.findings.as_slice()
    }

    /// The verdicts of all assertions, in event order.
    pub fn verdicts(&self) -> &[Verdict]
        ensures value { result.now ≡ self.now.verdicts }
        ensures right { IsAnalysed self.now }
    {
        self.verdicts.as_slice()
    }

    /// What is kept of the trace: its stores and assertions, and its useful flushes and fences.
    pub fn selection(&self) -> &Selection
        ensures value { result.now ≡ self.now.selection }
        ensures right { IsAnalysed self.now }
    {
        &self.selection
    }
}
