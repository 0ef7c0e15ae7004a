//! The run that explains the trace of a source.
ghost use Rattle.std.specs.Prelude.{◌≡◌, IfOk, IfErr, IfSome};
ghost use Rattle.pmt_text.specs.Coming.{ComesWhole};
ghost use Rattle.pmt_text.specs.Sources.{CountsReads};
ghost use Rattle.pmt_taking.specs.Sourcing.{IsFaultOf, TellsTaken, told_by};
ghost use Rattle.pmt_analysis.specs.Analysing.{IsAnalysed};
ghost use Rattle.pmt_explain.specs.Following.{AreSafePlaces};
ghost use Rattle.pmt_explain_run.specs.Sweeping.{IsSweptTrace};
ghost use Rattle.pmt_explanation.specs.Explaining.{IsExplanation};

use crate::places::places_of;
use crate::sweeping::{SweptTrace, swept_trace};
use pmt_analysis::Analysis;
use pmt_asked::{Labels, Options};
use pmt_explanation::{Explanation, explanation_of};
use pmt_model::OutOfMemory;
use pmt_sweep::{Swept, all_told};
use pmt_tables::marked_numbers;
use pmt_taking::TakeError;
use pmt_text::EventSource;
use std::alloc::Global;
use std::thread::{Threads, join_mut};

/// Explains the trace whose events the source has still to give, with these labels of its events.
///
/// # Errors
/// `Source` with the fault that the source told, or with `Failed` where it had told a fault before. `OutOfMemory` where memory was
/// refused to the explanation itself; the source told no fault then. The source stands past the events that were taken.
pub fn explain<T: Threads + Sync, S: EventSource>(
    rt: &T,
    alloc: Global,
    source: &mut S,
    labels: &Labels,
    options: &Options,
) -> Result<Explanation, TakeError>
    ensures explained { IfOk result (λ x. IsExplanation x.analysis labels.now options.now x) }
    ensures analysed { IfOk result (λ x. IsAnalysed x.analysis) }
    ensures limit { IfOk result (λ x. x.limit ≡ options.now.limit) }
    ensures whole { IfOk result (λ x. ComesWhole (S.coming source.old) x.analysis.trace) }
    ensures fault { IfErr (told_by result) (λ e. IfSome (S.coming source.old) (λ c. IsFaultOf c e)) }
    ensures told { TellsTaken (S.state source.old) result (S.state source.new) }
    ensures failures { CountsReads (S.failures source.old) (told_by result) (S.failures source.new) }
{
    let swept = swept_trace(alloc, source)?;
    let explanation = explained(rt, alloc, swept, labels, options)?;
    Ok(explanation)
}

/// Explains the trace that was swept, with these labels of its events. Two threads find the numbers of the events that are kept and the
/// places from which stores are safe.
///
/// # Errors
/// Where memory was refused.
pub fn explained<T: Threads + Sync>(
    rt: &T,
    alloc: Global,
    swept: SweptTrace,
    labels: &Labels,
    options: &Options,
) -> Result<Explanation, OutOfMemory>
    requires { IsSweptTrace swept }
    ensures explained { IfOk result (λ x. IsExplanation x.analysis labels.now options.now x) }
    ensures analysed { IfOk result (λ x. IsAnalysed x.analysis) }
    ensures trace { IfOk result (λ x. x.analysis.trace ≡ swept.trace) }
    ensures limit { IfOk result (λ x. x.limit ≡ options.now.limit) }
{
    let Placed { analysis, places } = placed_of(rt, alloc, swept)?;
    explanation_of(rt, alloc, analysis, places, labels, options)
}

// The analysis of a trace, and from which place on each of its stores is safe.
#[derive(Drop)]
struct Placed {
    analysis: Analysis,
    places: Vec<u64>,
}

// Those of the trace that was swept.
fn placed_of<T: Threads + Sync>(
    rt: &T,
    alloc: Global,
    swept: SweptTrace,
) -> Result<Placed, OutOfMemory>
    requires { IsSweptTrace swept }
    ensures trace { IfOk result (λ p. p.analysis.trace ≡ swept.trace) }
    ensures places { IfOk result (λ p. AreSafePlaces p.analysis.trace p.places.items) }
{
    let SweptTrace { trace, swept } = swept;
    let Swept {
        lines,
        findings,
        verdicts,
        kept,
        safe,
    } = swept;
    let flags = kept.as_slice();
    let (selection, places) = join_mut(
        rt,
        &mut || marked_numbers(alloc, flags),
        &mut || places_of(alloc, &trace, &safe),
    );
    let selection = selection?;
    let places = places?;
    let findings = all_told(alloc, findings.as_slice())?;
    let analysis = Analysis::new(trace, lines, findings, verdicts, selection);
    Ok(Placed { analysis, places })
}
