//! A trace that was taken from a source and swept.
ghost use Rattle.std.specs.Prelude.{◌≡◌, IfOk, IfErr, IfSome};
ghost use Rattle.pmt_text.specs.Coming.{ComesWhole};
ghost use Rattle.pmt_text.specs.Sources.{CountsReads};
ghost use Rattle.pmt_taking.specs.Sourcing.{IsFaultOf, TellsTaken, told_by};
ghost use Rattle.pmt_explain_run.specs.Sweeping.{IsSweptTrace};

use pmt_model::{OutOfMemory, Trace};
use pmt_sweep::{Swept, sweep};
use pmt_taking::{TakeError, take_trace};
use pmt_text::EventSource;
use std::alloc::Global;

/// A trace, and what a sweep has found in it.
#[derive(Drop)]
pub struct SweptTrace {
    pub(crate) trace: Trace,
    pub(crate) swept: Swept,
}

/// The trace whose events the source has still to give, with what one pass over them finds.
///
/// # Errors
/// `Source` with the fault that the source told, or with `Failed` where it had told a fault before. `OutOfMemory` where memory was
/// refused to the trace or the pass; the source told no fault then. The source stands past the events that were taken.
pub fn swept_trace<S: EventSource>(alloc: Global, source: &mut S) -> Result<SweptTrace, TakeError>
    ensures right { IfOk result IsSweptTrace }
    ensures whole { IfOk result (λ x. ComesWhole (S.coming source.old) x.trace) }
    ensures fault { IfErr (told_by result) (λ e. IfSome (S.coming source.old) (λ c. IsFaultOf c e)) }
    ensures told { TellsTaken (S.state source.old) result (S.state source.new) }
    ensures failures { CountsReads (S.failures source.old) (told_by result) (S.failures source.new) }
{
    let trace = take_trace(alloc, source)?;
    let swept = swept_of(alloc, trace)?;
    Ok(swept)
}

// The trace with what a pass over it finds.
fn swept_of(alloc: Global, trace: Trace) -> Result<SweptTrace, OutOfMemory>
    ensures trace { IfOk result (λ x. x.trace ≡ trace) }
    ensures right { IfOk result IsSweptTrace }
{
    let swept = sweep(alloc, &trace)?;
    Ok(SweptTrace { trace, swept })
}
