//! The analysis of a source's trace by any number of workers.
ghost use Rattle.std.specs.Prelude.{◌≡◌, ◌↔◌, IfOk, IfErr, IfSome, IsTrue, IsFalse, IsErrOf};
ghost use Rattle.pmt_model.specs.Selections.{cut};
ghost use Rattle.pmt_text.specs.Coming.{ComesWhole};
ghost use Rattle.pmt_text.specs.Sources.{CountsReads};
ghost use Rattle.pmt_lines.specs.Jobs.{IsSplit};
ghost use Rattle.pmt_taking.specs.Sourcing.{IsFaultOf};
ghost use Rattle.pmt_trimming.specs.Headline.{IsTrimmed};
ghost use Rattle.pmt_analysis.specs.Analysing.{IsAnalysed, is_worker_count};
ghost use Rattle.pmt_workers.specs.Answering.{TellsSource, error_of, told_by};
ghost use Rattle.pmt_workers.specs.declared.analyse.AnalyseError.TheVariants.{OutOfMemory};

use crate::halves::run_in_halves;
use crate::results::taken_apart;
use crate::shard::ShardGate;
use pmt_analysis::{Analysis, are_allowed};
use pmt_asserts::{Tables, verdicts};
use pmt_findings::findings;
use pmt_lines::{Jobs, run_fences, split_trace};
use pmt_model::{OutOfMemory, Trace};
use pmt_taking::{TakeError, take_trace};
use pmt_text::{EventSource, SourceError};
use pmt_trim::liveness;
use std::alloc::{AllocError, Global};
use std::thread::Threads;
use thiserror::Error;

/// Why a source was not analysed.
#[derive(Clone, Copy, Debug, PartialEq, Eq, Error)]
pub enum AnalyseError {
    /// There are 1, 2, 4, 8 or 16 workers.
    #[error("there are 1, 2, 4, 8 or 16 workers")]
    BadWorkers,
    /// The source told this fault.
    #[error("{0}")]
    Source(SourceError),
    /// Memory was refused, and not to the source.
    #[error("out of memory")]
    OutOfMemory,
}

impl From<TakeError> for AnalyseError {
    ghost from_gives = { λ refused error. error ≡ error_of refused };

    fn from(refused: TakeError) -> Self {
        match refused {
            TakeError::Source(fault) => AnalyseError::Source(fault),
            TakeError::OutOfMemory => AnalyseError::OutOfMemory,
        }
    }
}

impl From<AllocError> for AnalyseError {
    ghost from_gives = { λ _ error. error ≡ OutOfMemory };

    fn from(_refused: AllocError) -> Self {
        AnalyseError::OutOfMemory
    }
}

/// The analysis of the trace whose events the source has still to give, by this many workers. It is the same for every number of
/// workers and every gate. Each worker makes one call of the gate, with its number, from 0, and all of its part of the jobs, also an
/// empty one.
///
/// # Errors
/// `BadWorkers` unless there are 1, 2, 4, 8 or 16 workers; the source is unchanged then. `Source` with the fault that the source
/// told, or with `Failed` where it had told a fault before. `OutOfMemory` where memory was refused to the analysis itself; the
/// source told no fault then. The source stands past the events that were taken.
pub fn analyse_with<R: Threads + Sync, S: EventSource, G: ShardGate + Sync>(
    rt: &R,
    alloc: Global,
    gate: &G,
    source: &mut S,
    workers: usize,
) -> Result<Analysis, AnalyseError>
    ensures workers { IsErrOf result AnalyseError.BadWorkers ↔ IsFalse (is_worker_count workers) }
    ensures unasked { IsErrOf result AnalyseError.BadWorkers → source.new ≡ source.old }
    ensures right { IfOk result IsAnalysed }
    ensures trimmed { IfOk result (λ a. IsTrimmed a.trace a.selection (cut a.trace a.selection)) }
    ensures whole { IfOk result (λ a. ComesWhole (S.coming source.old) a.trace) }
    ensures fault { IfErr (told_by result) (λ e. IfSome (S.coming source.old) (λ c. IsFaultOf c e)) }
    ensures told { TellsSource (S.state source.old) result (S.state source.new) }
    ensures failures { CountsReads (S.failures source.old) (told_by result) (S.failures source.new) }
{
    if !are_allowed(workers) {
        return Err(AnalyseError::BadWorkers);
    }
    let trace = take_trace(alloc, source)?;
    let analysis = analysis_of(rt, alloc, gate, trace, workers)?;
    Ok(analysis)
}

// The analysis of the trace, which is taken apart by lines.
fn analysis_of<R: Threads + Sync, G: ShardGate + Sync>(
    rt: &R,
    alloc: Global,
    gate: &G,
    trace: Trace,
    workers: usize,
) -> Result<Analysis, OutOfMemory>
    requires { IsTrue (is_worker_count workers) }
    ensures trace { IfOk result (λ a. a.trace ≡ trace) }
    ensures right { IfOk result IsAnalysed }
{
    let jobs = split_trace(alloc, trace)?;
    analysis_of_jobs(rt, alloc, gate, jobs, workers)
}

// The analysis of the trace that was taken apart into these jobs.
fn analysis_of_jobs<R: Threads + Sync, G: ShardGate + Sync>(
    rt: &R,
    alloc: Global,
    gate: &G,
    jobs: Jobs,
    workers: usize,
) -> Result<Analysis, OutOfMemory>
    requires count { IsTrue (is_worker_count workers) }
    requires apart { IsSplit jobs.trace jobs.lines.items jobs.fences }
    ensures trace { IfOk result (λ a. a.trace ≡ jobs.trace) }
    ensures right { IfOk result IsAnalysed }
{
    let Jobs {
        trace,
        lines,
        fences,
    } = jobs;
    let touched = lines.len();
    let parts = run_in_halves(rt, alloc, gate, 0, workers, lines)?;
    let (results, lists) = taken_apart(alloc, parts, touched)?;
    let selection = liveness(alloc, &trace, lists.as_slice())?;
    drop(lists);
    let threads = run_fences(alloc, fences)?;
    let found = findings(alloc, results.as_slice(), &threads)?;
    let tables = Tables::merge(alloc, results)?;
    let judged = verdicts(rt, alloc, &tables, &trace)?;
    Ok(Analysis::new(trace, touched, found, judged, selection))
}
