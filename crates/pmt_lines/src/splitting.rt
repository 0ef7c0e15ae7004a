//! Splitting a trace into jobs by line.
ghost use Rattle.std.specs.Prelude.{◌≡◌, ◌<◌, length, IfOk, IfErr, IfSome, OnOk};
ghost use Rattle.pmt_laws.specs.Prelude.{with_event, event_limit, IsEventIn};
ghost use Rattle.pmt_text.specs.Coming.{ComesWhole};
ghost use Rattle.pmt_text.specs.Sources.{CountsReads};
ghost use Rattle.pmt_lines.specs.Jobs.{IsSplit};
ghost use Rattle.pmt_lines.specs.Splitters.{HasTaken};
ghost use Rattle.pmt_taking.specs.Sourcing.{IsFaultOf, TellsSplit, TellsWhole, told_by};

use crate::job::LineJob;
use crate::splitter::Splitter;
use crate::thread_job::ThreadJob;
use pmt_model::{Event, OutOfMemory, Trace};
use pmt_taking::{TakeError, add};
use pmt_text::{EventSource, SourceError};
use std::alloc::Global;

/// A trace taken apart by its lines.
#[derive(Drop)]
pub struct Jobs {
    /// The trace.
    pub trace: Trace,
    /// The job of each line that is stored or flushed, in order of first appearance.
    pub lines: Vec<LineJob>,
    /// The flushes and fences.
    pub fences: ThreadJob,
}

/// Takes all events of the source, and takes their trace apart by lines.
///
/// # Errors
/// The fault that the source told, `Failed` where it had told a fault before; `OutOfMemory` also where memory was refused to the
/// split itself, and the source told nothing then. The source stands past the events that were taken.
pub fn split<S: EventSource>(alloc: Global, source: &mut S) -> Result<Jobs, SourceError>
    ensures apart { IfOk result (λ jobs. IsSplit jobs.trace jobs.lines.items jobs.fences) }
    ensures whole { IfOk result (λ jobs. ComesWhole (S.coming source.old) jobs.trace) }
    ensures fault { IfErr result (λ e. IfSome (S.coming source.old) (λ c. IsFaultOf c e)) }
    ensures told { TellsWhole (S.state source.old) result (S.state source.new) }
    ensures failures { CountsReads (S.failures source.old) result (S.failures source.new) }
{
    match split_source(alloc, source) {
        Ok(jobs) => Ok(jobs),
        Err(TakeError::Source(fault)) => Err(fault),
        Err(TakeError::OutOfMemory) => Err(SourceError::OutOfMemory),
    }
}

// As `split`, and it tells want of memory of its own from that of the source.
fn split_source<S: EventSource>(alloc: Global, source: &mut S) -> Result<Jobs, TakeError>
    ensures apart { IfOk result (λ jobs. IsSplit jobs.trace jobs.lines.items jobs.fences) }
    ensures whole { IfOk result (λ jobs. ComesWhole (S.coming source.old) jobs.trace) }
    ensures fault { IfErr (told_by result) (λ e. IfSome (S.coming source.old) (λ c. IsFaultOf c e)) }
    ensures told { TellsSplit (S.state source.old) result (S.state source.new) }
    ensures failures { CountsReads (S.failures source.old) (told_by result) (S.failures source.new) }
{
    let format = source.format()?;
    let mut splitter = Splitter::new(alloc, format)?;
    let mut trace = Trace::new_with(alloc, format);
    'all: loop {
        match source.next()? {
            Some(event) => take_into(&mut trace, &mut splitter, event)?,
            None => return Ok(splitter.finish(trace)),
        }
    }
}

// Adds the event to the trace, and to its jobs.
#[inline(always)]
fn take_into(trace: &mut Trace, splitter: &mut Splitter, event: Event) -> Result<(), OutOfMemory>
    requires taken { HasTaken trace.old splitter.old }
    requires room { length trace.old.events < event_limit }
    requires known { IsEventIn trace.old.format event }
    ensures trace { OnOk result (trace.new ≡ with_event trace.old event) }
    ensures taken { OnOk result (HasTaken trace.new splitter.new) }
{
    splitter.take(&event)?;
    add(trace, event)
}

/// Takes the trace apart by lines, for instance one of `take_trace`.
///
/// # Errors
/// Where memory was refused. The trace is dropped then.
pub fn split_trace(alloc: Global, trace: Trace) -> Result<Jobs, OutOfMemory>
    ensures trace { IfOk result (λ jobs. jobs.trace ≡ trace) }
    ensures apart { IfOk result (λ jobs. IsSplit jobs.trace jobs.lines.items jobs.fences) }
{
    let mut splitter = Splitter::new(alloc, trace.format())?;
    let all = trace.events();
    for event in all {
        splitter.take(event)?;
    }
    Ok(splitter.finish(trace))
}
