//! Taking the events of a source.
ghost use Rattle.std.specs.Prelude.{◌≡◌, ◌<◌, ℕ, List, Option, length, IfOk, IfErr, IfSome, OnErr, OnOk};
ghost use Rattle.pmt_laws.specs.Prelude.{with_event, event_limit, IsEventIn};
ghost use Rattle.pmt_text.specs.Coming.{ComesWhole};
ghost use Rattle.pmt_text.specs.Sources.{CountsReads};
ghost use Rattle.pmt_taking.specs.Sourcing.{IsFaultOf, TellsRefusal, TellsSplit, told_by, RefusedLeaves, TakesBlock, shown_by};
ghost use Rattle.pmt_taking.specs.declared.taking.TakeError.TheVariants.{Source, OutOfMemory};

use pmt_model::{Event, OutOfMemory, Trace};
use pmt_text::{EventSource, SourceError};
use std::alloc::{AllocError, Global};
use thiserror::Error;

/// Why the events of a source were not taken.
#[derive(Clone, Copy, Debug, PartialEq, Eq, Error)]
pub enum TakeError {
    /// The source told this fault.
    #[error("{0}")]
    Source(SourceError),
    /// Memory was refused, and not to the source.
    #[error("out of memory")]
    OutOfMemory,
}

impl From<SourceError> for TakeError {
    ghost from_gives = { λ fault error. error ≡ Source fault };

    fn from(fault: SourceError) -> Self {
        TakeError::Source(fault)
    }
}

impl From<AllocError> for TakeError {
    ghost from_gives = { λ _ error. error ≡ OutOfMemory };

    fn from(_refused: AllocError) -> Self {
        TakeError::OutOfMemory
    }
}

/// Takes all events of the source, as a trace.
///
/// # Errors
/// `Source` with the fault that the source told, or with `Failed` where it had told a fault before; it answers `Failed` from then
/// on. `OutOfMemory` where memory was refused to the trace; the source told nothing then, and stands past the events that were taken.
pub fn take_trace<S: EventSource>(alloc: Global, source: &mut S) -> Result<Trace, TakeError>
    ensures whole { IfOk result (λ trace. ComesWhole (S.coming source.old) trace) }
    ensures fault { IfErr (told_by result) (λ e. IfSome (S.coming source.old) (λ c. IsFaultOf c e)) }
    ensures told { TellsSplit (S.state source.old) result (S.state source.new) }
    ensures rest { let shown = shown_by S.coming S.state S.known_format S.failures S.room in RefusedLeaves event_limit (shown source.old) result (shown source.new) }
    ensures within { (first : Option (List ℕ)) → S.within source.old first → S.within source.new first }
    ensures failures { CountsReads (S.failures source.old) (told_by result) (S.failures source.new) }
{
    let trace = take_block(alloc, source, u64::MAX)?;
    let _is_trace = trace.len();
    Ok(trace)
}

// A block of at most so many events gets its room at once; one that may have more grows with them.
const MOST_ROOM: u64 = 16_384;

// For how many events there is room before the first of at most so many comes.
fn room_for(most: u64) -> usize {
    if most <= MOST_ROOM { most as usize } else { 0 }
}

/// The next events of the source, at most so many, as a trace of their own. Where they are fewer, the source has told its end.
///
/// # Errors
/// As `take_trace`.
pub fn take_block<S: EventSource>(
    alloc: Global,
    source: &mut S,
    most: u64,
) -> Result<Trace, TakeError>
    ensures block { let shown = shown_by S.coming S.state S.known_format S.failures S.room in IfOk result (TakesBlock most (shown source.old) (shown source.new)) }
    ensures fault { IfErr (told_by result) (λ e. IfSome (S.coming source.old) (λ c. IsFaultOf c e)) }
    ensures told { TellsRefusal (S.state source.old) result (S.state source.new) }
    ensures rest { let shown = shown_by S.coming S.state S.known_format S.failures S.room in RefusedLeaves most (shown source.old) result (shown source.new) }
    ensures within { (first : Option (List ℕ)) → S.within source.old first → S.within source.new first }
    ensures failures { CountsReads (S.failures source.old) (told_by result) (S.failures source.new) }
{
    let format = source.format()?;
    let mut block = Trace::with_room(alloc, format, room_for(most))?;
    source.take_ready(&mut block, most as usize)?;
    'block: while (block.len() as u64) < most {
        match source.next()? {
            Some(event) => add(&mut block, event)?,
            None => return Ok(block),
        }
        source.take_ready(&mut block, most as usize)?;
    }
    Ok(block)
}

/// Adds an event that the trace has room for, and that is of its format: memory alone may be refused.
///
/// # Errors
/// Where memory was refused. The trace stays as it was.
#[inline(always)]
pub fn add(trace: &mut Trace, event: Event) -> Result<(), OutOfMemory>
    requires room { length trace.old.events < event_limit }
    requires known { IsEventIn trace.old.format event }
    ensures added { OnOk result (trace.new ≡ with_event trace.old event) }
    ensures same { OnErr result (trace.new ≡ trace.old) }
{
    let Event { thread, op } = event;
    match trace.push(Event { thread, op }) {
        Ok(()) => Ok(()),
        Err(_) => Err(AllocError),
    }
}
