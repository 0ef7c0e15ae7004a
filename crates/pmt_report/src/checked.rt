//! What a check finds in the events of a source. They are taken block by block, and no block is kept.
ghost use Rattle.std.specs.Prelude.{◌≡◌, ◌==◌, ◌+◌, ◌-◌, ◌^◌, ◌<◌, ◌≤◌, ℕ, List, Option, true, not, length, IfOk, IfErr, IfSome, OnOk};
ghost use Rattle.pmt_laws.specs.Prelude.{empty, with_events, Recording, IsTrace};
ghost use Rattle.pmt_text.specs.Coming.{ComesWhole, byte_limit};
ghost use Rattle.pmt_text.specs.Counting.{failure_count, inner_device};
ghost use Rattle.pmt_text.specs.ScriptInputs.{ReadsWithin};
ghost use Rattle.pmt_text.specs.Sources.{CountsReads};
ghost use Rattle.pmt_taking.specs.Sourcing.{Shown, TakesBlock, shown_by, IsFaultOf, TellsRefusal, TellsTaken, told_by};
ghost use Rattle.pmt_sweep.specs.Passing.{HasSwept};
ghost use Rattle.pmt_analysis.specs.Analysing.{is_worker_count};
ghost use Rattle.pmt_report.specs.Checks.{IsTakenSoFar, HasTaken, IsCheckOf, IsFoundIn};
ghost use Rattle.pmt_report.specs.Runs.{IsAnalysisFault, coming_from_reader, run_read_faults, tells_workers};

use crate::fault::{RunError, run_error};
use pmt_analysis::are_allowed;
use pmt_model::{OutOfMemory, Trace};
use pmt_sweep::{Sweeper, Swept};
use pmt_taking::{TakeError, take_block};
use pmt_text::{Counted, EventSource, TextSource};
use std::alloc::Global;
use std::io::Read;

// So many events are read before they are swept: they stay in the processor's cache, and their memory is had again for the next ones.
const BLOCK: u64 = 1_024;

/// What a sweep found, and how many events it took.
#[derive(Drop)]
pub(crate) struct CheckedTrace {
    pub(crate) events: u64,
    pub(crate) swept: Swept,
}

// A sweep, and how many events it has taken.
#[derive(Drop)]
pub(crate) struct Taken {
    pub(crate) events: u64,
    pub(crate) sweeper: Sweeper,
}

/// What a check finds in the trace whose text the reader gives: the same for each allowed number of workers, by one thread. The reader is
/// handed back.
///
/// # Errors
/// As `analysed`.
pub(crate) fn checked<R: Read>(
    alloc: Global,
    workers: usize,
    reader: Counted<R>,
) -> (Counted<R>, Result<CheckedTrace, RunError>)
    requires reads { failure_count reader < 2 ^ 64 - 1 }
    ensures workers { tells_workers result.1 ≡ not (is_worker_count workers) }
    ensures unread { tells_workers result.1 ≡ true → result.0 ≡ reader }
    ensures right { IfOk result.1 (IsCheckOf (coming_from_reader (R.remaining (inner_device reader)))) }
    ensures fault { IfErr result.1 (IsAnalysisFault (coming_from_reader (R.remaining (inner_device reader)))) }
    ensures within { ReadsWithin (byte_limit + 1) (R.remaining (inner_device reader)) (R.remaining (inner_device result.0)) }
    ensures read_failures { failure_count result.0 ≡ failure_count reader + run_read_faults result.1 }
{
    if !are_allowed(workers) {
        return (reader, Err(RunError::BadWorkers));
    }
    let mut source = TextSource::new(alloc, reader);
    let found = checked_from(alloc, &mut source);
    let reader = source.into_input();
    match found {
        Ok(checked) => (reader, Ok(checked)),
        Err(TakeError::Source(fault)) => (reader, Err(run_error(fault))),
        Err(TakeError::OutOfMemory) => (reader, Err(RunError::OutOfMemory)),
    }
}

// What a check finds in the events that the source has still to give.
fn checked_from<S: EventSource>(alloc: Global, source: &mut S) -> Result<CheckedTrace, TakeError>
    ensures right { IfOk result (IsCheckOf (S.coming source.old)) }
    ensures fault { IfErr (told_by result) (λ e. IfSome (S.coming source.old) (λ c. IsFaultOf c e)) }
    ensures told { TellsTaken (S.state source.old) result (S.state source.new) }
    ensures within { (first : Option (List ℕ)) → S.within source.old first → S.within source.new first }
    ensures failures { CountsReads (S.failures source.old) (told_by result) (S.failures source.new) }
{
    let taken = taken_whole(alloc, source)?;
    let checked = finished(alloc, taken)?;
    Ok(checked)
}

// A sweep of all events of the source.
fn taken_whole<S: EventSource>(alloc: Global, source: &mut S) -> Result<Taken, TakeError>
    ensures taken { IfOk result (λ t. (T : Recording) × HasTaken T t × ComesWhole (S.coming source.old) T) }
    ensures fault { IfErr (told_by result) (λ e. IfSome (S.coming source.old) (λ c. IsFaultOf c e)) }
    ensures told { TellsTaken (S.state source.old) result (S.state source.new) }
    ensures within { (first : Option (List ℕ)) → S.within source.old first → S.within source.new first }
    ensures failures { CountsReads (S.failures source.old) (told_by result) (S.failures source.new) }
{
    let block = take_block(alloc, source, BLOCK)?;
    let mut sweeper = Sweeper::new(alloc, block.format())?;
    match take_others(alloc, block, &mut sweeper, source, BLOCK) {
        Ok(events) => Ok(Taken { events, sweeper }),
        Err(error) => {
            let_go(sweeper);
            Err(error)
        }
    }
}

// Drops the sweeper.
fn let_go(_sweeper: Sweeper) {}

// Sweeps the first block and all that come after it, and counts their events. Whatever showed the first block before, they are all of it.
fn take_others<S: EventSource>(
    alloc: Global,
    first: Trace,
    sweeper: &mut Sweeper,
    source: &mut S,
    most: u64,
) -> Result<u64, TakeError>
    requires fresh { HasSwept (empty first.format) sweeper.old }
    requires some { 1 ≤ most }
    requires first { let shown = shown_by S.coming S.state S.known_format S.failures S.room in (before : Shown) × IsTakenSoFar before (shown source.old) first (length first.events == most) }
    ensures taken { let shown = shown_by S.coming S.state S.known_format S.failures S.room in (before : Shown) → IsTakenSoFar before (shown source.old) first (length first.events == most) → IfOk result (λ n. (T : Recording) × HasSwept T sweeper.new × (n ≡ length T.events) × ComesWhole before.coming T) }
    ensures fault { let shown = shown_by S.coming S.state S.known_format S.failures S.room in (before : Shown) → IsTakenSoFar before (shown source.old) first (length first.events == most) → IfErr (told_by result) (λ e. IfSome before.coming (λ c. IsFaultOf c e)) }
    ensures within { (first : Option (List ℕ)) → S.within source.old first → S.within source.new first }
    ensures told { let shown = shown_by S.coming S.state S.known_format S.failures S.room in (before : Shown) → IsTakenSoFar before (shown source.old) first (length first.events == most) → TellsTaken before.state result (S.state source.new) }
    ensures failures { let shown = shown_by S.coming S.state S.known_format S.failures S.room in (before : Shown) → IsTakenSoFar before (shown source.old) first (length first.events == most) → CountsReads before.failures (told_by result) (S.failures source.new) }
{
    let mut events = first.len() as u64;
    let mut more = is_full(&first, most);
    let mut block = first;
    'take: while more {
        let (swept, next) = sweep_and_take(alloc, &block, sweeper, source, most);
        let next = next?;
        swept?;
        events += next.len() as u64;
        more = is_full(&next, most);
        block = next;
    }
    sweeper.take(block.events())?;
    Ok(events)
}

// Whether the block has as many events as were asked for, so that more may come.
fn is_full(block: &Trace, most: u64) -> bool
    ensures { result ≡ (length block.now.events == most) }
{
    block.len() as u64 == most
}

// Sweeps the events that were read, and reads the next ones.
fn sweep_and_take<S: EventSource>(
    alloc: Global,
    block: &Trace,
    sweeper: &mut Sweeper,
    source: &mut S,
    most: u64,
) -> (Result<(), OutOfMemory>, Result<Trace, TakeError>)
    requires { (T : Recording) × HasSwept T sweeper.old × IsTrace (with_events T block.now.events) }
    ensures swept { (T : Recording) → HasSwept T sweeper.old → IsTrace (with_events T block.now.events) → OnOk result.0 (HasSwept (with_events T block.now.events) sweeper.new) }
    ensures block { let shown = shown_by S.coming S.state S.known_format S.failures S.room in IfOk result.1 (TakesBlock most (shown source.old) (shown source.new)) }
    ensures fault { IfErr (told_by result.1) (λ e. IfSome (S.coming source.old) (λ c. IsFaultOf c e)) }
    ensures told { TellsRefusal (S.state source.old) result.1 (S.state source.new) }
    ensures within { (first : Option (List ℕ)) → S.within source.old first → S.within source.new first }
    ensures failures { CountsReads (S.failures source.old) (told_by result.1) (S.failures source.new) }
{
    let swept = sweeper.take(block.events());
    (swept, take_block(alloc, source, most))
}

// What the sweep has found.
fn finished(alloc: Global, taken: Taken) -> Result<CheckedTrace, OutOfMemory>
    requires { (T : Recording) × HasTaken T taken }
    ensures { (T : Recording) → HasTaken T taken → IfOk result (IsFoundIn T) }
{
    let Taken { events, sweeper } = taken;
    let swept = sweeper.finish(alloc)?;
    Ok(CheckedTrace { events, swept })
}
