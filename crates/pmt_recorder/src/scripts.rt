//! Recording scripts, each by a thread of its own.
ghost use Rattle.std.specs.Prelude.{◌≡◌, ℕ, nat_lt, ◌<◌, ◌≤◌, ◌↔◌, ◌⊎◌, [], length, map, slice_get, Some, Err, IfOk, IfErr, IfSome, IfNone};
ghost use Rattle.pmt_model.specs.Values.{first_version, Layout};
ghost use Rattle.pmt_model.specs.Traces.{event_limit};
ghost use Rattle.pmt_recorder.specs.Scripts.{IsRecorded, IsTornOf, Plays, PlaysEach, RecordFails, RecordFailsIf, first_fault, op_count, AtScript};
ghost use Rattle.pmt_recorder.specs.Strips.{IsSealed, IsOneOfEach, empty_tapes};

use crate::fault::{AppendError, RecordError, SealKind, StartError};
use crate::roll::Roll;
use crate::session::Session;
use crate::tape::Tape;
use pmt_model::{Gate, Op, Trace};
use std::alloc::{AllocError, Global};
use std::marker::Brand;
use std::sync::Wait;
use std::sync::ledger::Blank;
use std::thread;
use std::thread::Threads;

// Plays the script on the tape: it enters the gate before its first append, and after each that succeeds. It stops at the first
// fault.
fn play<L: Roll, G: Gate, R: Wait>(
    rt: &R,
    gate: &G,
    session: &Session<L>,
    script: &[Op],
    tape: Tape<L>,
) -> (Tape<L>, Result<(), AppendError>)
    requires { tape.entries ≡ [] }
    ensures { Plays L.format script.now tape.thread result.0 result.1 }
{
    let mut tape = tape;
    let number = tape.thread() as usize;
    gate.enter(number);
    for op in script {
        if let Err(fault) = session.append(rt, &mut tape, *op) {
            return (tape, Err(fault));
        }
        gate.enter(number);
    }
    (tape, Ok(()))
}

// The recorder with the number of the tape plays the script of that number.
fn play_own<L: Roll, G: Gate, R: Wait>(
    rt: &R,
    gate: &G,
    session: &Session<L>,
    scripts: &[Vec<Op>],
    tape: Tape<L>,
) -> (Tape<L>, Result<(), AppendError>)
    requires { (tape.thread < length scripts.now) × (tape.entries ≡ []) }
    ensures { AtScript (map (λ script. script.items) scripts.now) tape.thread (λ script. Plays L.format script tape.thread result.0 result.1) }
{
    let script = &scripts[tape.thread() as usize];
    play(rt, gate, session, script.as_slice(), tape)
}

// Plays all scripts, each by a thread of its own, and returns when all threads have.
fn play_all<L: Roll + Send + Sync, G: Gate + Sync, R: Threads + Wait + Sync>(
    rt: &R,
    gate: &G,
    session: &Session<L>,
    scripts: &[Vec<Op>],
    tapes: Vec<Tape<L>>,
) -> Result<Vec<(Tape<L>, Result<(), AppendError>)>, AllocError>
    requires { tapes.items ≡ empty_tapes (length scripts.now) }
    ensures len { IfOk result (λ played. length played.items ≡ length scripts.now) }
    ensures each { IfOk result (λ played. PlaysEach L.format (map (λ script. script.items) scripts.now) played.items) }
{
    let player = |tape: Tape<L>| -> (Tape<L>, Result<(), AppendError>)
        requires { (tape.thread < length scripts.now) × (tape.entries ≡ []) }
        ensures { AtScript (map (λ script. script.items) scripts.entry.now) tape.thread (λ script. Plays L.format script tape.thread result.0 result.1) }
    { play_own(rt, gate, session, scripts, tape) };
    let played = thread::map_vec(rt, tapes, &player)?;
    Ok(played)
}

// The fault of the lowest number.
fn lowest_fault<L: Roll>(played: &[(Tape<L>, Result<(), AppendError>)]) -> Option<RecordError>
    requires { length played.now ≤ 256 }
    ensures { result ≡ first_fault 0 played.now }
{
    for (number, (_, end)) in played.iter().enumerate() {
        let recorder = number as u8;
        match *end {
            Ok(()) => {}
            Err(AppendError::NotInFormat) => return Some(RecordError::NotInFormat { recorder }),
            Err(AppendError::Full { events }) => return Some(RecordError::Full {
                recorder,
                events,
            }),
            Err(AppendError::OutOfMemory) => return Some(RecordError::OutOfMemory),
        }
    }
    None
}

// Whether the scripts have more ops together than a book has room for.
fn are_over(scripts: &[Vec<Op>]) -> bool
    ensures { result ≡ nat_lt event_limit (op_count (map (λ script. script.items) scripts.now)) }
{
    let mut room: usize = 1_000_000;
    for script in scripts {
        let len = script.len();
        if room < len {
            return true;
        }
        room -= len;
    }
    false
}

// The fault that is told. No book is full of scripts that it has room for; but what a recorder found under the lock is known to nobody
// later, so that would be told as want of memory.
fn told_fault(fault: RecordError, scripts: &[Vec<Op>]) -> RecordError
    ensures fits { (f : Layout) → RecordFailsIf (Unit {0}) f (map (λ script. script.items) scripts.now) fault → RecordFails f (map (λ script. script.items) scripts.now) result }
    ensures count { result ≡ RecordError.BadCount → fault ≡ RecordError.BadCount }
{
    match fault {
        RecordError::Full { recorder, events } => {
            if are_over(scripts) {
                RecordError::Full { recorder, events }
            } else {
                RecordError::OutOfMemory
            }
        }
        other => other,
    }
}

// The tapes alone.
fn tapes_of<L: Roll>(
    alloc: Global,
    played: Vec<(Tape<L>, Result<(), AppendError>)>,
) -> Result<Vec<Tape<L>>, AllocError>
    ensures { IfOk result (λ tapes. tapes.items ≡ map (λ p. p.0) played.items) }
{
    let mut tapes = Vec::new(alloc);
    for (tape, _) in played {
        tapes.push(tape)?;
    }
    Ok(tapes)
}

// Seals the session with tapes that are one of each number.
fn finish<L: Roll>(session: Session<L>, tapes: Vec<Tape<L>>) -> Result<Trace, RecordError>
    requires { IsOneOfEach L.tapes tapes.items }
    ensures ok { IfOk result (IsSealed L.tapes L.format tapes.items) }
    ensures torn { IfErr result (IsTornOf L.tapes tapes.items) }
{
    match session.seal(tapes) {
        Ok(trace) => Ok(trace),
        Err(fault) => match fault.kind {
            SealKind::Torn { recorder } => Err(RecordError::Torn { recorder }),
            SealKind::WrongTapes => unreachable!(),
        },
    }
}

// Records the scripts in the session that L names.
fn record_over<L: Roll + Send + Sync, G: Gate + Sync, R: Threads + Wait + Sync>(
    rt: &R,
    alloc: Global,
    blank: Blank,
    gate: &G,
    scripts: &[Vec<Op>],
) -> Result<Trace, RecordError>
    requires name { blank.name ≡ L.name }
    requires parts { (blank.parts ≡ L.parts) × (blank.parts ≡ 256) }
    requires tapes { length scripts.now ≡ L.tapes }
    requires format { first_version ≡ L.format }
    ensures ok { IfOk result (IsRecorded first_version (map (λ script. script.items) scripts.now)) }
    ensures err { IfErr result (RecordFails first_version (map (λ script. script.items) scripts.now)) }
    ensures count { (result ≡ Err RecordError.BadCount) ↔ ((length scripts.now ≡ 0) ⊎ (256 < length scripts.now)) }
{
    let (session, tapes) = match Session::<L>::start(alloc, blank, scripts.len()) {
        Ok(started) => started,
        Err(StartError::BadCount) => return Err(RecordError::BadCount),
        Err(StartError::OutOfMemory) => return Err(RecordError::OutOfMemory),
    };
    let Ok(played) = play_all(rt, gate, &session, scripts, tapes) else {
        return Err(RecordError::OutOfMemory);
    };
    if let Some(fault) = lowest_fault(played.as_slice()) {
        return Err(told_fault(fault, scripts));
    }
    let Ok(tapes) = tapes_of(alloc, played) else {
        return Err(RecordError::OutOfMemory);
    };
    finish(session, tapes)
}

/// Records the scripts, each by a thread of its own: a trace of version 1 that is an interleaving of them, in which part k has the ops
/// of script k. The recorder of script k enters the gate with the number k before its first append, also where its script is empty,
/// and after each append that succeeds. It answers only when all threads have returned.
///
/// # Errors
/// `BadCount` unless there are 1 to 256 scripts. Then the fault of the recorder with the lowest number: `NotInFormat` where an op of
/// its script is a clflush or an mfence, `Full` where the book had 1,000,000 events, so that the scripts have more ops together, or `OutOfMemory`, also where a thread was not
/// started for want of memory. Then `Torn` with the lowest number whose tape is not its part of the book.
pub fn record_scripts<G: Gate + Sync, R: Threads + Wait + Sync>(
    rt: &R,
    alloc: Global,
    gate: &G,
    scripts: Vec<Vec<Op>>,
) -> Result<Trace, RecordError>
    ensures ok { IfOk result (IsRecorded first_version (map (λ script. script.items) scripts.items)) }
    ensures err { IfErr result (RecordFails first_version (map (λ script. script.items) scripts.items)) }
    ensures count { (result ≡ Err RecordError.BadCount) ↔ ((length scripts.items ≡ 0) ⊎ (256 < length scripts.items)) }
{
    record_over::<Brand, G, R>(rt, alloc, Blank::new(256), gate, scripts.as_slice())
}
