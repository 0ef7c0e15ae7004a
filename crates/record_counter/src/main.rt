//! How an engine's tests record a run: two threads of the engine increment counters in persistent memory, each by a tape of its own.
//! The session is sealed, and its trace is checked and trimmed. Only what every schedule gives is printed.
#![tactic(auto)]

ghost use Rattle.std.specs.Prelude.{◌≡◌};
ghost use Rattle.pmt_model.specs.Values.{first_version};

use anyhow::{Error, Result, bail};
use pmt_model::{NoGate, Op, OpError, Range, Trace};
use pmt_recorder::{Roll, Session, Tape};
use pmt_text::ListSource;
use pmt_workers::{Analysis, analyse_with, trimmed};
use std::alloc::Global;
use std::marker::Brand;
use std::sync::Wait;
use std::sync::ledger::Blank;
use std::thread;
use std::thread::Threads;

const INCREMENTS: u8 = 20;

// The counter of a thread has a cache line of its own.
fn counter_of(thread: u8) -> u64 {
    0x1000 + 64 * thread as u64
}

// Records what the thread does.
fn note<L: Roll, R: Wait>(
    rt: &R,
    session: &Session<L>,
    tape: &mut Tape<L>,
    op: Result<Op, OpError>,
) -> Result<()> {
    session.append(rt, tape, op?)?;
    Ok(())
}

// One increment by the engine, recorded as it happens: the store of the new value, its flush and a fence, and the engine's claim that
// the value is persisted now. The fence after it is one too many.
fn increment<L: Roll, R: Wait>(
    rt: &R,
    session: &Session<L>,
    tape: &mut Tape<L>,
    value: u8,
) -> Result<()> {
    let counter = counter_of(tape.thread());
    let claim = Range::new(counter, 1).map(Op::IsPersist);
    note(rt, session, tape, Op::store(counter, &[value]))?;
    note(rt, session, tape, Op::clwb(counter))?;
    note(rt, session, tape, Ok(Op::Sfence))?;
    note(rt, session, tape, claim)?;
    note(rt, session, tape, Ok(Op::Sfence))
}

// Whether the counter's value is persisted for sure, whatever the other thread does.
fn is_persisted<L: Roll, R: Wait>(rt: &R, session: &Session<L>, tape: &Tape<L>) -> Result<bool> {
    let counter = Range::new(counter_of(tape.thread()), 1)?;
    let snapshot = session.snapshot(rt, tape)?;
    Ok(snapshot.book().persisted(counter))
}

// What one thread does: its increments, each of which it looks at in a snapshot. It hands its tape back.
fn work<L: Roll, R: Wait>(rt: &R, session: &Session<L>, tape: Tape<L>) -> Result<Tape<L>> {
    let mut tape = tape;
    for value in 0..INCREMENTS {
        increment(rt, session, &mut tape, value)?;
        if !is_persisted(rt, session, &tape)? {
            bail!("increment {value} is not persisted");
        }
    }
    Ok(tape)
}

// Both threads work, each by one of the tapes: gives these.
fn work_both<L: Roll + Send + Sync, R: Threads + Wait + Sync>(
    rt: &R,
    session: &Session<L>,
    first: Tape<L>,
    second: Tape<L>,
) -> (Result<Tape<L>>, Result<Tape<L>>) {
    thread::join(
        rt,
        move || work(rt, session, first),
        move || work(rt, session, second),
    )
}

// Takes one of the tapes.
fn take<L: Roll>(tapes: &mut Vec<Tape<L>>) -> Result<Tape<L>> {
    match tapes.pop() {
        Some(tape) => Ok(tape),
        None => bail!("two tapes were asked for"),
    }
}

// Both threads work, and hand their tapes back.
fn run<L: Roll + Send + Sync, R: Threads + Wait + Sync>(
    rt: &R,
    session: &Session<L>,
    tapes: &mut Vec<Tape<L>>,
) -> Result<()> {
    let second = take(tapes)?;
    let first = take(tapes)?;
    let (first, second) = work_both(rt, session, first, second);
    tapes.push(first?)?;
    tapes.push(second?)?;
    Ok(())
}

// The trace of the session.
fn sealed<L: Roll>(session: Session<L>, tapes: Vec<Tape<L>>) -> Result<Trace> {
    match session.seal(tapes) {
        Ok(trace) => Ok(trace),
        Err(fault) => Err(Error::from(fault.kind)),
    }
}

// Records the two threads, in the session that L names.
fn record<L: Roll + Send + Sync, R: Threads + Wait + Sync>(
    rt: &R,
    alloc: Global,
    blank: Blank,
) -> Result<Trace>
    requires name { blank.name ≡ L.name }
    requires parts { (blank.parts ≡ L.parts) × (blank.parts ≡ 256) }
    requires tapes { 2 ≡ L.tapes }
    requires format { first_version ≡ L.format }
{
    let (session, mut tapes) = Session::<L>::start(alloc, blank, 2)?;
    run(rt, &session, &mut tapes)?;
    sealed(session, tapes)
}

// What checking and trimming the trace comes to.
fn tell(rt: &HostRuntime, analysis: &Analysis) -> Result<()> {
    let verdicts = analysis.verdicts();
    let claims = verdicts.len();
    let passed = verdicts.iter().filter(|verdict| verdict.pass).count();
    let findings = analysis.findings().len();
    println!(rt; "{claims} claims, of which {passed} pass; {findings} findings")?;
    let events = trimmed(analysis)?.len();
    println!(rt; "the trimmed trace has {events} events")?;
    Ok(())
}

fn main(rt: HostRuntime) -> Result<()> {
    let trace = record::<Brand, HostRuntime>(&rt, rt.alloc(), Blank::new(256))?;
    let events = trace.len();
    println!(rt; "recorded {events} events")?;
    let analysis = analyse_with(&rt, rt.alloc(), &NoGate, &mut ListSource::new(&trace), 2)?;
    tell(&rt, &analysis)
}
