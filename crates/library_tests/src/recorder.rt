//! Tests of sessions.
mod scripts;

ghost use Rattle.std.specs.Prelude.{◌≡◌};

use crate::recorder::scripts::has_events;
use pmt_book::Book;
use pmt_model::{Format, Op, Trace};
use pmt_recorder::{AppendError, Roll, Session, Tape};
use std::marker::Brand;
use std::process::Abort;
use std::sync::Wait;
use std::sync::ledger::Blank;
use std::test::Fail;

// What is done in a session.
#[derive(Clone, Copy)]
enum Act {
    // A store, and a clflush of its line.
    Persist,
    // As many fences as there may be, and one more.
    Fill,
}

// A session of one tape, in which the act is done.
fn in_session<R: Wait + Abort + AllocGlobal>(rt: &R, format: Format, act: Act) {
    start::<Brand, R>(rt, Blank::new(256), format, act)
}

fn start<L: Roll, R: Wait + Abort + AllocGlobal>(rt: &R, blank: Blank, format: Format, act: Act)
    requires name { blank.name ≡ L.name }
    requires parts { (blank.parts ≡ L.parts) × (blank.parts ≡ 256) }
    requires tapes { 1 ≡ L.tapes }
    requires format { format ≡ L.format }
{
    match Session::<L>::start_with(rt.alloc(), blank, format, 1) {
        Ok((session, tapes)) => play(rt, session, tapes, act),
        Err(_) => panic!(rt; "no session"),
    }
}

fn play<L: Roll, R: Wait + Abort>(rt: &R, session: Session<L>, tapes: Vec<Tape<L>>, act: Act) {
    let mut tapes = tapes;
    match (tapes.first_mut(), act) {
        (Some(tape), Act::Persist) => persist(rt, &session, tape),
        (Some(tape), Act::Fill) => fill(rt, &session, tape),
        (None, _) => panic!(rt; "no tape"),
    }
    match session.seal(tapes) {
        Ok(trace) => has_sealed(rt, &trace, act),
        Err(_) => panic!(rt; "an honest session was not sealed"),
    }
}

// What an honest session has done stands in its trace.
fn has_sealed(rt: &impl Abort, trace: &Trace, act: Act) {
    match act {
        Act::Persist => {
            is_128(rt, trace.format());
            has_events(rt, trace, &[(0, store(rt)), (0, clflush(rt))]);
        }
        Act::Fill => assert_eq!(rt; trace.len(), 1_000_000),
    }
}

fn store(rt: &impl Abort) -> Op {
    Op::store(0x1000, &[1]).expect(rt, "a store")
}

fn clflush(rt: &impl Abort) -> Op {
    Op::clflush(0x1040).expect(rt, "a clflush")
}

// The format is of version 2, with lines of 128 bytes.
fn is_128(rt: &impl Abort, format: Format) {
    assert_eq!(rt; (format.version(), format.line_size()), (2, 128));
}

fn persist<L: Roll, R: Wait + Abort>(rt: &R, session: &Session<L>, tape: &mut Tape<L>) {
    append(rt, session, tape, store(rt), 1);
    append(rt, session, tape, clflush(rt), 2);
    assert_eq!(rt; tape.get(1), Some((2, clflush(rt))));
    match session.snapshot(rt, tape) {
        Ok(snapshot) => shows_128(rt, snapshot.book()),
        Err(_) => panic!(rt; "no snapshot"),
    }
}

// Appends the op as the event with this number.
fn append<L: Roll, R: Wait + Abort>(
    rt: &R,
    session: &Session<L>,
    tape: &mut Tape<L>,
    op: Op,
    number: u64,
) {
    assert_eq!(rt; session.append(rt, tape, op), Ok(number));
    assert_eq!(rt; tape.len() as u64, number);
}

// The snapshot has one store to line 32, which is persisted.
fn shows_128(rt: &impl Abort, book: &Book) {
    assert_eq!(rt; (book.front(32), book.count(32)), (1, 1));
    is_128(rt, book.format());
}

fn fill<L: Roll, R: Wait + Abort>(rt: &R, session: &Session<L>, tape: &mut Tape<L>) {
    for _ in 0..1_000_000u64 {
        assert!(rt; session.append(rt, tape, Op::Sfence).is_ok());
    }
    let full = AppendError::Full { events: 1_000_000 };
    assert_eq!(rt; session.append(rt, tape, Op::Sfence), Err(full));
}

#[test]
fn session_of_128(rt: HostRuntime) -> Result<(), Fail> {
    in_session(&rt, Format::v2(128)?, Act::Persist);
    Ok(())
}

#[test]
fn million_events(rt: HostRuntime) {
    in_session(&rt, Format::v1(), Act::Fill);
}
