//! Calls of a book, and of a session in which two threads record (two_recorders).

ghost use Rattle.std.specs.Prelude.{◌≡◌};
ghost use Rattle.pmt_model.specs.Values.{first_version};

use crate::stop::{Stop, gave, refused, worst};
use pmt_book::Book;
use pmt_model::{Event, Op};
use pmt_recorder::{Roll, Session, Snapshot, Tape};
use std::alloc::Global;
use std::marker::Brand;
use std::sync::Wait;
use std::sync::ledger::Blank;
use std::thread;
use std::thread::Threads;

const BOOK: &str = "Book::push_event";

const START: &str = "Session::start";

const APPEND: &str = "Session::append";

const LOOK: &str = "Session::snapshot";

const EVENTS: u64 = 61;

const APPENDS: usize = 100;

// A store to line 64, which 20 threads flush; a store by each thread to a line of its own; a fence by each.
fn event_of(number: u64) -> Option<Event> {
    let thread = ((number % 20) + 18) % 20;
    let op = match number {
        1 => Op::store(0x1000, &[1]).ok()?,
        2..=21 => Op::clwb(0x1000).ok()?,
        22..=41 => Op::store(0x1040 + 64 * thread, &[2]).ok()?,
        _ => Op::Sfence,
    };
    Some(Event {
        thread: thread as u8,
        op,
    })
}

// The fronts of all lines together, and their counts.
fn totals(book: &Book) -> (u64, u64) {
    let mut fronts = 0u64;
    let mut counts = 0u64;
    for line in 64..85u64 {
        fronts = fronts.saturating_add(book.front(line));
        counts = counts.saturating_add(book.count(line));
    }
    (fronts, counts)
}

// Pushes the event with this number. Where that is refused, the book is as before, and takes the event then.
fn push_again(book: &mut Book, number: u64) -> Result<(), Stop> {
    let Some(event) = event_of(number) else {
        return Err(Stop::Wrong(BOOK));
    };
    let before = (book.len(), totals(book));
    if let Ok(given) = book.push_event(event) {
        return gave(BOOK, given == number);
    }
    let is_same = (book.len(), totals(book)) == before;
    refused(BOOK, is_same && book.push_event(event) == Ok(number))
}

/// Each push adds its event under the next number.
pub fn push_events(alloc: Global) -> Result<(), Stop> {
    let mut book = Book::new(alloc);
    let mut ended = Ok(());
    for number in 1..=EVENTS {
        ended = worst(ended, push_again(&mut book, number));
    }
    gave(BOOK, has_all(&book))?;
    ended
}

// Whether the book has all events, and its totals are theirs.
fn has_all(book: &Book) -> bool {
    for number in 1..=EVENTS {
        if book.get(number) != event_of(number) {
            return false;
        }
    }
    (book.len() as u64, totals(book)) == (EVENTS, (1, 21))
}

// What a thread appends at its turn.
fn op_of(thread: u8, turn: usize) -> Option<Op> {
    let byte = (turn % 256) as u8;
    Op::store(0x1000 + 64 * thread as u64, &[byte]).ok()
}

// Appends. Where that is refused, tape and book are as before, and take the op then.
fn append_again<L: Roll, R: Wait>(
    rt: &R,
    session: &Session<L>,
    tape: &mut Tape<L>,
    op: &Op,
) -> Result<(), Stop> {
    let len = tape.len();
    if let Ok(number) = session.append(rt, tape, *op) {
        return gave(APPEND, tape.get(len) == Some((number, *op)));
    }
    let is_same = tape.len() == len && session.snapshot(rt, tape).is_ok();
    refused(APPEND, is_same && session.append(rt, tape, *op).is_ok())
}

// A snapshot, taken again where it is refused; none where it is refused again.
fn snapshot_again<L: Roll, R: Wait>(
    rt: &R,
    session: &Session<L>,
    tape: &Tape<L>,
) -> (Option<Snapshot>, Result<(), Stop>) {
    match session.snapshot(rt, tape) {
        Ok(snapshot) => (Some(snapshot), Ok(())),
        Err(_) => (session.snapshot(rt, tape).ok(), Err(Stop::Refused(LOOK))),
    }
}

// The number of the thread's last event, or 0.
fn last_of(events: &[Event], thread: u8) -> u64 {
    let mut last = 0;
    for (place, event) in events.iter().enumerate() {
        if event.thread == thread {
            last = place as u64 + 1;
        }
    }
    last
}

// What a thread has done: its tape, its last snapshot, and how its calls ended.
#[derive(Drop)]
struct Part<L: Roll> {
    tape: Tape<L>,
    seen: Option<Snapshot>,
    ended: Result<(), Stop>,
}

// One append of a thread. A snapshot after it has it as the thread's last event.
fn take_turn<L: Roll, R: Wait>(
    rt: &R,
    session: &Session<L>,
    part: &mut Part<L>,
    turn: usize,
) -> Result<(), Stop> {
    let Some(op) = op_of(part.tape.thread(), turn) else {
        return Err(Stop::Wrong(APPEND));
    };
    let appended = append_again(rt, session, &mut part.tape, &op);
    if turn % 8 != 0 {
        return appended;
    }
    let (seen, looked) = snapshot_again(rt, session, &part.tape);
    if let (Some(snapshot), Some((number, _))) = (&seen, part.tape.get(turn)) {
        let last = last_of(snapshot.book().events(), part.tape.thread());
        gave(LOOK, last == number)?;
    }
    part.seen = seen;
    worst(appended, looked)
}

// A thread's appends.
fn work<L: Roll, R: Wait>(rt: &R, session: &Session<L>, tape: Tape<L>) -> Part<L> {
    let mut part = Part {
        tape,
        seen: None,
        ended: Ok(()),
    };
    for turn in 0..APPENDS {
        part.ended = worst(part.ended, take_turn(rt, session, &mut part, turn));
    }
    part
}

// Both threads append, each by one of the tapes.
fn work_both<L: Roll + Send + Sync, R: Threads + Wait + Sync>(
    rt: &R,
    session: &Session<L>,
    first: Tape<L>,
    second: Tape<L>,
) -> (Part<L>, Part<L>) {
    thread::join(
        rt,
        move || work(rt, session, first),
        move || work(rt, session, second),
    )
}

// Whether the book has a thread's appends under the numbers that its tape has, and begins with what the thread has seen last.
fn has_part<L: Roll>(book: &Book, part: &Part<L>) -> bool {
    let thread = part.tape.thread();
    for turn in 0..APPENDS {
        let wanted = op_of(thread, turn);
        let Some((number, op)) = part.tape.get(turn) else {
            return false;
        };
        if wanted != Some(op) || book.get(number) != wanted.map(|op| Event { thread, op }) {
            return false;
        }
    }
    match &part.seen {
        Some(seen) => {
            let events = seen.book().events();
            part.tape.len() == APPENDS && book.events().get(..events.len()) == Some(events)
        }
        None => false,
    }
}

// Whether the snapshot has what both threads have appended, and no more.
fn has_both<L: Roll>(whole: &Option<Snapshot>, first: &Part<L>, second: &Part<L>) -> bool {
    match whole {
        Some(seen) => {
            let book = seen.book();
            book.len() == 2 * APPENDS && has_part(book, first) && has_part(book, second)
        }
        None => false,
    }
}

// Whether the session is sealed, and its trace is what stood in it.
fn is_sealed<L: Roll>(session: Session<L>, tapes: Vec<Tape<L>>, whole: &Option<Snapshot>) -> bool {
    match (session.seal(tapes), whole) {
        (Ok(trace), Some(seen)) => trace.events() == seen.book().events(),
        _ => false,
    }
}

// Two threads append in the session, and hand their tapes back; it is sealed then.
fn recorded<L: Roll + Send + Sync, R: Threads + Wait + Sync>(
    rt: &R,
    session: Session<L>,
    tapes: Vec<Tape<L>>,
) -> Result<(), Stop> {
    let mut tapes = tapes;
    let (Some(second), Some(first)) = (tapes.pop(), tapes.pop()) else {
        return Err(Stop::Wrong(START));
    };
    let (first, second) = work_both(rt, &session, first, second);
    let (whole, looked) = snapshot_again(rt, &session, &first.tape);
    gave(APPEND, has_both(&whole, &first, &second))?;
    let ended = worst(looked, worst(first.ended, second.ended));
    let Part { tape: first, .. } = first;
    let Part { tape: second, .. } = second;
    let are_back = tapes.push(first).is_ok() && tapes.push(second).is_ok();
    gave(START, are_back && is_sealed(session, tapes, &whole))?;
    ended
}

// Records in the session that L names.
fn record<L: Roll + Send + Sync, R: Threads + Wait + Sync>(
    rt: &R,
    alloc: Global,
    blank: Blank,
) -> Result<(), Stop>
    requires name { blank.name ≡ L.name }
    requires parts { (blank.parts ≡ L.parts) × (blank.parts ≡ 256) }
    requires tapes { 2 ≡ L.tapes }
    requires format { first_version ≡ L.format }
{
    match Session::<L>::start(alloc, blank, 2) {
        Ok((session, tapes)) => recorded(rt, session, tapes),
        Err(_) => Err(Stop::Refused(START)),
    }
}

/// Two threads record in a session.
pub fn session<R: Threads + Wait + Sync>(rt: &R, alloc: Global) -> Result<(), Stop> {
    record::<Brand, R>(rt, alloc, Blank::new(256))
}
