//! Calls on one thread: stores, traces, lines and sources.

use crate::stop::{Stop, gave, given, refused, worst};
use pmt_marks::LineState;
use pmt_model::{Event, Op, SplitStoreError, Trace, split_store};
use pmt_text::devices::PieceReader;
use pmt_text::{Counted, EventSource, SourceError, TextSource};
use std::alloc::Global;

const SPLIT: &str = "split_store";

const PUSH: &str = "Trace::push";

const FLUSH: &str = "LineState::on_flush";

const NEXT: &str = "EventSource::next";

const THREADS: u8 = 40;

const TEXT: &[u8] = b"pmtrace 1\nstore 0 0x1000 01\nclwb 0 0x1000\nsfence 0\n";

// Whether a store of four bytes is cut where a word ends.
fn are_two_pieces(pieces: &[Op]) -> bool {
    match (Op::store(0x1006, &[1, 2]), Op::store(0x1008, &[3, 4])) {
        (Ok(first), Ok(second)) => pieces == [first, second].as_slice(),
        _ => false,
    }
}

/// A store of four bytes is cut where a word ends.
pub fn split(alloc: Global) -> Result<(), Stop> {
    let answer = split_store(alloc, 0x1006, &[1, 2, 3, 4]);
    let pieces = given(SPLIT, answer, SplitStoreError::OutOfMemory)?;
    gave(SPLIT, are_two_pieces(pieces.as_slice()))
}

fn fence_by(thread: u8) -> Event {
    Event {
        thread,
        op: Op::Sfence,
    }
}

// Pushes a fence. Where that is refused, the trace is as before, and takes the fence then.
fn push_again(trace: &mut Trace, thread: u8) -> Result<(), Stop> {
    let len = trace.len();
    if trace.push(fence_by(thread)).is_ok() {
        return Ok(());
    }
    let is_same = trace.len() == len;
    refused(PUSH, is_same && trace.push(fence_by(thread)).is_ok())
}

/// Each push adds its event.
pub fn push(alloc: Global) -> Result<(), Stop> {
    let mut trace = Trace::new(alloc);
    let mut ended = Ok(());
    for thread in 0..THREADS {
        ended = worst(ended, push_again(&mut trace, thread));
    }
    for thread in 0..THREADS {
        gave(PUSH, trace.get(thread as u64 + 1) == Some(fence_by(thread)))?;
    }
    ended
}

// Whether the threads below this one have flushed the one store, and no other has.
fn is_flushed_below(line: &LineState, thread: u8) -> bool {
    for other in 0..THREADS {
        let wanted = if other < thread { Some(1) } else { None };
        if line.mark(other) != wanted {
            return false;
        }
    }
    line.front() == 0 && line.count() == 1
}

// Flushes the line. Where that is refused, the line is as before, and takes the flush then.
fn flush_again(line: &mut LineState, thread: u8) -> Result<(), Stop> {
    if line.on_flush(thread).is_ok() {
        return Ok(());
    }
    let is_same = is_flushed_below(line, thread);
    refused(FLUSH, is_same && line.on_flush(thread).is_ok())
}

/// Each flush of a line marks its one store.
pub fn flush(alloc: Global) -> Result<(), Stop> {
    let mut line = LineState::new(alloc);
    line.on_store();
    let mut ended = Ok(());
    for thread in 0..THREADS {
        ended = worst(ended, flush_again(&mut line, thread));
    }
    gave(FLUSH, is_flushed_below(&line, THREADS))?;
    ended
}

// How many events the source gives to its end.
fn count_events<S: EventSource>(source: &mut S) -> Result<u64, SourceError> {
    for count in 0..100u64 {
        if source.next()?.is_none() {
            return Ok(count);
        }
    }
    Ok(100)
}

/// A source gives its three events; one that was refused memory has failed from then on.
pub fn next(alloc: Global) -> Result<(), Stop> {
    let mut source = TextSource::new(alloc, Counted::new(PieceReader::new(TEXT, 7)));
    match count_events(&mut source) {
        Ok(count) => gave(NEXT, count == 3),
        Err(SourceError::OutOfMemory) => {
            let has_failed = source.next() == Err(SourceError::Failed);
            refused(
                NEXT,
                has_failed && source.format() == Err(SourceError::Failed),
            )
        }
        Err(_) => Err(Stop::Wrong(NEXT)),
    }
}
