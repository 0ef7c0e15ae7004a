//! What is missing where a crash loses stores: the events that mend that, and where they are put in.
use crate::asserted::Asserted;
use crate::crash::DrawnCrash;
use crate::ops::{line_of_op, next_fence, waits_for_fence};
use crate::subject::DrawnSubject;
use pmt_model::{Event, Op, OutOfMemory, Trace};
use pmt_reasons::Cause;
use std::alloc::Global;

// The most events that are searched for the next fence of a thread.
const NEAR: u64 = 10_000;

/// What kind of event is missing.
#[derive(Clone, Copy, PartialEq, Eq)]
pub enum MissingKind {
    /// The store with this number, which comes too late.
    Store(u64),
    /// A flush of the line of this number.
    Flush(u64),
    /// A fence.
    Fence,
}

/// An event that is missing.
#[derive(Clone, Copy)]
pub struct Missing {
    /// What it is.
    pub wanted: MissingKind,
    /// The thread that makes it.
    pub thread: u8,
    /// The event after which it is put in; 0 for the start.
    pub after: u64,
    /// The event before which it has to come; none for the end.
    pub before: Option<u64>,
}

/// What is missing so that the subject's crash does not lose the store that it loses first, in the order in which it is put in. The bytes
/// that it should not lose are those that are `claimed`.
///
/// # Errors
/// Where memory was refused.
pub(crate) fn missing_of(
    alloc: Global,
    trace: &Trace,
    subject: DrawnSubject,
    crash: Option<&DrawnCrash>,
    claimed: Option<Asserted>,
) -> Result<Vec<Missing>, OutOfMemory> {
    let Some(crash) = crash else {
        return Ok(Vec::new(alloc));
    };
    let failure = crash.failure;
    let (store, before) = match subject {
        DrawnSubject::Lost(group) => (group.last, None),
        _ => (failure.lost.store, Some(failure.place)),
    };
    match crash.cause {
        None => Ok(Vec::new(alloc)),
        Some(
            Cause::Unfenced {
                flush,
                thread,
                other: _,
            },
        ) => {
            let after = match before {
                Some(end) => last_flush(trace, claimed, thread, flush, end),
                None => flush,
            };
            Ok(vec![in alloc; fence(thread, after, before)]?)
        }
        Some(Cause::Unflushed) => unflushed(alloc, trace, crash, store, before),
        Some(Cause::Later) => later(alloc, trace, crash, store),
    }
}

// A fence of the thread between these events.
fn fence(thread: u8, after: u64, before: Option<u64>) -> Missing {
    Missing {
        wanted: MissingKind::Fence,
        thread,
        after,
        before,
    }
}

// The flush of the store's line, by the store's thread, behind all stores to the line that are lost and come in time; and a fence, unless
// the thread makes one.
fn unflushed(
    alloc: Global,
    trace: &Trace,
    crash: &DrawnCrash,
    store: u64,
    before: Option<u64>,
) -> Result<Vec<Missing>, OutOfMemory> {
    let mut missing = Vec::new(alloc);
    let Some((thread, line)) = store_of(trace, store) else {
        return Ok(missing);
    };
    let end = before.unwrap_or(u64::MAX);
    let near = end.min(store.saturating_add(NEAR));
    let standing = next_fence(trace, thread, store, near.saturating_sub(1));
    let after = last_lost(trace, crash, line, store, standing.unwrap_or(end));
    missing.push(Missing {
        wanted: MissingKind::Flush(line),
        thread,
        after,
        before: if standing.is_some() { standing } else { before },
    })?;
    if standing.is_none() {
        missing.push(fence(thread, after, before))?;
    }
    Ok(missing)
}

// The last store to the line that the crash loses and that comes before that event; the first one of these is event `first`.
fn last_lost(trace: &Trace, crash: &DrawnCrash, line: u64, first: u64, end: u64) -> u64 {
    let mut last = first;
    for store in &crash.lost {
        if last < *store && *store < end {
            if let Some((_, other)) = store_of(trace, *store) {
                if other == line {
                    last = *store;
                }
            }
        }
    }
    last
}

// The store right before the event that the crash comes after, and where that is no store to the same line, its flush and a fence.
fn later(
    alloc: Global,
    trace: &Trace,
    crash: &DrawnCrash,
    store: u64,
) -> Result<Vec<Missing>, OutOfMemory> {
    let mut missing = Vec::new(alloc);
    let Some((thread, line)) = store_of(trace, store) else {
        return Ok(missing);
    };
    let (after, before) = (
        crash.failure.place.saturating_sub(1),
        Some(crash.failure.place),
    );
    missing.push(Missing {
        wanted: MissingKind::Store(store),
        thread,
        after,
        before,
    })?;
    let kept = match crash.failure.kept {
        Some(kept) => store_of(trace, kept.store),
        None => None,
    };
    let is_same = match kept {
        Some((_, other)) => other == line,
        None => false,
    };
    if !is_same {
        missing.push(Missing {
            wanted: MissingKind::Flush(line),
            thread,
            after,
            before,
        })?;
        missing.push(fence(thread, after, before))?;
    }
    Ok(missing)
}

// The thread and the line of the store with this number.
fn store_of(trace: &Trace, store: u64) -> Option<(u8, u64)> {
    let event = trace.get(store)?;
    let thread = event.thread;
    let line = line_of_op(trace.format(), event.op)?;
    Some((thread, line))
}

// The last flush of the claimed bytes by the thread before that event; the first one of these is event `first`.
fn last_flush(
    trace: &Trace,
    claimed: Option<Asserted>,
    thread: u8,
    first: u64,
    before: u64,
) -> u64 {
    let Some(range) = claimed else {
        return first;
    };
    let (low, high) = range.lines(trace.format());
    for number in (first..before).rev() {
        let Some(Event { thread: own, op }) = trace.get(number) else {
            break;
        };
        if own == thread && flushes(trace, op, low, high) {
            return number;
        }
    }
    first
}

// Whether the op flushes one of these lines, by a flush that waits for a fence.
fn flushes(trace: &Trace, op: Op, low: u64, high: u64) -> bool {
    match line_of_op(trace.format(), op) {
        Some(line) => waits_for_fence(&op) && low <= line && line <= high,
        None => false,
    }
}
