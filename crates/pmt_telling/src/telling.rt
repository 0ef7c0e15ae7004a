//! What each part of the text for people is told of.

use crate::sites::frame_at;
use pmt_asked::{Choice, Ignored, Labels};
use pmt_causes::{Origin, origin_of};
use pmt_explanation::Explanation;
use pmt_model::{Op, OutOfMemory, Trace, line_of};
use pmt_sources::Sources;
use std::alloc::Global;
use std::collections::HashSet;

/// What is made, if memory was not refused.
pub type Made<T> = Result<T, OutOfMemory>;

/// How long the text is, and what the commands that it names are given.
#[derive(Drop)]
pub struct Screen<'a> {
    /// The most lines; none where all entries up to the limit are shown.
    pub rows: Option<usize>,
    /// What was asked for.
    pub choice: &'a Choice,
    /// The stores that are ignored.
    pub ignored: &'a Ignored,
    /// The file of the trace; none for standard input.
    pub trace: Option<&'a str>,
    /// The file of the labels, if there is one.
    pub labels: Option<&'a str>,
    /// What the trace lacks of its run, as lines of which the last one is empty; no byte where that is nothing.
    pub lacking: &'a str,
    /// Whether the verdicts of claims in the trace are those that they have in the run.
    pub knows_verdicts: bool,
    /// Whether the stores that are never persisted in the trace are so in the run.
    pub knows_losses: bool,
    /// What was read of source files.
    pub sources: Option<&'a Sources<'a>>,
}

/// What is told, and how.
#[derive(Drop)]
pub struct Telling<'a> {
    /// What gives memory.
    pub alloc: Global,
    /// The trace that was analysed.
    pub trace: &'a Trace,
    /// What is told of it.
    pub explanation: &'a Explanation,
    /// The labels of its events.
    pub labels: &'a Labels,
    /// What is asked for, and how much room there is.
    pub screen: &'a Screen<'a>,
    /// Whether several threads have events.
    pub has_threads: bool,
    /// The sites of fields that are told apart, since they may be volatile.
    pub volatile: HashSet<Origin>,
}

/// Whether several threads have events in the trace.
pub fn has_threads(trace: &Trace) -> bool {
    let Some(first) = trace.get(1) else {
        return false;
    };
    let thread = first.thread;
    trace.events().iter().any(|event| event.thread != thread)
}

// The most events that are searched for one that goes with another.
pub(crate) const NEAR: u64 = 10_000;

impl<'a> Telling<'a> {
    /// The op of the event, if there is such an event.
    pub fn op(&self, number: u64) -> Option<Op> {
        self.trace.get(number).map(|event| event.op)
    }

    /// The thread of the event; 0 where there is no such event.
    pub fn thread(&self, number: u64) -> u8 {
        match self.trace.get(number) {
            Some(event) => event.thread,
            None => 0,
        }
    }

    /// The address that the event names first, if it names one.
    pub fn address(&self, number: u64) -> Option<u64> {
        match self.op(number)? {
            Op::Store(store) => Some(store.addr().get()),
            Op::Clwb(addr) | Op::ClflushOpt(addr) | Op::Clflush(addr) => Some(addr.get()),
            Op::IsPersist(range) | Op::IsOrderedBefore(range, _) => Some(range.addr().get()),
            Op::Sfence | Op::Mfence => None,
        }
    }

    /// The number of the cache line of the store or flush.
    pub fn line(&self, number: u64) -> Option<u64> {
        let addr = match self.op(number)? {
            Op::Store(store) => store.addr(),
            Op::Clwb(addr) | Op::ClflushOpt(addr) | Op::Clflush(addr) => addr,
            Op::IsPersist(_) | Op::IsOrderedBefore(_, _) | Op::Sfence | Op::Mfence => return None,
        };
        Some(line_of(self.trace.format(), addr))
    }

    /// The address of the first byte of the cache line with this number.
    pub fn line_address(&self, line: u64) -> u64 {
        pmt_text::line_address(self.trace.format(), line)
    }

    /// That address for the line of the store or flush.
    pub fn line_start(&self, number: u64) -> u64 {
        self.line_address(self.line(number).unwrap_or(0))
    }

    /// The bytes that the event stores.
    pub fn stored(&self, number: u64) -> Option<Bytes> {
        match self.op(number)? {
            Op::Store(store) => Some(Bytes::of(store.addr().get(), store.bytes().len() as u64)),
            _ => None,
        }
    }

    /// The range, or the first one, of the assertion.
    pub fn first_range(&self, number: u64) -> Option<Bytes> {
        match self.op(number)? {
            Op::IsPersist(range) | Op::IsOrderedBefore(range, _) => {
                Some(Bytes::of(range.addr().get(), range.len()))
            }
            _ => None,
        }
    }

    /// The second range of the order.
    pub fn second_range(&self, number: u64) -> Option<Bytes> {
        match self.op(number)? {
            Op::IsOrderedBefore(_, range) => Some(Bytes::of(range.addr().get(), range.len())),
            _ => None,
        }
    }

    /// The site of the event.
    pub fn origin(&self, number: u64) -> Origin {
        let thread = self.thread(number);
        origin_of(self.explanation.frames.as_slice(), number, thread)
    }

    /// The label of the event.
    pub fn label(&self, number: u64) -> Option<&'a str> {
        self.labels.get(number).map(|label| label.as_str())
    }

    // The frame that calls the innermost one of the event's label.
    pub(crate) fn caller(&self, number: u64) -> Option<&'a str> {
        frame_at(self.label(number)?, 1)
    }

    /// Whether the store is told as never persisted.
    pub fn is_lost(&self, number: u64) -> bool {
        self.explanation.stores.binary_search(&number).is_ok()
    }

    /// How many fences of its thread leave the store unsafe.
    pub fn waited(&self, number: u64) -> u64 {
        let index = number.saturating_sub(1) as usize;
        self.explanation.waited.get(index).copied().unwrap_or(0)
    }

    // The next fence of the event's thread, if it stands near.
    pub(crate) fn next_fence(&self, number: u64) -> Option<u64> {
        let thread = self.thread(number);
        let end = self.end().min(number.saturating_add(NEAR));
        (number.saturating_add(1)..end).find(|later| self.thread(*later) == thread
            && self.is_fence(*later))
    }

    /// Whether the event is a fence.
    pub fn is_fence(&self, number: u64) -> bool {
        matches!(self.op(number), Some(Op::Sfence | Op::Mfence))
    }

    /// Whether the event is a flush.
    pub fn is_flush(&self, number: u64) -> bool {
        let op = self.op(number);
        matches!(op, Some(Op::Clwb(_) | Op::ClflushOpt(_) | Op::Clflush(_)))
    }

    /// The number behind that of the last event.
    pub fn end(&self) -> u64 {
        (self.trace.len() as u64).saturating_add(1)
    }
}

/// Bytes side by side.
#[derive(Clone, Copy)]
pub struct Bytes {
    /// The address of the first one.
    pub start: u64,
    /// The address behind the last one.
    pub end: u64,
}

impl Bytes {
    /// So many bytes from this address on.
    pub fn of(start: u64, length: u64) -> Self {
        Bytes {
            start,
            end: start.saturating_add(length),
        }
    }

    /// Whether the byte at this address is one of them.
    pub fn has(self, address: u64) -> bool {
        self.start <= address && address < self.end
    }

    /// Whether one of them is one of the others.
    pub fn meets(self, other: Bytes) -> bool {
        self.start < other.end && other.start < self.end
    }
}
