//! Stores that write one word in two parts, on both sides of a line's end.

ghost use Rattle.std.specs.Prelude.{◌≡◌, ◌<◌, ◌+◌, ◌%◌, ◌==◌, ◌&&◌, ◌||◌, ℕ, length, nat_le, IfOk};
ghost use Rattle.pmt_model.specs.Traces.{event};
ghost use Rattle.pmt_hints.specs.Hints.{AreThose, IsSplitWord};
ghost use Rattle.pmt_hints.specs.GoingOn.{begins_or_ends, event_part, is_same_place, joins as joins_in, may_join as may_join_in, op_part, split_so, store_of_thread};
ghost use Rattle.pmt_hints.specs.Numbers.{of_thread};

use crate::numbers::{push_if, selection_of};
use crate::per_thread::PerThread;
use pmt_causes::origin_of;
use pmt_model::{Format, Op, OutOfMemory, Selection, Trace};
use std::alloc::Global;

// Where the bytes of a store begin, and how many they are.
#[derive(Clone, Copy)]
pub(crate) struct Part {
    pub(crate) addr: u64,
    pub(crate) len: u64,
}

/// The stores that write the rest of a word which the store before them by their thread, from the same place, began to write in the
/// line before or after: their bytes follow one another, at most 8 together, and meet at a line's first byte. `labels` are the numbers
/// of the labels of the events, in order; an event past their end has none. A place is a label, or without one a thread.
///
/// It takes one look at each event.
///
/// # Errors
/// Where memory was refused.
pub fn split_words(
    alloc: Global,
    trace: &Trace,
    labels: &[Option<u64>],
) -> Result<Selection, OutOfMemory>
    ensures { IfOk result (AreThose (IsSplitWord trace.now labels.now)) }
{
    let numbers = split_numbers(alloc, trace, labels)?;
    Ok(selection_of(numbers))
}

// The numbers of such stores.
fn split_numbers(
    alloc: Global,
    trace: &Trace,
    labels: &[Option<u64>],
) -> Result<Vec<u64>, OutOfMemory>
    ensures { IfOk result (λ numbers. AreThose (IsSplitWord trace.now labels.now) numbers.items) }
{
    let events = trace.events();
    let mut stores = PerThread::new(0);
    let mut numbers = Vec::new(alloc);
    for index in 0..events.len() {
        let event = events[index];
        let number = index as u64 + 1;
        let earlier = stores.get(event.thread);
        let is_told = is_split(trace, labels, earlier, event.thread, event.op, number);
        push_if(&mut numbers, is_told, number)?;
        note_store(&mut stores, event.thread, event.op, number);
    }
    Ok(numbers)
}

// Whether the op with this number by the thread is a store whose bytes join those of its store at `earlier`, from the same place.
#[inline(always)]
fn is_split(
    trace: &Trace,
    labels: &[Option<u64>],
    earlier: u64,
    thread: u8,
    op: Op,
    number: u64,
) -> bool
    ensures value { result ≡ split_so trace.now labels.now earlier thread op number }
    ensures small { thread < 256 }
{
    let Some(second) = part_of(op) else {
        return false;
    };
    if !may_join(trace.format(), &second) {
        return false;
    }
    let Some(first) = part_at(trace, earlier) else {
        return false;
    };
    is_joined(trace.format(), &first, &second) && is_one_place(labels, earlier, number, thread)
}

// Whether it has less than 8 bytes, and begins or ends a line: no other one joins a store.
#[inline(always)]
fn may_join(format: Format, part: &Part) -> bool
    ensures { result ≡ may_join_in format part.now }
{
    part.len < 8 && is_at_end(format, part)
}

// Whether it begins or ends a line.
#[inline(always)]
fn is_at_end(format: Format, part: &Part) -> bool
    ensures { result ≡ begins_or_ends format part.now }
{
    part.addr % format.line_size() == 0
        || part.addr.wrapping_add(part.len) % format.line_size() == 0
}

// The bytes of the event with this number, if it is a store.
pub(crate) fn part_at(trace: &Trace, number: u64) -> Option<Part>
    ensures { result ≡ event_part (event trace.now number) }
{
    let Some(event) = trace.get(number) else {
        return None;
    };
    part_of(event.op)
}

// The bytes of the op, if it is a store.
pub(crate) fn part_of(op: Op) -> Option<Part>
    ensures { result ≡ op_part op }
{
    match op {
        Op::Store(store) => Some(Part {
            addr: store.addr().get(),
            len: store.bytes().len() as u64,
        }),
        Op::Clwb(_)
        | Op::ClflushOpt(_)
        | Op::Clflush(_)
        | Op::Sfence
        | Op::Mfence
        | Op::IsPersist(_)
        | Op::IsOrderedBefore(_, _) => None,
    }
}

// Whether the two events of the thread come from one place.
pub(crate) fn is_one_place(labels: &[Option<u64>], earlier: u64, number: u64, thread: u8) -> bool
    ensures { result ≡ is_same_place labels.now earlier number thread }
{
    origin_of(labels, earlier, thread) == origin_of(labels, number, thread)
}

// Whether one of the two parts joins the other one.
fn is_joined(format: Format, first: &Part, second: &Part) -> bool
    ensures { result ≡ (joins_in format first.now second.now || joins_in format second.now first.now) }
{
    is_word(first, second) && (meets(format, first, second) || meets(format, second, first))
}

// Whether they have at most 8 bytes together.
fn is_word(first: &Part, second: &Part) -> bool
    ensures { result ≡ nat_le (first.now.len + second.now.len) 8 }
{
    first.len <= 8 && second.len <= 8 - first.len
}

// Whether the upper bytes follow the lower ones and begin a line.
fn meets(format: Format, lower: &Part, upper: &Part) -> bool
    ensures { result ≡ (lower.now.addr + lower.now.len == upper.now.addr && upper.now.addr % format.line_size == 0) }
{
    lower.len <= upper.addr
        && upper.addr - lower.len == lower.addr
        && upper.addr % format.line_size() == 0
}

// The number of the event becomes that of its thread, if it is a store.
fn note_store(stores: &mut PerThread, thread: u8, op: Op, number: u64)
    ensures { (t : ℕ) → t < 256 → of_thread stores.new t ≡ store_of_thread op thread number t (of_thread stores.old t) }
{
    match op {
        Op::Store(_) => stores.set(thread, number),
        Op::Clwb(_)
        | Op::ClflushOpt(_)
        | Op::Clflush(_)
        | Op::Sfence
        | Op::Mfence
        | Op::IsPersist(_)
        | Op::IsOrderedBefore(_, _) => {}
    }
}
