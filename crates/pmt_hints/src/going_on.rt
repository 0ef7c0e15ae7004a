//! Stores that go on from one line to the next.

ghost use Rattle.std.specs.Prelude.{◌≡◌, ◌==◌, ◌<◌, ℕ, suc, Some, length, slice_index_or, OnOk};
ghost use Rattle.pmt_model.specs.Traces.{act_of, event};
ghost use Rattle.pmt_hints.specs.GoingOn.{event_line, is_behind as behind, is_joined as joined, is_lost_or_late as lost_or_late, last_by, line_before as before, line_by, line_if as if_so, line_left as left};
ghost use Rattle.pmt_hints.specs.Claiming.{store_line};
ghost use Rattle.pmt_hints.specs.Numbers.{flush_at, of_thread};

use crate::flushers::{Flusher, LastFlushes};
use crate::per_thread::PerThread;
use crate::split_word::{Part, is_one_place, part_at, part_of};
use pmt_model::{Format, Op, OutOfMemory, Trace, line_of};

// The line from which the op with this number by the thread goes on, if its store before it is the event `earlier`.
#[inline(always)]
pub(crate) fn line_left(
    trace: &Trace,
    labels: &[Option<u64>],
    earlier: u64,
    thread: u8,
    op: &Op,
    number: u64,
) -> Option<u64>
    ensures value { result ≡ left trace.now labels.now earlier thread op.now number }
    ensures small { thread < 256 }
{
    let Some(line) = stored_line(trace.format(), thread, *op) else {
        return None;
    };
    let Some(from) = line_at(trace, earlier) else {
        return None;
    };
    if is_next(from, line) && is_joined(trace, labels, earlier, thread, *op, number) {
        Some(from)
    } else {
        None
    }
}

// Whether the op with this number by the thread comes from the place of its event `earlier`, or its bytes follow those of that one.
#[inline(never)]
fn is_joined(
    trace: &Trace,
    labels: &[Option<u64>],
    earlier: u64,
    thread: u8,
    op: Op,
    number: u64,
) -> bool
    ensures { result ≡ joined trace.now labels.now earlier thread op number }
{
    is_one_place(labels, earlier, number, thread) || is_behind(part_at(trace, earlier), part_of(op))
}

// Whether there are two parts, and the bytes of the second one follow those of the first.
fn is_behind(first: Option<Part>, second: Option<Part>) -> bool
    ensures { result ≡ behind first second }
{
    let Some(first) = first else {
        return false;
    };
    let Some(second) = second else {
        return false;
    };
    first.len <= second.addr && second.addr - first.len == first.addr
}

// The same, if the store is lost or late.
#[inline(always)]
pub(crate) fn rest_left(
    trace: &Trace,
    labels: &[Option<u64>],
    earlier: u64,
    is_missed: bool,
    thread: u8,
    op: &Op,
    number: u64,
) -> Option<u64>
    ensures value { result ≡ if_so is_missed (left trace.now labels.now earlier thread op.now number) }
    ensures small { thread < 256 }
{
    if !is_missed {
        return None;
    }
    line_left(trace, labels, earlier, thread, op, number)
}

// The line of the event with this number, if it is a store.
#[inline(always)]
fn line_at(trace: &Trace, number: u64) -> Option<u64>
    ensures { result ≡ event_line trace.now.format (event trace.now number) }
{
    let Some(event) = trace.get(number) else {
        return None;
    };
    stored_line(trace.format(), event.thread, event.op)
}

// The line of the op, if it is a store.
#[inline(always)]
fn stored_line(format: Format, thread: u8, op: Op) -> Option<u64>
    ensures { result ≡ store_line (act_of format thread op) }
{
    match op {
        Op::Store(store) => Some(line_of(format, store.addr())),
        Op::Clwb(_)
        | Op::ClflushOpt(_)
        | Op::Clflush(_)
        | Op::Sfence
        | Op::Mfence
        | Op::IsPersist(_)
        | Op::IsOrderedBefore(_, _) => None,
    }
}

// Whether the second line comes right after the first one.
#[inline(always)]
fn is_next(first: u64, second: u64) -> bool
    ensures { result ≡ (suc first == second) }
{
    first < second && second - first == 1
}

// The line before.
#[inline(always)]
pub(crate) fn line_before(line: Option<u64>) -> Option<u64>
    ensures { result ≡ before line }
{
    match line {
        None => None,
        Some(line) => { if line == 0 { None } else { Some(line - 1) } }
    }
}

// The line, if it is so.
#[inline(always)]
pub(crate) fn line_if(is_so: bool, line: Option<u64>) -> Option<u64>
    ensures { result ≡ if_so is_so line }
{
    if is_so { line } else { None }
}

// Whether a store of a trace with so many events is lost or late, if it waits for so many fences and this is its safe place.
#[inline(always)]
fn is_lost_or_late(waited: u64, safe: u64, events: u64) -> bool
    ensures { result ≡ lost_or_late waited safe events }
{
    2 <= waited || (1 <= waited && events < safe)
}

// The same of the store at this index, by what each event waits for and the safe places.
#[inline(always)]
pub(crate) fn is_missed(waited: &[u64], places: &[u64], index: usize) -> bool
    requires waited { index < length waited.now }
    requires places { index < length places.now }
    ensures { result ≡ lost_or_late (slice_index_or waited.now index 0) (slice_index_or places.now index 0) (length places.now) }
{
    if waited[index] == 0 {
        return false;
    }
    is_lost_or_late(waited[index], places[index], places.len() as u64)
}

// Notes that the thread's event with this number tells of the line, if there is one.
#[inline(always)]
pub(crate) fn note_line(
    lines: &mut LastFlushes,
    thread: u8,
    line: Option<u64>,
    number: u64,
) -> Result<(), OutOfMemory>
    ensures { OnOk result ((t l : ℕ) → flush_at lines.new t l ≡ line_by line thread number t l (flush_at lines.old t l)) }
{
    match line {
        None => Ok(()),
        Some(line) => set_line(lines, thread, line, number),
    }
}

// The same of a line.
#[inline(never)]
fn set_line(lines: &mut LastFlushes, thread: u8, line: u64, number: u64) -> Result<(), OutOfMemory>
    ensures { OnOk result ((t l : ℕ) → flush_at lines.new t l ≡ line_by (Some line) thread number t l (flush_at lines.old t l)) }
{
    lines.insert(Flusher { thread, line }, number)?;
    Ok(())
}

// The number becomes that of the thread, if there is a line.
#[inline(always)]
pub(crate) fn note_last(lasts: &mut PerThread, thread: u8, line: Option<u64>, number: u64)
    ensures { (t : ℕ) → t < 256 → of_thread lasts.new t ≡ last_by line thread number t (of_thread lasts.old t) }
{
    match line {
        None => {}
        Some(_) => lasts.set(thread, number),
    }
}
