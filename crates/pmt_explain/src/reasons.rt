//! Why one event is dropped.

ghost use Rattle.std.specs.Prelude.{◌≡◌, ◌≤◌, ℕ};
ghost use Rattle.pmt_laws.specs.Prelude.{IsKept, Flushes, IsAct, act_of, count_at};
ghost use Rattle.pmt_reasons.specs.Reasons.{IsReason};
ghost use Rattle.pmt_explain.specs.Following.{IsFenceAfter, IsFirst, past_of, AreNextFlushes};
ghost use Rattle.pmt_explain.specs.Dropping.{AreSafeFrom, IsFlushAfter, fence_reason, flushes_by, marking_reason};

use crate::upcoming::number_of;
use pmt_model::{Format, Op, Trace};
use pmt_reasons::Reason;

// Why the flush of the line by the thread is dropped, where the stores before it are safe from the place on, and this is the next fence
// of the thread.
pub(crate) fn reason_of_flush(
    trace: &Trace,
    flushes: &[u64],
    thread: u8,
    line: u64,
    number: u64,
    place: u64,
    fence: u64,
) -> Reason
    requires is { IsAct trace.now number (Flushes thread line) }
    requires dropped { ¬ IsKept trace.now number }
    requires flushes { AreNextFlushes trace.now flushes.now }
    requires place { AreSafeFrom trace.now line (count_at trace.now line number) place }
    requires fence { IsFirst (IsFenceAfter trace.now thread number) (past_of trace.now) fence }
    ensures { IsReason trace.now number result }
{
    if place < number {
        return Reason::Safe;
    }
    let past = trace.len() as u64 + 1;
    let again = flushed_again(trace, flushes, thread, line, number, fence);
    reason_of_marking(place, fence, again, past)
}

// Why a flush of stores that are safe only from a later place on is dropped.
fn reason_of_marking(place: u64, fence: u64, again: u64, past: u64) -> Reason
    ensures { result ≡ marking_reason place fence again past }
{
    if fence == past {
        return Reason::Unfenced;
    }
    if again < fence {
        return Reason::Repeated { by: again };
    }
    Reason::Overtaken { by: place }
}

// Why a fence is dropped, where this says whether its thread has flushed since the fence before it.
pub(crate) fn reason_of_fence(has_flushed: bool) -> Reason
    ensures { result ≡ fence_reason has_flushed }
{
    if has_flushed {
        Reason::Useless
    } else {
        Reason::Empty
    }
}

// The thread's next flush of the line after its flush with this number, if it comes before the fence; else the fence. It takes a look at
// each flush of the line between.
fn flushed_again(
    trace: &Trace,
    flushes: &[u64],
    thread: u8,
    line: u64,
    number: u64,
    fence: u64,
) -> u64
    requires is { IsAct trace.now number (Flushes thread line) }
    requires flushes { AreNextFlushes trace.now flushes.now }
    requires within { fence ≤ past_of trace.now }
    ensures { IsFirst (IsFlushAfter trace.now thread line number) fence result }
{
    let format = trace.format();
    let events = trace.events();
    let mut flush = number_of(flushes, number);
    while flush < fence {
        let index = flush as usize - 1;
        let event = events[index];
        if is_flush_by(format, event.thread, event.op, thread) {
            return flush;
        }
        flush = number_of(flushes, flush);
    }
    fence
}

// Whether the op by this thread is a flush by the other that a fence completes.
fn is_flush_by(format: Format, thread: u8, op: Op, by: u8) -> bool
    ensures { result ≡ flushes_by by (act_of format thread op) }
{
    match op {
        Op::Clwb(_) | Op::ClflushOpt(_) => thread == by,
        Op::Store(_)
        | Op::Clflush(_)
        | Op::Sfence
        | Op::Mfence
        | Op::IsPersist(_)
        | Op::IsOrderedBefore(_, _) => false,
    }
}
