//! Why a store is not safe at a place.

ghost use Rattle.std.specs.Prelude.{◌≡◌, ◌<◌, ◌≤◌, length, MatchOption};
ghost use Rattle.pmt_laws.specs.Prelude.{act_of, count_at, front_at};
ghost use Rattle.pmt_reasons.specs.Causes.{IsCause, with_flush as flush_cause, with_fence as fence_cause, cause_after, flushed_after};
ghost use Rattle.pmt_explain.specs.CauseOf.{IsCauseOf};

use pmt_model::{Format, Op, Trace, line_of};
use pmt_reasons::Cause;

/// Why the store with this number is not safe at the place, the moment after so many events: some run to that place ends without
/// it. None where every run ends with it persisted, and where the event is no store or there is none.
///
/// It takes the time of one look at each event between the store and the place.
pub fn cause(trace: &Trace, store: u64, place: u64) -> Option<Cause>
    ensures { IsCauseOf trace.now place store result }
{
    let op = trace.get(store)?.op;
    let Op::Store(written) = op else {
        return None;
    };
    if place < store {
        return Some(Cause::Later);
    }
    cause_since(trace, line_of(trace.format(), written.addr()), store, place)
}

// Why the store to the line is not safe at the place, which it does not come after.
fn cause_since(trace: &Trace, line: u64, store: u64, place: u64) -> Option<Cause>
    requires place { store ≤ place }
    requires within { store ≤ length trace.now.events }
    ensures { MatchOption result (count_at trace.now line store ≤ front_at trace.now line place) (IsCause trace.now line place store) }
{
    let format = trace.format();
    let events = trace.events();
    let end = events.len().min(place as usize);
    let mut flushed = [false; 256];
    let mut cause = Cause::Unflushed;
    for index in store as usize..end {
        let event = events[index];
        let number = index as u64 + 1;
        match next_cause(
            format,
            line,
            event.thread,
            event.op,
            number,
            &mut flushed,
            cause,
        ) {
            Some(next) => cause = next,
            None => return None,
        }
    }
    Some(cause)
}

// The cause after one more event, which has this number, where `flushed` marks the threads that have flushed the line.
fn next_cause(
    format: Format,
    line: u64,
    thread: u8,
    op: Op,
    number: u64,
    flushed: &mut [bool; 256],
    cause: Cause,
) -> Option<Cause>
    ensures cause { result ≡ cause_after line number (act_of format thread op) flushed.old cause }
    ensures flushed { flushed.new ≡ flushed_after line (act_of format thread op) flushed.old }
{
    match op {
        Op::Store(_) | Op::IsPersist(_) | Op::IsOrderedBefore(_, _) => Some(cause),
        Op::Clwb(addr) | Op::ClflushOpt(addr) => {
            if line_of(format, addr) != line {
                return Some(cause);
            }
            flushed[thread as usize] = true;
            Some(with_flush(cause, number, thread))
        }
        Op::Clflush(addr) => {
            if line_of(format, addr) == line {
                None
            } else {
                Some(cause)
            }
        }
        Op::Sfence | Op::Mfence => {
            if flushed[thread as usize] {
                None
            } else {
                Some(with_fence(cause, number))
            }
        }
    }
}

// The cause after one more flush of the line.
fn with_flush(cause: Cause, number: u64, thread: u8) -> Cause
    ensures { result ≡ flush_cause number thread cause }
{
    match cause {
        Cause::Unflushed => Cause::Unfenced {
            flush: number,
            thread,
            other: None,
        },
        Cause::Later => Cause::Later,
        Cause::Unfenced {
            flush,
            thread,
            other,
        } => Cause::Unfenced {
            flush,
            thread,
            other,
        },
    }
}

// The cause after one more fence.
fn with_fence(cause: Cause, number: u64) -> Cause
    ensures { result ≡ fence_cause number cause }
{
    match cause {
        Cause::Unflushed => Cause::Unflushed,
        Cause::Later => Cause::Later,
        Cause::Unfenced {
            flush,
            thread,
            other,
        } => Cause::Unfenced {
            flush,
            thread,
            other: Some(other.unwrap_or(number)),
        },
    }
}
