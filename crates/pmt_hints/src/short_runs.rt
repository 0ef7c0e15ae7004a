//! Flushes that end one line before what was stored does.

ghost use Rattle.std.specs.Prelude.{◌≡◌, ◌<◌, ◌≤◌, ℕ, Some, false, length, slice_get, IfOk};
ghost use Rattle.pmt_model.specs.Traces.{act_of};
ghost use Rattle.pmt_explain.specs.Following.{AreSafePlaces};
ghost use Rattle.pmt_causes.specs.Late.{AreWaited};
ghost use Rattle.pmt_hints.specs.GoingOn.{IsRest, is_line_short as is_line_short_in, is_lost_or_late as lost_or_late, short_so};
ghost use Rattle.pmt_hints.specs.Hints.{AreThose, IsOneLineShort};
ghost use Rattle.pmt_hints.specs.Numbers.{flush_at, of_thread};

use crate::flushers::{LastFlushes, last_flush};
use crate::going_on::{
    is_missed, line_before, line_if, line_left, note_last, note_line, rest_left,
};
use crate::numbers::{push_if, selection_of};
use crate::per_thread::PerThread;
use pmt_explain::SafePlaces;
use pmt_model::{Format, Op, OutOfMemory, Selection, Trace, line_of};
use std::alloc::Global;
use std::collections::HashMap;

/// The flushes of a line from which a store of their thread before them, from one place with the one before or right behind its bytes,
/// goes on to the next line, and that store is lost or late, and nothing goes on from there: the flushes end one line before what was
/// stored does. `waited` is for how many fences each event of the trace of these places waits, and `labels` are the numbers of the labels of the events, in order;
/// an event past their end has none. A place is a label, or without one a thread.
///
/// It takes one look at each event, and one more if a store is lost or late. If such a store goes on from a line it takes another one, with
/// two look-ups at a store that goes on, and at a flush if such a store of its thread comes after that thread's last fence.
///
/// # Errors
/// Where memory was refused.
pub fn one_line_short(
    alloc: Global,
    safe: &SafePlaces<'_>,
    waited: &[u64],
    labels: &[Option<u64>],
) -> Result<Selection, OutOfMemory>
    requires { AreWaited safe.now.trace.now waited.now }
    ensures { IfOk result (AreThose (IsOneLineShort safe.now.trace.now labels.now)) }
{
    let trace = safe.trace();
    let places = safe.places();
    if !is_any_missed(waited, places) || !has_rest(trace, places, waited, labels) {
        return Ok(selection_of(Vec::new(alloc)));
    }
    let numbers = short_numbers(alloc, trace, places, waited, labels)?;
    Ok(selection_of(numbers))
}

// Whether a store is lost or late.
fn is_any_missed(waited: &[u64], places: &[u64]) -> bool
    requires { length waited.now ≡ length places.now }
    ensures { result ≡ false → (k w s : ℕ) → slice_get waited.now k ≡ Some w → slice_get places.now k ≡ Some s → lost_or_late w s (length places.now) ≡ false }
{
    for index in 0..waited.len() {
        if is_missed(waited, places, index) {
            return true;
        }
    }
    false
}

// Whether a store that is lost or late goes on from a line.
fn has_rest(trace: &Trace, places: &[u64], waited: &[u64], labels: &[Option<u64>]) -> bool
    requires places { AreSafePlaces trace.now places.now }
    requires waited { AreWaited trace.now waited.now }
    ensures { result ≡ false → (t l i : ℕ) → ¬ IsRest trace.now labels.now t l i }
{
    let format = trace.format();
    let events = trace.events();
    let mut stores = PerThread::new(0);
    for index in 0..events.len() {
        let event = events[index];
        let number = index as u64 + 1;
        let earlier = stores.get(event.thread);
        let missed = is_missed(waited, places, index);
        let line = rest_left(
            trace,
            labels,
            earlier,
            missed,
            event.thread,
            &event.op,
            number,
        );
        if line.is_some() {
            return true;
        }
        stores.note_store(format, event.thread, event.op, number);
    }
    false
}

// The numbers of such flushes.
fn short_numbers(
    alloc: Global,
    trace: &Trace,
    places: &[u64],
    waited: &[u64],
    labels: &[Option<u64>],
) -> Result<Vec<u64>, OutOfMemory>
    requires places { AreSafePlaces trace.now places.now }
    requires waited { AreWaited trace.now waited.now }
    ensures { IfOk result (λ numbers. AreThose (IsOneLineShort trace.now labels.now) numbers.items) }
{
    let format = trace.format();
    let events = trace.events();
    let mut fences = PerThread::new(0);
    let mut stores = PerThread::new(0);
    let mut lasts = PerThread::new(0);
    let mut rests = HashMap::new(alloc);
    let mut further = HashMap::new(alloc);
    let mut numbers = Vec::new(alloc);
    for index in 0..events.len() {
        let event = events[index];
        let number = index as u64 + 1;
        let is_told = is_short(
            &fences,
            &lasts,
            &rests,
            &further,
            format,
            event.thread,
            event.op,
        );
        push_if(&mut numbers, is_told, number)?;
        let earlier = stores.get(event.thread);
        let line = line_left(trace, labels, earlier, event.thread, &event.op, number);
        let missed = is_missed(waited, places, index);
        note_line(&mut rests, event.thread, line_if(missed, line), number)?;
        note_line(&mut further, event.thread, line_before(line), number)?;
        note_last(&mut lasts, event.thread, line, number);
        fences.note_fence(format, event.thread, event.op, number);
        stores.note_store(format, event.thread, event.op, number);
    }
    Ok(numbers)
}

// Whether the op is a flush of a line from which, since the last fence of its thread, a store that is lost or late goes on, and none goes
// on from the next line.
#[inline(always)]
fn is_short(
    fences: &PerThread,
    lasts: &PerThread,
    rests: &LastFlushes,
    further: &LastFlushes,
    format: Format,
    thread: u8,
    op: Op,
) -> bool
    requires { (t l : ℕ) → t < 256 → flush_at rests.now t l ≤ of_thread lasts.now t }
    ensures value { result ≡ short_so fences.now rests.now further.now (act_of format thread op) }
    ensures small { thread < 256 }
{
    match op {
        Op::Clwb(addr) | Op::ClflushOpt(addr) => {
            let line = line_of(format, addr);
            fences.get(thread) < lasts.get(thread)
                && is_line_short(fences, rests, further, thread, line)
        }
        Op::Store(_)
        | Op::Clflush(_)
        | Op::Sfence
        | Op::Mfence
        | Op::IsPersist(_)
        | Op::IsOrderedBefore(_, _) => false,
    }
}

// Whether, since the last fence of the thread, a store of it that is lost or late goes on from the line, and none goes on from the next
// line.
#[inline(never)]
fn is_line_short(
    fences: &PerThread,
    rests: &LastFlushes,
    further: &LastFlushes,
    thread: u8,
    line: u64,
) -> bool
    ensures { result ≡ is_line_short_in fences.now rests.now further.now thread line }
{
    let fence = fences.get(thread);
    fence < last_flush(rests, thread, line) && last_flush(further, thread, line) <= fence
}
