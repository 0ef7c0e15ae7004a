//! Stores to a line that their thread has flushed before and not fenced since.

ghost use Rattle.std.specs.Prelude.{◌≡◌, ◌==◌, ◌<◌, ◌&&◌, ◌||◌, ℕ, suc, if◌then◌else◌, Some, true, false, length, slice_get, slice_index_or, IfOk, IfSome, OnOk};
ghost use Rattle.pmt_model.specs.Traces.{act_of};
ghost use Rattle.pmt_explain.specs.Following.{AreNextFlushes, AreOwnFences, AreSafePlaces, IsUpcoming};
ghost use Rattle.pmt_causes.specs.Late.{AreWaited};
ghost use Rattle.pmt_hints.specs.Hints.{AreThose, IsStoredAfterFlush};
ghost use Rattle.pmt_hints.specs.Leaving.{AreEnds, is_ended as is_ended_in, is_fenced_first as is_fenced_first_in, is_left_first as is_left_first_in};
ghost use Rattle.pmt_hints.specs.Claiming.{left_unsafe};
ghost use Rattle.pmt_hints.specs.Numbers.{after_open, flush_at, flush_by};

use crate::flushers::{LastFlushes, last_flush, note_flush};
use crate::numbers::{push_if, selection_of};
use crate::waiting::has_store_while_open;
use pmt_explain::{SafePlaces, Upcoming, number_of, upcoming_of};
use pmt_model::{Format, Op, OutOfMemory, Selection, Trace, line_of};
use std::alloc::Global;
use std::collections::HashMap;

/// The stores to a line that their thread has flushed before and not fenced since, and of which no flush of the line stands between the
/// store and that thread's next fence: the flush came too early for them.
///
/// `waited` is for how many fences each event of the trace of these places waits.
///
/// `upcoming` is what comes next after each event, if that is known.
///
/// It takes one look at each event, and another one if a fence of its thread leaves a store unsafe, or one is never safe. If a thread stores
/// while it has a flush open, it takes one more, and what `pmt_explain::upcoming_of` takes, if what comes next is not known. If a store's own
/// fence then comes before the next flush of its line, it takes two more, with a look-up at each such store and at each flush that waits for
/// the fence of one, and keeps a flag of each event and a number of each line of such a flush.
///
/// # Errors
/// Where memory was refused.
pub fn stored_after_flush(
    alloc: Global,
    safe: &SafePlaces<'_>,
    waited: &[u64],
    upcoming: &Option<Upcoming>,
) -> Result<Selection, OutOfMemory>
    requires waited { AreWaited safe.now.trace.now waited.now }
    requires upcoming { IfSome upcoming.now (IsUpcoming safe.now.trace.now) }
    ensures { IfOk result (AreThose (IsStoredAfterFlush safe.now.trace.now)) }
{
    let trace = safe.trace();
    if !is_any_left(waited, safe.places()) {
        return Ok(selection_of(Vec::new(alloc)));
    }
    if !has_store_while_open(trace) {
        return Ok(selection_of(Vec::new(alloc)));
    }
    let numbers = stores_left(alloc, trace, safe.places(), waited, upcoming)?;
    Ok(selection_of(numbers))
}

// Whether a fence of its thread leaves a store unsafe, or one is never safe.
fn is_any_left(waited: &[u64], places: &[u64]) -> bool
    requires { length waited.now ≡ length places.now }
    ensures { result ≡ false → (k w s : ℕ) → slice_get waited.now k ≡ Some w → slice_get places.now k ≡ Some s → left_unsafe w s (length places.now) ≡ false }
{
    let events = places.len() as u64;
    for index in 0..waited.len() {
        if is_left_unsafe(waited[index], places[index], events) {
            return true;
        }
    }
    false
}

// Whether a store of a trace with so many events waits for a fence that leaves it unsafe, or is never safe.
fn is_left_unsafe(waited: u64, safe: u64, events: u64) -> bool
    ensures { result ≡ left_unsafe waited safe events }
{
    1 <= waited || events < safe
}

// The same of the event at this index.
#[inline(always)]
fn is_left_at(waited: &[u64], places: &[u64], index: usize) -> bool
    requires waited { index < length waited.now }
    requires places { index < length places.now }
    ensures { result ≡ left_unsafe (slice_index_or waited.now index 0) (slice_index_or places.now index 0) (length places.now) }
{
    is_left_unsafe(waited[index], places[index], places.len() as u64)
}

// The numbers of such stores.
fn stores_left(
    alloc: Global,
    trace: &Trace,
    places: &[u64],
    waited: &[u64],
    upcoming: &Option<Upcoming>,
) -> Result<Vec<u64>, OutOfMemory>
    requires places { AreSafePlaces trace.now places.now }
    requires waited { AreWaited trace.now waited.now }
    requires upcoming { IfSome upcoming.now (IsUpcoming trace.now) }
    ensures { IfOk result (λ numbers. AreThose (IsStoredAfterFlush trace.now) numbers.items) }
{
    match upcoming {
        Some(upcoming) => stores_by(alloc, trace, places, waited, upcoming),
        None => {
            let upcoming = upcoming_of(alloc, trace)?;
            stores_by(alloc, trace, places, waited, &upcoming)
        }
    }
}

// The same, where this comes next after each event.
fn stores_by(
    alloc: Global,
    trace: &Trace,
    places: &[u64],
    waited: &[u64],
    upcoming: &Upcoming,
) -> Result<Vec<u64>, OutOfMemory>
    requires places { AreSafePlaces trace.now places.now }
    requires waited { AreWaited trace.now waited.now }
    requires upcoming { IsUpcoming trace.now upcoming.now }
    ensures { IfOk result (λ numbers. AreThose (IsStoredAfterFlush trace.now) numbers.items) }
{
    let fences = upcoming.fences.as_slice();
    let flushes = upcoming.flushes.as_slice();
    if !is_any_fenced_first(places, waited, fences, flushes) {
        return Ok(Vec::new(alloc));
    }
    let ends = last_fences(alloc, places, waited, fences, flushes)?;
    let ends = ends.as_slice();
    told_stores(alloc, trace, places, waited, fences, flushes, ends)
}

// Whether a store that a fence of its thread leaves unsafe, or that is never safe, has a next own fence no later than the next flush of its
// line, by these lists.
fn is_any_fenced_first(places: &[u64], waited: &[u64], fences: &[u64], flushes: &[u64]) -> bool
    requires { length waited.now ≡ length places.now }
    ensures { result ≡ false → (k : ℕ) → k < length places.now → is_left_first_in waited.now places.now fences.now flushes.now k ≡ false }
{
    for index in 0..places.len() {
        if is_left_first(places, waited, fences, flushes, index) {
            return true;
        }
    }
    false
}

// Whether the event at this index is one, if it is a store.
#[inline(always)]
fn is_left_first(
    places: &[u64],
    waited: &[u64],
    fences: &[u64],
    flushes: &[u64],
    index: usize,
) -> bool
    requires waited { index < length waited.now }
    requires places { index < length places.now }
    ensures { result ≡ is_left_first_in waited.now places.now fences.now flushes.now index }
{
    is_left_at(waited, places, index) && is_fenced_first(fences, flushes, index as u64 + 1)
}

// Whether the next own fence of a store is no later than the next flush of its line, by these lists.
fn is_fenced_first(fences: &[u64], flushes: &[u64], number: u64) -> bool
    ensures { result ≡ is_fenced_first_in fences.now flushes.now number }
{
    number_of(fences, number) <= number_of(flushes, number)
}

// Of each number whether it is that of the next own fence of such a store.
fn last_fences(
    alloc: Global,
    places: &[u64],
    waited: &[u64],
    fences: &[u64],
    flushes: &[u64],
) -> Result<Vec<bool>, OutOfMemory>
    requires { length waited.now ≡ length places.now }
    ensures { IfOk result (λ ends. AreEnds waited.now places.now fences.now flushes.now (length places.now) ends.items) }
{
    let mut ends = vec![in alloc; false; places.len().saturating_add(2)]?;
    for index in 0..places.len() {
        if is_left_first(places, waited, fences, flushes, index) {
            set_end(&mut ends, number_of(fences, index as u64 + 1));
        }
    }
    Ok(ends)
}

// The number is one.
fn set_end(ends: &mut Vec<bool>, number: u64)
    ensures { (j : ℕ) → slice_index_or ends.new.items j true ≡ (number == j || slice_index_or ends.old.items j true) }
{
    if number < ends.len() as u64 {
        ends[number as usize] = true;
    }
}

// Whether the number is one; so is each that is past the end.
fn is_end(ends: &[bool], number: u64) -> bool
    ensures { result ≡ slice_index_or ends.now number true }
{
    match ends.get(number as usize) {
        Some(end) => *end,
        None => true,
    }
}

// Such stores to a line that their thread has flushed before and not fenced since.
fn told_stores(
    alloc: Global,
    trace: &Trace,
    places: &[u64],
    waited: &[u64],
    fences: &[u64],
    flushes: &[u64],
    ends: &[bool],
) -> Result<Vec<u64>, OutOfMemory>
    requires places { AreSafePlaces trace.now places.now }
    requires waited { AreWaited trace.now waited.now }
    requires fences { AreOwnFences trace.now fences.now }
    requires flushes { AreNextFlushes trace.now flushes.now }
    requires ends { AreEnds waited.now places.now fences.now flushes.now (length places.now) ends.now }
    ensures { IfOk result (λ numbers. AreThose (IsStoredAfterFlush trace.now) numbers.items) }
{
    let format = trace.format();
    let events = trace.events();
    let mut last = HashMap::new(alloc);
    let mut numbers = Vec::new(alloc);
    for index in 0..events.len() {
        let event = events[index];
        let number = index as u64 + 1;
        let is_left = is_left_first(places, waited, fences, flushes, index);
        let is_told = is_after_open(
            is_left,
            fences,
            &last,
            format,
            number,
            event.thread,
            event.op,
        );
        push_if(&mut numbers, is_told, number)?;
        let is_ended = is_ended(ends, fences, format, number, event.thread, event.op);
        note_if(&mut last, is_ended, format, event.thread, event.op, number)?;
    }
    Ok(numbers)
}

// Whether it is one of these, and the op with this number is a store to a line whose last flush by its thread has its next fence after it.
#[inline(always)]
fn is_after_open(
    is_left: bool,
    fences: &[u64],
    last: &LastFlushes,
    format: Format,
    number: u64,
    thread: u8,
    op: Op,
) -> bool
    ensures { result ≡ (is_left && after_open fences.now last.now number (act_of format thread op) thread) }
{
    if !is_left {
        return false;
    }
    match op {
        Op::Store(store) => {
            let flush = last_flush(last, thread, line_of(format, store.addr()));
            1 <= flush && number < number_of(fences, flush)
        }
        Op::Clwb(_)
        | Op::ClflushOpt(_)
        | Op::Clflush(_)
        | Op::Sfence
        | Op::Mfence
        | Op::IsPersist(_)
        | Op::IsOrderedBefore(_, _) => false,
    }
}

// Whether the op with this number is a flush that waits for a fence which is one of these.
#[inline(always)]
fn is_ended(ends: &[bool], fences: &[u64], format: Format, number: u64, thread: u8, op: Op) -> bool
    ensures { result ≡ is_ended_in ends.now fences.now number (act_of format thread op) }
{
    match op {
        Op::Clwb(_) | Op::ClflushOpt(_) => is_end(ends, number_of(fences, number)),
        Op::Store(_)
        | Op::Clflush(_)
        | Op::Sfence
        | Op::Mfence
        | Op::IsPersist(_)
        | Op::IsOrderedBefore(_, _) => false,
    }
}

// Notes the op, if it is one.
#[inline(always)]
fn note_if(
    last: &mut LastFlushes,
    is_ended: bool,
    format: Format,
    thread: u8,
    op: Op,
    number: u64,
) -> Result<(), OutOfMemory>
    ensures { OnOk result ((t l : ℕ) → flush_at last.new t l ≡ (if is_ended then flush_by (act_of format thread op) number t l (flush_at last.old t l) else flush_at last.old t l)) }
{
    if is_ended {
        note_flush(last, format, thread, op, number)?;
    }
    Ok(())
}
