//! What a crash keeps without a store that is saved one fence late.

ghost use Rattle.std.specs.Prelude.{◌≡◌, ◌==◌, ℕ, Some, length, true, false, if◌then◌else◌, nat_lt, slice_get, slice_set, unwrap_or, IfOk, IfSome};
ghost use Rattle.pmt_explain.specs.Following.{AreSafePlaces, IsUpcoming};
ghost use Rattle.pmt_fates.specs.declared.fate.Fate.TheVariants.{Left};
ghost use Rattle.pmt_fates.specs.Places.{fate_at, is_same};
ghost use Rattle.pmt_fates.specs.Fates.{TellsSaved, AreLast, AreSavers, saved_by, saved_if, with_saver};
ghost use Rattle.pmt_model.specs.Traces.{Recording};

use crate::fate::Fate;
use pmt_explain::{Upcoming, fences_by};
use pmt_model::{Op, OutOfMemory, Trace};
use std::alloc::Global;

/// A store that a crash keeps, though it can lose another one that was made before it was safe.
#[derive(Clone, Copy)]
pub struct SavedBefore {
    /// The crash comes after so many events.
    pub place: u64,
    /// The number of the store that it keeps.
    pub store: u64,
}

// By which it is told what a crash keeps without an event.
#[derive(Drop)]
pub(crate) struct Savings {
    // of each event the next fence of its thread
    pub(crate) fences: Vec<u64>,
    // of each place the store that is safe last by then, or 0
    pub(crate) last: Vec<u64>,
}

// Those of the trace of these safe places, where this comes next after each event, if that is known. The trace is looked at only if one of
// these fates is that of a store which a fence of its thread leaves unsafe.
pub(crate) fn savings_of(
    alloc: Global,
    trace: &Trace,
    safe: &[u64],
    fates: &[Fate],
    upcoming: &Option<Upcoming>,
) -> Result<Savings, OutOfMemory>
    requires safe { AreSafePlaces trace.now safe.now }
    requires fates { length fates.now ≡ length trace.now.events }
    requires upcoming { IfSome upcoming.now (IsUpcoming trace.now) }
    ensures { IfOk result (λ x. (i : ℕ) → is_same Left (fate_at fates.now i) ≡ true → TellsSaved trace.now i (saved_by safe.now x i)) }
{
    if !has_left(fates) {
        return Ok(Savings {
            fences: Vec::new(alloc),
            last: Vec::new(alloc),
        });
    }
    let fences = fences_by(alloc, trace, upcoming)?;
    let savers = savers_of(alloc, trace, safe)?;
    let last = last_of(alloc, savers.as_slice())?;
    Ok(Savings { fences, last })
}

// Whether one of the fates is that of a store which a fence of its thread leaves unsafe.
fn has_left(fates: &[Fate]) -> bool
    ensures { result ≡ false → (k : ℕ) (f : _) → slice_get fates.now k ≡ Some f → is_same Left f ≡ false }
{
    for index in 0..fates.len() {
        if matches!(fates[index], Fate::Left) {
            return true;
        }
    }
    false
}

// Of each place the last of the stores that are safe from it on and not before, or 0.
fn savers_of(alloc: Global, trace: &Trace, safe: &[u64]) -> Result<Vec<u64>, OutOfMemory>
    requires { AreSafePlaces trace.now safe.now }
    ensures { IfOk result (λ savers. AreSavers trace.now (length trace.now.events) savers.items) }
{
    let events = trace.events();
    let mut savers = vec![in alloc; 0; events.len() + 1]?;
    for index in 0..events.len() {
        let event = events[index];
        note_saver(&mut savers, event.op, safe[index], index as u64 + 1);
    }
    Ok(savers)
}

// Notes the op with this number at its safe place, if it is a store and safe in the end.
fn note_saver(savers: &mut Vec<u64>, op: Op, safe: u64, number: u64)
    ensures { savers.new.items ≡ with_saver op safe number savers.old.items }
{
    match op {
        Op::Store(_) => set_saver(savers, safe, number),
        Op::Clwb(_)
        | Op::ClflushOpt(_)
        | Op::Clflush(_)
        | Op::Sfence
        | Op::Mfence
        | Op::IsPersist(_)
        | Op::IsOrderedBefore(_, _) => {}
    }
}

// The saver at the place, if it is one of the trace.
fn set_saver(savers: &mut Vec<u64>, place: u64, number: u64)
    ensures { savers.new.items ≡ (if nat_lt place (length savers.old.items) then slice_set savers.old.items place number else savers.old.items) }
{
    if place < savers.len() as u64 {
        savers[place as usize] = number;
    }
}

// Of each place the store that becomes safe last by then, or 0.
fn last_of(alloc: Global, savers: &[u64]) -> Result<Vec<u64>, OutOfMemory>
    ensures { IfOk result (λ last. (T : Recording) → AreSavers T (length T.events) savers.now → AreLast T last.items) }
{
    let mut list = Vec::with_capacity(alloc, savers.len())?;
    let mut last = 0;
    for saver in savers {
        last = later(*saver, last);
        list.push(last)?;
    }
    Ok(list)
}

// The first number, or the other one if it is 0.
fn later(saver: u64, last: u64) -> u64
    ensures { result ≡ (if saver == 0 then last else saver) }
{
    if saver == 0 { last } else { saver }
}

// What a crash right after the next fence of the event's thread keeps without it, if anything becomes safe between them.
pub(crate) fn saved_before(safe: &[u64], savings: &Savings, number: u64) -> Option<SavedBefore>
    ensures { result ≡ saved_by safe.now savings.now number }
{
    let index = number.checked_sub(1)?;
    let fence = number_at(savings.fences.as_slice(), index);
    let store = number_at(savings.last.as_slice(), fence);
    saved_at(safe, number, fence, store)
}

// The same where this store is safe last by this fence.
fn saved_at(safe: &[u64], number: u64, place: u64, store: u64) -> Option<SavedBefore>
    ensures { result ≡ saved_if safe.now number place store }
{
    let index = store.checked_sub(1)?;
    if number < number_at(safe, index) {
        Some(SavedBefore { place, store })
    } else {
        None
    }
}

// The number at this index, or 0 past the end.
fn number_at(numbers: &[u64], index: u64) -> u64
    ensures { result ≡ unwrap_or (slice_get numbers.now index) 0 }
{
    match numbers.get(index as usize) {
        Some(number) => *number,
        None => 0,
    }
}
