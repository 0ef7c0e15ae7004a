//! Stores that are saved late.

ghost use Rattle.std.specs.Prelude.{◌≡◌, ◌+◌, ◌<◌, if◌then◌else◌, ◌∷◌, [], ◌++◌, length, map, replicate, nat_le, IfOk, IsTrue, OnOk};
ghost use Rattle.pmt_laws.specs.Prelude.{count_by, IsNonDecreasingBy};
ghost use Rattle.pmt_explain.specs.Following.{AreSafePlaces};
ghost use Rattle.pmt_causes.specs.Late.{AreFences, list_by, wait_of, with_fence, AreLateItems, AreWaited, is_fence, late_spot as late_spot_in, spot_of_op as spot_of_op_in, with_spot};
ghost use Rattle.pmt_causes.specs.Groups.{label_of as label_in};

use crate::grouping::Keyed;
use crate::labels::label_of;
use pmt_explain::SafePlaces;
use pmt_model::{Format, Op, OutOfMemory, Trace, line_of};
use std::alloc::Global;

// How many fences are looked at before all of them are searched.
const NEAR: usize = 4;

/// Where late stores stand.
#[derive(Clone, Copy, PartialEq, Eq, Hash)]
pub enum LateSpot {
    /// At the place in the program with this label, by its number.
    Label(u64),
    /// Stores without label: their line.
    Line(u64),
}

/// Stores that are saved late: their own thread made two fences or more before they were safe.
#[derive(Drop)]
pub struct LateStores {
    /// Of each event that is a store, in order, how many fences of its own thread stand after it and before the first place from
    /// which on every run has it persisted; before the end where there is none. A fence by which it is persisted does not count, so
    /// a store that is flushed and fenced next has 0. Of another event 0.
    pub waited: Vec<u64>,
    /// The late stores, by rising event number, each with its spot.
    pub items: Vec<Keyed<LateSpot>>,
}

/// The late stores of the trace of these places, and for how many fences each of its stores waits.
///
/// It takes two looks at each event, and at each store a few looks at the fences of its thread, or a search in them.
///
/// # Errors
/// Where memory was refused.
pub fn late_stores(
    alloc: Global,
    safe: &SafePlaces<'_>,
    labels: &[Option<u64>],
) -> Result<LateStores, OutOfMemory>
    ensures waited { IfOk result (λ late. AreWaited safe.now.trace.now late.waited.items) }
    ensures items { IfOk result (λ late. AreLateItems safe.now.trace.now labels.now late.items.items) }
{
    let trace = safe.trace();
    let fences = all_fences(alloc, trace)?;
    late_by(alloc, trace, labels, &fences, safe.places())
}

// The late stores, and for how many fences each event waits, where these are the fences of all threads and the safe places.
fn late_by(
    alloc: Global,
    trace: &Trace,
    labels: &[Option<u64>],
    fences: &Vec<Vec<u64>>,
    safe: &[u64],
) -> Result<LateStores, OutOfMemory>
    requires fences { AreFences trace.now (length trace.now.events) (map (λ list. list.items) fences.now.items) }
    requires safe { AreSafePlaces trace.now safe.now }
    ensures waited { IfOk result (λ late. AreWaited trace.now late.waited.items) }
    ensures items { IfOk result (λ late. AreLateItems trace.now labels.now late.items.items) }
{
    let format = trace.format();
    let events = trace.events();
    let mut waited = vec![in alloc; 0; events.len()]?;
    let mut items = Vec::new(alloc);
    // of each thread how many of its fences came so far
    let mut passed = [0; 256];
    for index in 0..events.len() {
        let event = events[index];
        let number = index as u64 + 1;
        let list = list_of(fences, event.thread);
        let from = &mut passed[event.thread as usize];
        let count = fences_of(list, from, event.op, number, safe[index]);
        waited[index] = count;
        let spot = spot_of(format, labels, number, count, event.op);
        push_spot(&mut items, number, spot)?;
    }
    Ok(LateStores { waited, items })
}

// Of each thread, by its number, the numbers of its fences.
fn all_fences(alloc: Global, trace: &Trace) -> Result<Vec<Vec<u64>>, OutOfMemory>
    ensures { IfOk result (λ fences. AreFences trace.now (length trace.now.events) (map (λ list. list.items) fences.items)) }
{
    let mut fences = no_fences(alloc)?;
    let events = trace.events();
    for index in 0..events.len() {
        let event = events[index];
        note_fence(&mut fences, event.thread, event.op, index as u64 + 1)?;
    }
    Ok(fences)
}

// No fence of any of the 256 threads.
fn no_fences(alloc: Global) -> Result<Vec<Vec<u64>>, OutOfMemory>
    ensures { IfOk result (λ fences. map (λ list. list.items) fences.items ≡ replicate 256 []) }
{
    let mut fences = Vec::new(alloc);
    while fences.len() < 256 {
        fences.push(Vec::new(alloc))?;
    }
    Ok(fences)
}

// Notes the event with this number, if it is a fence.
fn note_fence(
    fences: &mut Vec<Vec<u64>>,
    thread: u8,
    op: Op,
    number: u64,
) -> Result<(), OutOfMemory>
    requires { length fences.old.items ≡ 256 }
    ensures { OnOk result (map (λ list. list.items) fences.new.items ≡ with_fence thread op number (map (λ list. list.items) fences.old.items)) }
{
    match op {
        Op::Sfence | Op::Mfence => push_fence(&mut fences[thread as usize], number),
        Op::Store(_)
        | Op::Clwb(_)
        | Op::ClflushOpt(_)
        | Op::Clflush(_)
        | Op::IsPersist(_)
        | Op::IsOrderedBefore(_, _) => Ok(()),
    }
}

// One more fence.
fn push_fence(fences: &mut Vec<u64>, number: u64) -> Result<(), OutOfMemory>
    ensures { OnOk result (fences.new.items ≡ fences.old.items ++ number ∷ []) }
{
    fences.push(number)?;
    Ok(())
}

// The fences of the thread.
fn list_of(fences: &Vec<Vec<u64>>, thread: u8) -> &[u64]
    requires { length fences.now.items ≡ 256 }
    ensures small { thread < 256 }
    ensures list { result.now ≡ list_by (map (λ list. list.items) fences.now.items) thread }
{
    fences[thread as usize].as_slice()
}

// How many of these fences of its thread come after the op with this number and before its safe place, if it is a store. `passed` of them
// come before it, and after the call by it.
fn fences_of(fences: &[u64], passed: &mut usize, op: Op, number: u64, safe: u64) -> u64
    requires order { IsNonDecreasingBy (λ k. k) fences.now }
    requires passed { count_by (λ k. nat_le k number) fences.now ≡ passed.old + (if is_fence op then 1 else 0) }
    ensures wait { result ≡ wait_of fences.now op number safe }
    ensures passed { passed.new ≡ count_by (λ k. nat_le k number) fences.now }
{
    match op {
        Op::Store(_) => {
            let last = safe.saturating_sub(1);
            fences_by(fences, *passed, last).saturating_sub(*passed) as u64
        }
        Op::Sfence | Op::Mfence => {
            *passed = one_more(*passed, fences.len());
            0
        }
        Op::Clwb(_)
        | Op::ClflushOpt(_)
        | Op::Clflush(_)
        | Op::IsPersist(_)
        | Op::IsOrderedBefore(_, _) => 0,
    }
}

// One more, if there are more.
fn one_more(passed: usize, all: usize) -> usize
    ensures { passed < all → result ≡ passed + 1 }
{
    if passed < all { passed + 1 } else { passed }
}

// How many of these fences, whose numbers rise, come by the place. It looks for the last of them at `from`, at the end, and then from
// `from` on.
fn fences_by(fences: &[u64], from: usize, place: u64) -> usize
    requires { IsNonDecreasingBy (λ k. k) fences.now }
    ensures { result ≡ count_by (λ k. nat_le k place) fences.now }
{
    if are_by(fences, from, place) {
        return from;
    }
    if are_by(fences, fences.len(), place) {
        return fences.len();
    }
    for count in from..from.saturating_add(NEAR) {
        if are_by(fences, count, place) {
            return count;
        }
    }
    fences.partition_point(|fence| *fence <= place)
}

// Whether so many of these fences come by the place, and no more.
fn are_by(fences: &[u64], count: usize, place: u64) -> bool
    requires { IsNonDecreasingBy (λ k. k) fences.now }
    ensures { IsTrue result → count ≡ count_by (λ k. nat_le k place) fences.now }
{
    if fences.len() < count {
        return false;
    }
    if count < fences.len() && fences[count] <= place {
        return false;
    }
    if 0 < count && place < fences[count - 1] {
        return false;
    }
    true
}

// The spot of the op with this number, which waited for so many fences, if it is a late store.
fn spot_of(
    format: Format,
    labels: &[Option<u64>],
    number: u64,
    waited: u64,
    op: Op,
) -> Option<LateSpot>
    ensures { result ≡ spot_of_op_in format (label_in labels.now number) waited op }
{
    if waited < 2 {
        return None;
    }
    match op {
        Op::Store(store) => {
            let label = label_of(labels, number);
            Some(late_spot(label, line_of(format, store.addr())))
        }
        Op::Clwb(_)
        | Op::ClflushOpt(_)
        | Op::Clflush(_)
        | Op::Sfence
        | Op::Mfence
        | Op::IsPersist(_)
        | Op::IsOrderedBefore(_, _) => None,
    }
}

// Where a store to the line stands.
fn late_spot(label: Option<u64>, line: u64) -> LateSpot
    ensures { result ≡ late_spot_in label line }
{
    match label {
        Some(label) => LateSpot::Label(label),
        None => LateSpot::Line(line),
    }
}

// Adds the event, if it has a spot.
fn push_spot(
    items: &mut Vec<Keyed<LateSpot>>,
    number: u64,
    spot: Option<LateSpot>,
) -> Result<(), OutOfMemory>
    ensures { OnOk result (items.new.items ≡ with_spot number spot items.old.items) }
{
    match spot {
        None => Ok(()),
        Some(key) => {
            items.push(Keyed { key, number })?;
            Ok(())
        }
    }
}
