//! The slice of a store that is never persisted, or late.

ghost use Rattle.std.specs.Prelude.{◌≡◌, ℕ, ◌≤◌, length, IfOk, MatchOption};
ghost use Rattle.pmt_laws.specs.Prelude.{Written, cut};
ghost use Rattle.pmt_explain.specs.Following.{IsFirst, IsFenceAfter, past_of};
ghost use Rattle.pmt_slices.specs.Slices.{Chooses, IsFate, IsOfFate, is_fence as is_fence_op, IsLostOrLate, IsStoreBy, IsStoreSlice};

use crate::after::coming_after;
use crate::choosing::{choose, choose_store, nothing};
use crate::coming::Coming;
use crate::cutting::Slice;
use pmt_model::{Op, OutOfMemory, Selection, Trace, WordStore};
use pmt_tables::marked_numbers;
use std::alloc::Global;

// What comes after a store, up to the end. A number is one more than that of the last event where there is no such event.
#[derive(Clone, Copy)]
pub(crate) struct Fate {
    // What comes of its line.
    pub(crate) coming: Coming,
    // The first fence of its own thread.
    pub(crate) first: u64,
    // The first one after that.
    pub(crate) second: u64,
}

/// The slice of the store with this number: what tells whether and why it is safe up to the end, and the first two fences of its own
/// thread after it, where it is not safe there. None where the event is no store, or one that is safe in the end and not late.
///
/// It takes two looks at each event after the store at most, and a flag for each event.
///
/// # Errors
/// Where memory was refused.
pub fn store_sliced(alloc: Global, trace: &Trace, number: u64) -> Result<Option<Slice>, OutOfMemory>
    ensures { IfOk result (λ o. MatchOption o (¬ IsLostOrLate trace.now number) (λ s. IsLostOrLate trace.now number × IsStoreSlice trace.now number s.numbers × (s.trace ≡ cut trace.now s.numbers))) }
{
    let Some(event) = trace.get(number) else {
        return Ok(None);
    };
    let thread = event.thread;
    let op = event.op;
    match op {
        Op::Store(store) => slice_if_lost(alloc, trace, number, thread, store),
        Op::Clwb(_)
        | Op::ClflushOpt(_)
        | Op::Clflush(_)
        | Op::Sfence
        | Op::Mfence
        | Op::IsPersist(_)
        | Op::IsOrderedBefore(_, _) => Ok(None),
    }
}

// The slice of the store by the thread, if it is never persisted, or late.
fn slice_if_lost(
    alloc: Global,
    trace: &Trace,
    number: u64,
    thread: u8,
    store: WordStore,
) -> Result<Option<Slice>, OutOfMemory>
    requires store { IsStoreBy trace.now thread store number }
    ensures { IfOk result (λ o. MatchOption o (¬ IsLostOrLate trace.now number) (λ s. IsLostOrLate trace.now number × IsStoreSlice trace.now number s.numbers × (s.trace ≡ cut trace.now s.numbers))) }
{
    let end = trace.len() as u64;
    let fate = fate_of(alloc, trace, number, thread, store)?;
    if fate.coming.safe <= end && fate.coming.safe <= fate.second {
        return Ok(None);
    }
    let numbers = store_slice(alloc, trace, number, fate)?;
    Ok(Some(cut_to(trace, number, numbers)?))
}

// What comes after the store by the thread.
pub(crate) fn fate_of(
    alloc: Global,
    trace: &Trace,
    number: u64,
    thread: u8,
    store: WordStore,
) -> Result<Fate, OutOfMemory>
    requires store { IsStoreBy trace.now thread store number }
    ensures { IfOk result (IsFate trace.now thread store number) }
{
    let end = trace.len() as u64;
    let coming = coming_after(alloc, trace, store.addr(), number, end)?;
    let first = fence_after(trace, thread, number);
    let second = fence_after(trace, thread, first);
    Ok(Fate {
        coming,
        first,
        second,
    })
}

// The first fence of the thread after event `number`; one more than the number of the last event where there is none.
fn fence_after(trace: &Trace, thread: u8, number: u64) -> u64
    ensures { IsFirst (IsFenceAfter trace.now thread number) (past_of trace.now) result }
{
    let events = trace.events();
    for index in number as usize..events.len() {
        let event = events[index];
        if event.thread == thread && is_fence(event.op) {
            return index as u64 + 1;
        }
    }
    events.len() as u64 + 1
}

// Whether the op is a fence.
fn is_fence(op: Op) -> bool
    ensures { result ≡ is_fence_op op }
{
    match op {
        Op::Sfence | Op::Mfence => true,
        Op::Store(_)
        | Op::Clwb(_)
        | Op::ClflushOpt(_)
        | Op::Clflush(_)
        | Op::IsPersist(_)
        | Op::IsOrderedBefore(_, _) => false,
    }
}

// The slice of the store with this fate.
fn store_slice(
    alloc: Global,
    trace: &Trace,
    number: u64,
    fate: Fate,
) -> Result<Selection, OutOfMemory>
    ensures { IfOk result (λ K. (t : ℕ) (w : Written) → IsStoreBy trace.now t w number → IsFate trace.now t w number fate → IsStoreSlice trace.now number K) }
{
    let mut chosen = nothing(alloc, trace.len())?;
    choose_fate(chosen.as_mut_slice(), number, fate);
    let numbers = marked_numbers(alloc, chosen.as_slice())?;
    Ok(numbers)
}

// Chooses the store, what tells of it, and the fences of its own thread that leave it unsafe.
fn choose_fate(chosen: &mut [bool], number: u64, fate: Fate)
    ensures { Chooses (IsOfFate number fate (length chosen.old)) chosen.old chosen.new }
{
    choose_store(chosen, number, fate.coming);
    if fate.first < fate.coming.safe {
        choose(chosen, fate.first);
    }
    if fate.second < fate.coming.safe {
        choose(chosen, fate.second);
    }
}

// The trace of these events, which are the slice of this store.
fn cut_to(trace: &Trace, number: u64, numbers: Selection) -> Result<Slice, OutOfMemory>
    requires { IsStoreSlice trace.now number numbers }
    ensures { IfOk result (λ s. IsStoreSlice trace.now number s.numbers × (s.trace ≡ cut trace.now s.numbers)) }
{
    let part = trace.select(&numbers)?;
    Ok(Slice {
        numbers,
        trace: part,
    })
}
