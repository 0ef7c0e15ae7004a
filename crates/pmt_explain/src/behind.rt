//! Why an event is dropped, by what stands before it and what comes after it.

ghost use Rattle.std.specs.Prelude.{◌≡◌, ℕ, suc, ◌-◌, true, false, slice_index, slice_set, IfOk};
ghost use Rattle.pmt_laws.specs.Prelude.{IsKept, Recording, IsAct, act_of};
ghost use Rattle.pmt_reasons.specs.Reasons.{IsReason};
ghost use Rattle.pmt_explain.specs.Following.{IsFenceAfter, IsFirst, past_of, TellsSafe, AreNextFlushes, TellsNextFlush};
ghost use Rattle.pmt_explain.specs.Dropping.{IsBehind, TellsReason};

use crate::reasons::{reason_of_fence, reason_of_flush};
use pmt_model::{Op, OutOfMemory, Trace, line_of};
use pmt_reasons::Reason;
use std::alloc::Global;

/// What stands before a place.
#[derive(Drop)]
pub(crate) struct Behind {
    // by the number of the next flush of a line, from which place on the last store to the line is safe; 0 where none came
    places: Vec<u64>,
    // of each thread, whether it has flushed since its last fence
    flushed: [bool; 256],
}

impl Behind {
    // Nothing of this trace.
    pub(crate) fn new(alloc: Global, trace: &Trace) -> Result<Self, OutOfMemory>
        ensures { IfOk result (IsBehind trace.now 0) }
    {
        let places = vec![in alloc; 0; trace.len() + 2]?;
        Ok(Behind {
            places,
            flushed: [false; 256],
        })
    }

    // Why the event with this number, an op by the thread, is dropped, if it is not kept, where all events before it stand behind, and this
    // is the next fence of the thread.
    #[inline(always)]
    pub(crate) fn reason(
        &self,
        trace: &Trace,
        flushes: &[u64],
        fence: u64,
        thread: u8,
        op: Op,
        number: u64,
        is_kept: bool,
    ) -> Option<Reason>
        requires is { IsAct trace.now number (act_of trace.now.format thread op) }
        requires kept { is_kept ≡ true → IsKept trace.now number }
        requires dropped { is_kept ≡ false → ¬ IsKept trace.now number }
        requires behind { IsBehind trace.now (number - 1) self.now }
        requires flushes { AreNextFlushes trace.now flushes.now }
        requires fence { IsFirst (IsFenceAfter trace.now thread number) (past_of trace.now) fence }
        ensures { TellsReason trace.now number result }
    {
        if is_kept {
            return None;
        }
        Some(self.reason_of(trace, flushes, fence, thread, op, number))
    }

    // Why the event is dropped, which is.
    fn reason_of(
        &self,
        trace: &Trace,
        flushes: &[u64],
        fence: u64,
        thread: u8,
        op: Op,
        number: u64,
    ) -> Reason
        requires is { IsAct trace.now number (act_of trace.now.format thread op) }
        requires dropped { ¬ IsKept trace.now number }
        requires behind { IsBehind trace.now (number - 1) self.now }
        requires flushes { AreNextFlushes trace.now flushes.now }
        requires fence { IsFirst (IsFenceAfter trace.now thread number) (past_of trace.now) fence }
        ensures { IsReason trace.now number result }
    {
        match op {
            Op::Clwb(addr) | Op::ClflushOpt(addr) => {
                let line = line_of(trace.format(), addr);
                let place = place_at(self.places.as_slice(), number);
                reason_of_flush(trace, flushes, thread, line, number, place, fence)
            }
            Op::Sfence | Op::Mfence => reason_of_fence(self.flushed[thread as usize]),
            Op::Clflush(_) | Op::Store(_) | Op::IsPersist(_) | Op::IsOrderedBefore(_, _) =>
                Reason::Safe,
        }
    }

    // Goes on over the event with this number, where `flush` is the next flush of its line, and a store is safe from this place on.
    #[inline(always)]
    pub(crate) fn go_on(&mut self, thread: u8, op: Op, number: u64, flush: u64, place: u64)
        ensures { (T : Recording) (n : ℕ) → IsAct T (suc n) (act_of T.format thread op) → number ≡ suc n → TellsNextFlush T (suc n) flush → TellsSafe T (suc n) place → IsBehind T n self.old → IsBehind T (suc n) self.new }
    {
        match op {
            Op::Store(_) => set_place(&mut self.places, flush, place),
            Op::Clflush(_) => pass_on(&mut self.places, number, flush),
            Op::Clwb(_) | Op::ClflushOpt(_) => {
                pass_on(&mut self.places, number, flush);
                self.flushed[thread as usize] = true;
            }
            Op::Sfence | Op::Mfence => self.flushed[thread as usize] = false,
            Op::IsPersist(_) | Op::IsOrderedBefore(_, _) => {}
        }
    }
}

// The place at this number; 0 past the end.
fn place_at(places: &[u64], number: u64) -> u64
    ensures { result ≡ slice_index places.now number }
{
    match places.get(number as usize) {
        Some(place) => *place,
        None => 0,
    }
}

// The place at this number becomes this one.
fn set_place(places: &mut Vec<u64>, number: u64, place: u64)
    ensures { places.new.items ≡ slice_set places.old.items number place }
{
    let index = number as usize;
    if index < places.len() {
        places[index] = place;
    }
}

// The place at this number becomes that of the next flush too.
fn pass_on(places: &mut Vec<u64>, number: u64, flush: u64)
    ensures { places.new.items ≡ slice_set places.old.items flush (slice_index places.old.items number) }
{
    let place = place_at(places.as_slice(), number);
    set_place(places, flush, place);
}
