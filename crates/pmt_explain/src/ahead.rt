//! What comes after a place, as events are read from the last to the first.

ghost use Rattle.std.specs.Prelude.{◌≡◌, ℕ, suc, length, IfOk, OnOk};
ghost use Rattle.pmt_laws.specs.Prelude.{Written, Stores, Flushes, Clflushes, Fences, Recording, IsAct, act_of};
ghost use Rattle.pmt_explain.specs.Following.{past_of, IsAhead, IsSafePlace, TellsSafe};

use crate::numbers::Numbers;
use pmt_model::{Format, Op, OutOfMemory, line_of};
use std::alloc::Global;

/// What comes after a place, by numbers of events; one more than the last number where there is no such event.
#[derive(Drop)]
pub(crate) struct Ahead {
    past: u64,
    // of each thread, its next fence
    fences: [u64; 256],
    // of each line, the first event that completes a flush after the place: a fence by its thread, or a clflush
    completed: Numbers,
}

impl Ahead {
    // Before any event is read, where this is one more than the last number.
    pub(crate) fn new(alloc: Global, past: u64) -> Self
        ensures { (T : Recording) → past ≡ past_of T → IsAhead T (length T.events) result }
    {
        Ahead {
            past,
            fences: [past; 256],
            completed: Numbers::new(alloc),
        }
    }

    // Goes back over the event with this number: its safe place, if it is a store.
    pub(crate) fn go_back(
        &mut self,
        format: Format,
        thread: u8,
        op: Op,
        number: u64,
    ) -> Result<u64, OutOfMemory>
        ensures safe { (T : Recording) (n : ℕ) → IsAct T (suc n) (act_of format thread op) → IsAhead T (suc n) self.old → IfOk result (TellsSafe T (suc n)) }
        ensures ahead { (T : Recording) (n : ℕ) → IsAct T (suc n) (act_of format thread op) → number ≡ suc n → IsAhead T (suc n) self.old → OnOk result (IsAhead T n self.new) }
    {
        match op {
            Op::Clwb(addr) => self.over_flush(thread, line_of(format, addr)),
            Op::ClflushOpt(addr) => self.over_flush(thread, line_of(format, addr)),
            Op::Clflush(addr) => self.over_clflush(line_of(format, addr), number),
            Op::Sfence => Ok(self.over_fence(thread, number)),
            Op::Mfence => Ok(self.over_fence(thread, number)),
            Op::Store(store) => Ok(self.over_store(line_of(format, store.addr()))),
            Op::IsPersist(_) => Ok(self.past),
            Op::IsOrderedBefore(_, _) => Ok(self.past),
        }
    }

    // A store to the line: its safe place.
    fn over_store(&self, line: u64) -> u64
        ensures { (T : Recording) (n : ℕ) (w : Written) → IsAct T (suc n) (Stores line w) → IsAhead T (suc n) self.now → IsSafePlace T line (suc n) result }
    {
        self.completed.get(line).unwrap_or(self.past)
    }

    // A flush of the line by the thread.
    fn over_flush(&mut self, thread: u8, line: u64) -> Result<u64, OutOfMemory>
        ensures safe { (T : Recording) (n : ℕ) → IsAct T (suc n) (Flushes thread line) → IfOk result (TellsSafe T (suc n)) }
        ensures ahead { (T : Recording) (n : ℕ) → IsAct T (suc n) (Flushes thread line) → IsAhead T (suc n) self.old → OnOk result (IsAhead T n self.new) }
    {
        let fence = self.fences[thread as usize];
        self.completed.lower(line, self.past, fence)?;
        Ok(self.past)
    }

    // A clflush of the line.
    fn over_clflush(&mut self, line: u64, number: u64) -> Result<u64, OutOfMemory>
        ensures safe { (T : Recording) (n : ℕ) → IsAct T (suc n) (Clflushes line) → IfOk result (TellsSafe T (suc n)) }
        ensures ahead { (T : Recording) (n : ℕ) → IsAct T (suc n) (Clflushes line) → number ≡ suc n → IsAhead T (suc n) self.old → OnOk result (IsAhead T n self.new) }
    {
        self.completed.replace(line, number, number)?;
        Ok(self.past)
    }

    // A fence by the thread.
    fn over_fence(&mut self, thread: u8, number: u64) -> u64
        ensures { (T : Recording) (n : ℕ) → IsAct T (suc n) (Fences thread) → number ≡ suc n → IsAhead T (suc n) self.old → IsAhead T n self.new }
    {
        self.fences[thread as usize] = number;
        self.past
    }
}
