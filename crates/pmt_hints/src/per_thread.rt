//! A number of each thread.

ghost use Rattle.std.specs.Prelude.{◌≡◌, ◌==◌, ◌&&◌, ℕ, ◌<◌, if◌then◌else◌, length};
ghost use Rattle.pmt_hints.specs.Numbers.{of_thread, any_store_by, fence_by};
ghost use Rattle.pmt_model.specs.Traces.{act_of};

use pmt_model::{Format, Op};

/// A number of each of the 256 threads.
#[derive(Drop)]
pub(crate) struct PerThread {
    numbers: [u64; 256],
}

impl PerThread {
    // The same for all.
    pub(crate) fn new(number: u64) -> Self
        ensures { (t : ℕ) → t < 256 → of_thread result t ≡ number }
    {
        PerThread {
            numbers: [number; 256],
        }
    }

    // That of the thread.
    pub(crate) fn get(&self, thread: u8) -> u64
        ensures { result ≡ of_thread self.now thread }
    {
        self.numbers[thread as usize]
    }

    // The thread gets another one.
    pub(crate) fn set(&mut self, thread: u8, number: u64)
        ensures { (t : ℕ) → t < 256 → of_thread self.new t ≡ (if thread == t then number else of_thread self.old t) }
    {
        self.numbers[thread as usize] = number;
    }

    // The thread gets another one, if it is so.
    pub(crate) fn set_if(&mut self, is_so: bool, thread: u8, number: u64)
        ensures { (t : ℕ) → t < 256 → of_thread self.new t ≡ (if is_so && (thread == t) then number else of_thread self.old t) }
    {
        if is_so {
            self.set(thread, number);
        }
    }

    // The number of the event becomes that of its thread, if it is a fence.
    #[inline(always)]
    pub(crate) fn note_fence(&mut self, format: Format, thread: u8, op: Op, number: u64)
        ensures { (t : ℕ) → t < 256 → of_thread self.new t ≡ fence_by (act_of format thread op) number t (of_thread self.old t) }
    {
        match op {
            Op::Sfence | Op::Mfence => self.set(thread, number),
            Op::Store(_)
            | Op::Clwb(_)
            | Op::ClflushOpt(_)
            | Op::Clflush(_)
            | Op::IsPersist(_)
            | Op::IsOrderedBefore(_, _) => {}
        }
    }

    // The number of the event becomes that of its thread, if it is a store.
    pub(crate) fn note_store(&mut self, format: Format, thread: u8, op: Op, number: u64)
        ensures { (t : ℕ) → t < 256 → of_thread self.new t ≡ any_store_by (act_of format thread op) thread number t (of_thread self.old t) }
    {
        match op {
            Op::Store(_) => self.set(thread, number),
            Op::Clwb(_)
            | Op::ClflushOpt(_)
            | Op::Clflush(_)
            | Op::Sfence
            | Op::Mfence
            | Op::IsPersist(_)
            | Op::IsOrderedBefore(_, _) => {}
        }
    }
}
