//! The next store of each thread to another line than a given one.

ghost use Rattle.std.specs.Prelude.{◌≡◌, ◌==◌, ◌<◌, ℕ, if◌then◌else◌};
ghost use Rattle.pmt_model.specs.Traces.{act_of};
ghost use Rattle.pmt_hints.specs.Numbers.{elsewhere_at, store_by};

use crate::per_thread::PerThread;
use pmt_model::{Format, Op, line_of};

/// What each thread stores next, as events are read from the last to the first.
#[derive(Drop)]
pub(crate) struct NextStores {
    // its next store, the line of that one, and its next store to another line than that one
    pub(crate) stores: PerThread,
    pub(crate) lines: PerThread,
    pub(crate) others: PerThread,
}

impl NextStores {
    // No thread stores: `past` stands for that.
    pub(crate) fn new(past: u64) -> Self
        ensures { (t l : ℕ) → t < 256 → elsewhere_at result t l ≡ past }
    {
        NextStores {
            stores: PerThread::new(past),
            lines: PerThread::new(0),
            others: PerThread::new(past),
        }
    }

    // The next store of the thread to another line than this one.
    #[inline(always)]
    pub(crate) fn elsewhere(&self, thread: u8, line: u64) -> u64
        ensures { result ≡ elsewhere_at self.now thread line }
    {
        if self.lines.get(thread) == line {
            self.others.get(thread)
        } else {
            self.stores.get(thread)
        }
    }

    // Goes back over the op with this number.
    #[inline(always)]
    pub(crate) fn note(&mut self, format: Format, thread: u8, op: Op, number: u64)
        ensures { (t l : ℕ) → t < 256 → elsewhere_at self.new t l ≡ store_by (act_of format thread op) thread number t l (elsewhere_at self.old t l) }
    {
        match op {
            Op::Store(store) => self.store(thread, line_of(format, store.addr()), number),
            Op::Clwb(_)
            | Op::ClflushOpt(_)
            | Op::Clflush(_)
            | Op::Sfence
            | Op::Mfence
            | Op::IsPersist(_)
            | Op::IsOrderedBefore(_, _) => {}
        }
    }

    // Goes back over a store to the line.
    #[inline(always)]
    fn store(&mut self, thread: u8, line: u64, number: u64)
        ensures { (t l : ℕ) → t < 256 → elsewhere_at self.new t l ≡ (if thread == t then (if line == l then elsewhere_at self.old t l else number) else elsewhere_at self.old t l) }
    {
        let other = self.elsewhere(thread, line);
        self.others.set(thread, other);
        self.lines.set(thread, line);
        self.stores.set(thread, number);
    }
}
