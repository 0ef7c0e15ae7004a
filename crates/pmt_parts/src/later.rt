//! What comes after a place, as events are met from a later place back.

ghost use Rattle.std.specs.Prelude.{◌≡◌, ℕ, suc, ◌≤◌, IfOk};
ghost use Rattle.pmt_laws.specs.Prelude.{Written, Stores, Flushes, Clflushes, Fences, Recording, IsAct, act_of};
ghost use Rattle.pmt_parts.specs.Meeting.{IsLater, TellsCarried, flush_key};

use indexmap::IndexSet;
use pmt_model::{Format, Op, OutOfMemory, line_of};
use std::alloc::Global;

/// What comes after a place and up to another.
#[derive(Drop)]
pub(crate) struct Later {
    // of each thread whether it fences
    pub(crate) fences: [bool; 256],
    // lines of which a flush is complete
    pub(crate) complete: IndexSet<u64>,
    // flushes that wait for a fence of their thread, which does not come, by line and thread
    pub(crate) waiting: IndexSet<u128>,
}

impl Later {
    // Before any event is met.
    pub(crate) fn new(alloc: Global) -> Self
        ensures { (T : Recording) (n : ℕ) → IsLater T n n result }
    {
        let complete = IndexSet::new(alloc);
        let waiting = IndexSet::new(alloc);
        Later {
            fences: [false; 256],
            complete,
            waiting,
        }
    }

    // Goes back over the event: whether it is carried over the later place.
    pub(crate) fn go_back(
        &mut self,
        format: Format,
        thread: u8,
        op: Op,
    ) -> Result<bool, OutOfMemory>
        ensures { IfOk result (λ carried. (T : Recording) (m n : ℕ) → IsAct T (suc m) (act_of format thread op) → suc m ≤ n → IsLater T (suc m) n self.old → IsLater T m n self.new × TellsCarried T n (suc m) carried) }
    {
        match op {
            Op::Store(store) => Ok(self.store(line_of(format, store.addr()))),
            Op::Clwb(addr) => self.flush(thread, line_of(format, addr)),
            Op::ClflushOpt(addr) => self.flush(thread, line_of(format, addr)),
            Op::Clflush(addr) => self.clflush(line_of(format, addr)),
            Op::Sfence => Ok(self.fence(thread)),
            Op::Mfence => Ok(self.fence(thread)),
            Op::IsPersist(_) => Ok(false),
            Op::IsOrderedBefore(_, _) => Ok(false),
        }
    }

    // Over a store to the line.
    fn store(&self, line: u64) -> bool
        ensures { (T : Recording) (m n : ℕ) (w : Written) → IsAct T (suc m) (Stores line w) → suc m ≤ n → IsLater T (suc m) n self.now → IsLater T m n self.now × TellsCarried T n (suc m) result }
    {
        !self.complete.contains(&line)
    }

    // Over a flush of the line by the thread.
    fn flush(&mut self, thread: u8, line: u64) -> Result<bool, OutOfMemory>
        ensures { IfOk result (λ carried. (T : Recording) (m n : ℕ) → IsAct T (suc m) (Flushes thread line) → suc m ≤ n → IsLater T (suc m) n self.old → IsLater T m n self.new × TellsCarried T n (suc m) carried) }
    {
        let fenced = self.fences[thread as usize];
        if fenced {
            self.complete.insert(line)?;
            return Ok(false);
        }
        let is_new = self.waiting.insert(key_of(thread, line))?;
        Ok(is_new)
    }

    // Over a clflush of the line.
    fn clflush(&mut self, line: u64) -> Result<bool, OutOfMemory>
        ensures { IfOk result (λ carried. (T : Recording) (m n : ℕ) → IsAct T (suc m) (Clflushes line) → suc m ≤ n → IsLater T (suc m) n self.old → IsLater T m n self.new × TellsCarried T n (suc m) carried) }
    {
        self.complete.insert(line)?;
        Ok(false)
    }

    // Over a fence by the thread.
    fn fence(&mut self, thread: u8) -> bool
        ensures { (T : Recording) (m n : ℕ) → IsAct T (suc m) (Fences thread) → suc m ≤ n → IsLater T (suc m) n self.old → IsLater T m n self.new × TellsCarried T n (suc m) result }
    {
        self.fences[thread as usize] = true;
        false
    }
}

// One number for a line and a thread.
fn key_of(thread: u8, line: u64) -> u128
    ensures { result ≡ flush_key thread line }
{
    line as u128 * 256 + thread as u128
}
