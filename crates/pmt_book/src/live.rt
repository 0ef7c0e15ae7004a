//! The lines of a trace under way.
ghost use Rattle.std.specs.Prelude.{◌≡◌, ◌^◌, ℕ, suc, ◌<◌, List, [], ◌∷◌, length, All, IfOk, OnOk, OnErr};
ghost use Rattle.pmt_laws.specs.Prelude.{Act, Stores, Flushes, Clflushes, Fences, count as count_in, front as front_in, with_line, Written};
ghost use Rattle.pmt_rows.specs.Waiting.{waits_all, raise_all as raised_by};
ghost use Rattle.pmt_rows.specs.Known.{AreRows};
ghost use Rattle.pmt_tables.specs.Slots.{IsFound, IsSlotOf};
ghost use Rattle.pmt_book.specs.Live.{IsLive, IsLiveWith, IsKnown, HasRoom, Keeps};

use pmt_model::OutOfMemory;
use pmt_rows::{OpenFlush, OpenFlushes, Rows};
use std::alloc::Global;

/// The lines of a trace under way, each with its count and its front, and the flushes of each thread since its last fence. It is told of
/// each act when it comes; an assertion changes nothing. A line has a slot before an act on it is told; an act takes at most one look-up,
/// and none where the line is one of those found last. Rows are told counts here, not numbers.
#[derive(Drop)]
pub struct LiveLines {
    rows: Rows,
    waiting: OpenFlushes,
}

impl LiveLines {
    /// Before the first act.
    pub fn new(alloc: Global) -> Self
        ensures { IsLive [] result }
    {
        LiveLines {
            rows: Rows::new(alloc),
            waiting: OpenFlushes::new(alloc),
        }
    }

    /// The lines that have a slot, in order of their slots.
    pub fn lines(&self) -> &[u64]
        ensures { result.now ≡ self.now.rows.slots }
    {
        self.rows.slots().lines()
    }

    /// The slot of the line, which it gets if it has none yet, below 2^32.
    ///
    /// # Errors
    /// Where memory was refused, or 4,294,967,295 lines have a slot. All that is known stays as it was.
    #[inline(always)]
    pub fn slot_of(&mut self, line: u64) -> Result<usize, OutOfMemory>
        ensures here { IfOk result (λ slot. IsSlotOf line slot self.new.rows.slots) }
        ensures small { IfOk result (λ slot. slot < 2 ^ 32) }
        ensures live { OnOk result ((lines : List ℕ) (h : List Act) → IsLiveWith lines h self.old → IsLiveWith (with_line line lines) h self.new) }
        ensures kept { OnErr result (Keeps self.old self.new) }
    {
        let slot = self.rows.slot_of(line)?;
        Ok(slot)
    }

    /// The slot of the line, if it has one.
    pub fn find(&self, line: u64) -> Option<usize>
        ensures { IsFound line self.now.rows.slots result }
    {
        self.rows.slots().find(line)
    }

    /// How many stores there are to the line at this slot.
    #[inline(always)]
    pub fn count(&self, slot: usize) -> u32
        requires { slot < length self.now.rows.rows.items }
        ensures { (lines : List ℕ) (h : List Act) (l : ℕ) → IsSlotOf l slot lines → IsLiveWith lines h self.now → result ≡ count_in l h }
    {
        self.rows.row(slot).last_store
    }

    /// The front of the line at this slot.
    #[inline(always)]
    pub fn front(&self, slot: usize) -> u32
        requires { slot < length self.now.rows.rows.items }
        ensures { (lines : List ℕ) (h : List Act) (l : ℕ) → IsSlotOf l slot lines → IsLiveWith lines h self.now → result ≡ front_in l h }
    {
        self.rows.row(slot).safe
    }

    /// A store to the line at this slot.
    #[inline(always)]
    pub fn store(&mut self, slot: usize)
        requires slot { slot < length self.old.rows.rows.items }
        requires room { HasRoom self.old }
        ensures { (lines : List ℕ) (h : List Act) (l : ℕ) (w : Written) → IsSlotOf l slot lines → IsLiveWith lines h self.old → IsLiveWith lines (Stores l w ∷ h) self.new }
    {
        let count = self.count(slot);
        self.rows.store(slot, count + 1);
    }

    /// A flush (clwb, clflushopt) of the line at this slot by the thread, the event with this number.
    ///
    /// # Errors
    /// Where memory was refused. All that is known stays as it was.
    #[inline(always)]
    pub fn flush(&mut self, thread: u8, slot: usize, number: u32) -> Result<(), OutOfMemory>
        requires slot { slot < length self.old.rows.rows.items }
        requires small { slot < 2 ^ 32 }
        ensures live { OnOk result ((lines : List ℕ) (h : List Act) (l : ℕ) → number ≡ suc (length h) → IsSlotOf l slot lines → IsLiveWith lines h self.old → IsLiveWith lines (Flushes thread l ∷ h) self.new) }
        ensures kept { OnErr result (Keeps self.old self.new) }
    {
        let flush = OpenFlush {
            number,
            slot: slot as u32,
            store: self.count(slot),
        };
        self.waiting.add(thread, flush)?;
        Ok(())
    }

    /// Takes back the flush that was the last act, by this thread.
    pub fn take_back(&mut self, thread: u8)
        ensures { (lines : List ℕ) (h : List Act) (l : ℕ) → IsLiveWith lines (Flushes thread l ∷ h) self.old → IsLiveWith lines h self.new }
    {
        self.waiting.take_back(thread);
    }

    /// A clflush of the line at this slot.
    #[inline(always)]
    pub fn clflush(&mut self, slot: usize)
        requires { slot < length self.old.rows.rows.items }
        ensures { (lines : List ℕ) (h : List Act) (l : ℕ) → IsSlotOf l slot lines → IsLiveWith lines h self.old → IsLiveWith lines (Clflushes l ∷ h) self.new }
    {
        self.rows.clflush(slot, 0);
    }

    /// A fence by the thread. It takes a step for each of its flushes.
    pub fn fence(&mut self, thread: u8)
        requires { IsKnown self.old }
        ensures { (lines : List ℕ) (h : List Act) → IsLiveWith lines h self.old → IsLiveWith lines (Fences thread ∷ h) self.new }
    {
        let flushes = self.waiting.of(thread);
        raise_all(&mut self.rows, flushes);
        self.waiting.clear(thread);
    }

    /// All that is known once more, which takes a step for each line and each flush.
    ///
    /// # Errors
    /// Where memory was refused.
    pub fn copy(&self) -> Result<LiveLines, OutOfMemory>
        ensures { IfOk result (λ copy. Keeps self.now copy) }
    {
        Ok(LiveLines {
            rows: self.rows.copy()?,
            waiting: self.waiting.copy()?,
        })
    }
}

// The flushes raise the fronts of their lines, from the newest to the oldest.
fn raise_all(rows: &mut Rows, flushes: &[OpenFlush])
    requires { (lines : List ℕ) × (last : ℕ → ℕ) × (safe : ℕ → ℕ) × (flush : ℕ → ℕ) × AreRows lines last safe flush rows.old × All (λ f. f.slot < length lines) flushes.now }
    ensures { (lines : List ℕ) (last safe flush : ℕ → ℕ) → All (λ f. f.slot < length lines) flushes.now → AreRows lines last safe flush rows.old → AreRows lines last (raised_by (waits_all lines flushes.now) safe) flush rows.new }
{
    for index in (0..flushes.len()).rev() {
        let flush = flushes[index];
        rows.raise(flush.slot as usize, flush.store);
    }
}
