//! What is known of lines and of stores.
ghost use Rattle.std.specs.Prelude.{◌≡◌, ℕ, suc, ◌<◌, ◌^◌, ◌↔◌, true, false, List, length, IfOk, OnOk};
ghost use Rattle.pmt_laws.specs.Prelude.{IsEmptyFence, IsRedundantClflush, IsRedundantFlush, IsKept, Asserts, Clflushes, Fences, Flushes, Recording, IsAct, IsTrace, history, lines_of, with_line, Written};
ghost use Rattle.pmt_tables.specs.Slots.{IsSlotOf};
ghost use Rattle.pmt_sweep.specs.Passing.{FlagsKept};
ghost use Rattle.pmt_sweep.specs.Known.{AddsOverwrittenBy, IsActAt, IsKnownAmong, IsKnownOf, IsStoreAt, IsStoreNext};

use crate::first_flush::FirstFlushes;
use crate::line_words::{WordBytes, bytes_of};
use pmt_model::{Format, OutOfMemory, WordStore, line_of};
use pmt_rows::{Links, OpenFlush, OpenFlushes, Rows, fence};
use pmt_tables::{Overwrite, Words};
use std::alloc::Global;

/// What a fence turns out to be.
#[derive(Clone, Copy)]
pub struct Fenced {
    /// The fence is kept: the last safe store of some line rises.
    pub kept: bool,
    /// Its thread has made no flush since its last fence.
    pub without_flush: bool,
}

/// What is known of the lines of a trace after some of its events: of each line its slot and row, who wrote its words, and who has flushed
/// it since its last store; of each event an entry; of each thread the flushes that wait for its fence. It keeps no event.
#[derive(Drop)]
pub struct Known {
    pub(crate) format: Format,
    pub(crate) words_of_line: usize,
    pub(crate) rows: Rows,
    pub(crate) words: Words,
    pub(crate) links: Links,
    pub(crate) flushed: FirstFlushes,
    pub(crate) waiting: OpenFlushes,
}

impl Known {
    /// Before the first event of a trace of this format.
    ///
    /// # Errors
    /// Where memory was refused.
    pub fn new(alloc: Global, format: Format) -> Result<Self, OutOfMemory>
        ensures { IfOk result (λ known. (T : Recording) → IsTrace T → T.format ≡ format → IsKnownOf T 0 known) }
    {
        Ok(Known {
            format,
            words_of_line: format.line_size() as usize / 8,
            rows: Rows::new(alloc),
            words: Words::new(alloc),
            links: Links::new(alloc)?,
            flushed: FirstFlushes::new(alloc),
            waiting: OpenFlushes::new(alloc),
        })
    }

    /// The next event is this store: what it overwrites is added, by rising numbers.
    ///
    /// # Errors
    /// Where memory was refused. What is known then is not told.
    #[inline(always)]
    pub fn store(&mut self, store: &WordStore, over: &mut Vec<Overwrite>) -> Result<(), OutOfMemory>
        requires { (T : Recording) × (n : ℕ) × IsKnownOf T n self.old × IsStoreNext T n store.now }
        ensures known { OnOk result ((T : Recording) (n : ℕ) → IsKnownOf T n self.old → IsStoreNext T n store.now → IsKnownOf T (suc n) self.new) }
        ensures tells { OnOk result ((T : Recording) (n : ℕ) → IsKnownOf T n self.old → IsStoreNext T n store.now → AddsOverwrittenBy T (suc n) over.old.items over.new.items) }
    {
        let line = line_of(self.format, store.addr());
        let slot = self.slot_of(line)?;
        let bytes = bytes_of(self.format, line, store);
        self.store_at(slot, bytes, over)
    }

    /// The next event is a flush (clwb, clflushopt) of this line by the thread: whether it is redundant.
    ///
    /// # Errors
    /// Where memory was refused. What is known then is not told.
    #[inline(always)]
    pub fn flush(&mut self, line: u64, thread: u8) -> Result<bool, OutOfMemory>
        requires { (T : Recording) × (n : ℕ) × IsKnownOf T n self.old × IsAct T (suc n) (Flushes thread line) }
        ensures known { OnOk result ((T : Recording) (n : ℕ) → IsKnownOf T n self.old → IsAct T (suc n) (Flushes thread line) → IsKnownOf T (suc n) self.new) }
        ensures tells { IfOk result (λ redundant. (T : Recording) (n : ℕ) → IsKnownOf T n self.old → IsAct T (suc n) (Flushes thread line) → (redundant ≡ true) ↔ IsRedundantFlush T thread line (suc n)) }
    {
        let slot = self.slot_of(line)?;
        self.flush_at(slot, thread)
    }

    /// The next event is a clflush of this line: whether it is kept, which is where it is not redundant.
    ///
    /// # Errors
    /// Where memory was refused. What is known then is not told.
    #[inline(always)]
    pub fn clflush(&mut self, line: u64) -> Result<bool, OutOfMemory>
        requires { (T : Recording) × (n : ℕ) × IsKnownOf T n self.old × IsAct T (suc n) (Clflushes line) }
        ensures known { OnOk result ((T : Recording) (n : ℕ) → IsKnownOf T n self.old → IsAct T (suc n) (Clflushes line) → IsKnownOf T (suc n) self.new) }
        ensures kept { IfOk result (λ kept. (T : Recording) (n : ℕ) → IsKnownOf T n self.old → IsAct T (suc n) (Clflushes line) → (kept ≡ true) ↔ IsKept T (suc n)) }
        ensures redundant { IfOk result (λ kept. (T : Recording) (n : ℕ) → IsKnownOf T n self.old → IsAct T (suc n) (Clflushes line) → (kept ≡ false) ↔ IsRedundantClflush T line (suc n)) }
    {
        let slot = self.slot_of(line)?;
        self.clflush_at(slot)
    }

    /// The next event is a fence by the thread: whether it is kept, and whether it comes without a flush. There is a flag for each event
    /// before it: of the flushes that wait for the fence, the flags of those are set that are kept, also where memory was refused.
    ///
    /// # Errors
    /// Where memory was refused. What is known then is not told.
    pub fn fence(&mut self, thread: u8, kept: &mut [bool]) -> Result<Fenced, OutOfMemory>
        requires { (T : Recording) × (n : ℕ) × IsKnownOf T n self.old × IsAct T (suc n) (Fences thread) × (length kept.old ≡ n) }
        ensures known { OnOk result ((T : Recording) (n : ℕ) → IsKnownOf T n self.old → IsAct T (suc n) (Fences thread) → IsKnownOf T (suc n) self.new) }
        ensures kept { IfOk result (λ fenced. (T : Recording) (n : ℕ) → IsKnownOf T n self.old → IsAct T (suc n) (Fences thread) → (fenced.kept ≡ true) ↔ IsKept T (suc n)) }
        ensures empty { IfOk result (λ fenced. (T : Recording) (n : ℕ) → IsKnownOf T n self.old → IsAct T (suc n) (Fences thread) → (fenced.without_flush ≡ true) ↔ IsEmptyFence T (suc n)) }
        ensures flags { (T : Recording) (n : ℕ) → IsKnownOf T n self.old → IsAct T (suc n) (Fences thread) → FlagsKept T n thread kept.old kept.new }
    {
        let number = self.links.len() as u32;
        let flushes = self.waiting.of(thread);
        let without_flush = flushes.is_empty();
        let rises = fence(&mut self.rows, &mut self.links, flushes, number, kept);
        self.waiting.clear(thread);
        self.links.push(number)?;
        Ok(Fenced {
            kept: rises,
            without_flush,
        })
    }

    /// The next event is an assertion.
    ///
    /// # Errors
    /// Where memory was refused. What is known then is not told.
    pub fn assertion(&mut self) -> Result<(), OutOfMemory>
        requires { (T : Recording) × (n : ℕ) × IsKnownOf T n self.old × IsAct T (suc n) Asserts }
        ensures { OnOk result ((T : Recording) (n : ℕ) → IsKnownOf T n self.old → IsAct T (suc n) Asserts → IsKnownOf T (suc n) self.new) }
    {
        let next = self.links.len() as u32;
        self.links.push(next)?;
        Ok(())
    }

    // The slot of the line, which it gets if it has none yet; its words are there then.
    #[inline(always)]
    fn slot_of(&mut self, line: u64) -> Result<usize, OutOfMemory>
        ensures here { IfOk result (λ slot. IsSlotOf line slot self.new.rows.slots) }
        ensures small { IfOk result (λ slot. slot < 2 ^ 32) }
        ensures known { OnOk result ((T : Recording) (n : ℕ) (lines : List ℕ) → IsKnownAmong T n lines self.old → IsKnownAmong T n (with_line line lines) self.new) }
    {
        let lines = self.rows.len();
        let slot = self.rows.slot_of(line)?;
        let is_new = lines < self.rows.len();
        if is_new {
            self.words.add_many(self.words_of_line)?;
        }
        Ok(slot)
    }

    // A store to these bytes of the line at this slot.
    #[inline(always)]
    fn store_at(
        &mut self,
        slot: usize,
        bytes: WordBytes,
        over: &mut Vec<Overwrite>,
    ) -> Result<(), OutOfMemory>
        requires small { slot < 2 ^ 32 }
        requires next { (T : Recording) × (n : ℕ) × (l : ℕ) × (w : Written) × IsStoreAt T n l slot bytes w self.old }
        ensures known { OnOk result ((T : Recording) (n l : ℕ) (w : Written) → IsStoreAt T n l slot bytes w self.old → IsKnownAmong T (suc n) (with_line l (lines_of (history T n))) self.new) }
        ensures tells { OnOk result ((T : Recording) (n l : ℕ) (w : Written) → IsStoreAt T n l slot bytes w self.old → AddsOverwrittenBy T (suc n) over.old.items over.new.items) }
    {
        let number = self.links.len() as u32;
        let row = self.rows.row(slot);
        let word = slot * self.words_of_line + bytes.word;
        let WordBytes { word: _, low, high } = bytes;
        self.words
            .store(word, low, high, number, row.last_flush, over)?;
        self.rows.store(slot, number);
        self.links.push(row.last_store)?;
        Ok(())
    }

    // A flush by the thread of the line at this slot: whether it is redundant.
    #[inline(always)]
    fn flush_at(&mut self, slot: usize, thread: u8) -> Result<bool, OutOfMemory>
        requires small { slot < 2 ^ 32 }
        requires next { (T : Recording) × (n : ℕ) × (l : ℕ) × IsActAt T n l slot (Flushes thread l) self.old }
        ensures known { OnOk result ((T : Recording) (n l : ℕ) → IsActAt T n l slot (Flushes thread l) self.old → IsKnownAmong T (suc n) (with_line l (lines_of (history T n))) self.new) }
        ensures tells { IfOk result (λ redundant. (T : Recording) (n l : ℕ) → IsActAt T n l slot (Flushes thread l) self.old → (redundant ≡ true) ↔ IsRedundantFlush T thread l (suc n)) }
    {
        let number = self.links.len() as u32;
        let row = self.rows.row(slot);
        let again = self.flushed.flush(slot, row.last_store, thread)?;
        let flush = OpenFlush {
            number,
            slot: slot as u32,
            store: row.last_store,
        };
        self.waiting.add(thread, flush)?;
        self.rows.flush(slot, number);
        self.links.push(number)?;
        Ok(again || row.safe == row.last_store)
    }

    // A clflush of the line at this slot: whether it is kept.
    #[inline(always)]
    fn clflush_at(&mut self, slot: usize) -> Result<bool, OutOfMemory>
        requires { (T : Recording) × (n : ℕ) × (l : ℕ) × IsActAt T n l slot (Clflushes l) self.old }
        ensures known { OnOk result ((T : Recording) (n l : ℕ) → IsActAt T n l slot (Clflushes l) self.old → IsKnownAmong T (suc n) (with_line l (lines_of (history T n))) self.new) }
        ensures kept { IfOk result (λ kept. (T : Recording) (n l : ℕ) → IsActAt T n l slot (Clflushes l) self.old → (kept ≡ true) ↔ IsKept T (suc n)) }
        ensures redundant { IfOk result (λ kept. (T : Recording) (n l : ℕ) → IsActAt T n l slot (Clflushes l) self.old → (kept ≡ false) ↔ IsRedundantClflush T l (suc n)) }
    {
        let number = self.links.len() as u32;
        let row = self.rows.row(slot);
        self.links.raise(row.last_store, row.safe, number);
        self.rows.clflush(slot, number);
        self.links.push(number)?;
        Ok(row.safe < row.last_store)
    }
}
