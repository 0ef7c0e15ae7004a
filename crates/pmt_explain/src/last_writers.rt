//! The last stores to bytes, as of a place.

ghost use Rattle.std.specs.Prelude.{◌≡◌, ◌≤◌, ◌<◌, ◌^◌, length, IfSome, OnOk};
ghost use Rattle.pmt_laws.specs.Prelude.{Recording, Store};
ghost use Rattle.pmt_tables.specs.Slots.{IsFound};
ghost use Rattle.pmt_explain.specs.LastStores.{AreBlocks, stores_at};
ghost use Rattle.pmt_explain.specs.Writers.{AreWriters, NotesOp};

use crate::blocks::Blocks;
use pmt_model::{Op, OutOfMemory, Trace, WordStore};
use pmt_tables::{Overwrite, Words};
use std::alloc::Global;

/// The last stores to bytes among the first events.
#[derive(Drop)]
pub struct LastWriters {
    // how many events
    pub(crate) place: u64,
    // the bytes from `low` to `high`
    pub(crate) low: u64,
    pub(crate) high: u64,
    pub(crate) blocks: Blocks,
}

impl LastWriters {
    /// Those to all bytes, before any event.
    pub fn new(alloc: Global) -> Self
        ensures writers { (T : Recording) → AreWriters T result }
        ensures low { result.low ≡ 0 }
        ensures high { result.high ≡ 2 ^ 48 }
    {
        LastWriters::between(alloc, 0, 1 << 48)
    }

    /// Those to the bytes from `low` to `high`, before any event.
    pub fn between(alloc: Global, low: u64, high: u64) -> Self
        ensures writers { (T : Recording) → AreWriters T result }
        ensures place { result.place ≡ 0 }
        ensures low { result.low ≡ low }
        ensures high { result.high ≡ high }
    {
        LastWriters {
            place: 0,
            low,
            high,
            blocks: Blocks::new(alloc),
        }
    }

    /// Goes to the place: on from its own, or from the first event where that is a later one.
    ///
    /// # Errors
    /// Where memory was refused. It can't be used any more then.
    pub fn go_to(&mut self, alloc: Global, trace: &Trace, place: u64) -> Result<(), OutOfMemory>
        requires within { place ≤ length trace.now.events }
        requires before { AreWriters trace.now self.old }
        ensures after { OnOk result (AreWriters trace.now self.new) }
        ensures place { OnOk result (self.new.place ≡ place) }
        ensures low { OnOk result (self.new.low ≡ self.old.low) }
        ensures high { OnOk result (self.new.high ≡ self.old.high) }
    {
        self.begin_again(alloc, place);
        self.go_on(alloc, trace, place)
    }

    /// The place of the block of 64 bytes with this number, if a store came to it. Its eight words begin at 8 times this place.
    #[inline(always)]
    pub fn place_of(&self, block: u64) -> Option<usize>
        ensures found { IsFound block self.now.blocks.places result }
        ensures small { IfSome result (λ place. place < 2 ^ 32) }
    {
        self.blocks.places.find(block)
    }

    /// The first store to the block at this place.
    #[inline(always)]
    pub(crate) fn first_store(&self, place: usize) -> u32
        requires within { place < length self.now.blocks.stores.items }
        ensures { result ≡ (stores_at self.now.blocks place).first }
    {
        self.blocks.stores[place].first
    }

    /// The last store to the block at this place.
    #[inline(always)]
    pub fn last_store(&self, place: usize) -> u32
        requires within { place < length self.now.blocks.stores.items }
        ensures { result ≡ (stores_at self.now.blocks place).last }
    {
        self.blocks.stores[place].last
    }

    /// The words of all blocks.
    #[inline(always)]
    pub fn words(&self) -> &Words
        ensures { result.now ≡ self.now.blocks.words }
    {
        &self.blocks.words
    }

    // Begins again, where the place lies before its own.
    fn begin_again(&mut self, alloc: Global, place: u64)
        ensures before { (T : Recording) → AreWriters T self.old → AreWriters T self.new }
        ensures place { self.new.place ≤ place }
        ensures low { self.new.low ≡ self.old.low }
        ensures high { self.new.high ≡ self.old.high }
    {
        if self.place <= place {
            return;
        }
        self.place = 0;
        self.blocks = Blocks::new(alloc);
    }

    // Goes on to a place that is no earlier.
    fn go_on(&mut self, alloc: Global, trace: &Trace, place: u64) -> Result<(), OutOfMemory>
        requires order { self.old.place ≤ place }
        requires within { place ≤ length trace.now.events }
        requires before { AreWriters trace.now self.old }
        ensures after { OnOk result (AreWriters trace.now self.new) }
        ensures place { OnOk result (self.new.place ≡ place) }
        ensures low { OnOk result (self.new.low ≡ self.old.low) }
        ensures high { OnOk result (self.new.high ≡ self.old.high) }
    {
        let mut over = Vec::new(alloc);
        let events = trace.events();
        for index in self.place as usize..place as usize {
            let event = events[index];
            note_op(
                &mut self.blocks,
                &mut over,
                event.op,
                index as u32 + 1,
                self.low,
                self.high,
            )?;
        }
        self.place = place;
        Ok(())
    }
}

// Notes the op with this number, if it is a store to one of the bytes from `low` to `high`.
#[inline(always)]
fn note_op(
    blocks: &mut Blocks,
    over: &mut Vec<Overwrite>,
    op: Op,
    number: u32,
    low: u64,
    high: u64,
) -> Result<(), OutOfMemory>
    requires are { AreBlocks blocks.old }
    requires small { number < 2 ^ 23 }
    ensures { OnOk result (NotesOp op number low high blocks.old blocks.new) }
{
    match op {
        Op::Store(store) => note_store(blocks, over, store, number, low, high),
        Op::Clwb(_)
        | Op::ClflushOpt(_)
        | Op::Clflush(_)
        | Op::Sfence
        | Op::Mfence
        | Op::IsPersist(_)
        | Op::IsOrderedBefore(_, _) => Ok(()),
    }
}

// Notes the store with this number, if it is to one of the bytes from `low` to `high`.
#[inline(always)]
fn note_store(
    blocks: &mut Blocks,
    over: &mut Vec<Overwrite>,
    store: WordStore,
    number: u32,
    low: u64,
    high: u64,
) -> Result<(), OutOfMemory>
    requires are { AreBlocks blocks.old }
    requires small { number < 2 ^ 23 }
    ensures { OnOk result (NotesOp (Store store) number low high blocks.old blocks.new) }
{
    let first = store.addr().get();
    let end = first + store.bytes().len() as u64;
    if end <= low || high <= first {
        return Ok(());
    }
    blocks.note(store, number, over)
}
