//! The last stores to bytes, by blocks of 64 neighbours.

ghost use Rattle.std.specs.Prelude.{◌≡◌, ◌<◌, ◌^◌, [], IfOk, OnOk};
ghost use Rattle.pmt_explain.specs.LastStores.{AreBlocks, Notes, Opens};

use pmt_model::{OutOfMemory, WordStore};
use pmt_tables::{LineSlots, Overwrite, Words};
use std::alloc::Global;

/// The first store to a block, and the last one.
#[derive(Clone, Copy)]
pub(crate) struct Stores {
    pub(crate) first: u32,
    pub(crate) last: u32,
}

/// Of the bytes of some blocks the last store to each.
#[derive(Drop)]
pub(crate) struct Blocks {
    // the blocks, each by its number
    pub(crate) places: LineSlots,
    // of each block, in this order, its first and its last store
    pub(crate) stores: Vec<Stores>,
    // of each block, in this order, eight words
    pub(crate) words: Words,
}

impl Blocks {
    // No blocks.
    pub(crate) fn new(alloc: Global) -> Self
        ensures places { result.places ≡ [] }
        ensures stores { result.stores.items ≡ [] }
        ensures words { result.words ≡ [] }
    {
        Blocks {
            places: LineSlots::new(alloc),
            stores: Vec::new(alloc),
            words: Words::new(alloc),
        }
    }

    // Notes the store with this number at its bytes. What it overwrites is not added.
    #[inline(always)]
    pub(crate) fn note(
        &mut self,
        store: WordStore,
        number: u32,
        over: &mut Vec<Overwrite>,
    ) -> Result<(), OutOfMemory>
        requires are { AreBlocks self.old }
        requires small { number < 2 ^ 23 }
        ensures { OnOk result (Notes store number self.old self.new) }
    {
        let addr = store.addr().get();
        let low = (addr % 8) as u32;
        let high = low + store.bytes().len() as u32;
        let place = self.open(addr / 64, number)?;
        let word = place * 8 + (addr / 8 % 8) as usize;
        self.stores[place].last = number;
        self.words.store(word, low, high, number, u32::MAX, over)?;
        Ok(())
    }

    // The place of the block, which it gets if it has none, with this store as its first one and none to its bytes.
    #[inline(always)]
    fn open(&mut self, block: u64, store: u32) -> Result<usize, OutOfMemory>
        requires { AreBlocks self.old }
        ensures { IfOk result (λ place. Opens block store place self.old self.new) }
    {
        match self.places.recent(block) {
            Some(place) => Ok(place),
            None => self.look_up(block, store),
        }
    }

    // The same, by a look-up.
    #[inline(never)]
    fn look_up(&mut self, block: u64, store: u32) -> Result<usize, OutOfMemory>
        requires { AreBlocks self.old }
        ensures { IfOk result (λ place. Opens block store place self.old self.new) }
    {
        let (place, is_new) = self.places.insert(block)?;
        if is_new {
            self.words.add_many(8)?;
            self.stores.push(Stores {
                first: store,
                last: store,
            })?;
        }
        Ok(place)
    }
}
