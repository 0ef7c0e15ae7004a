//! Bytes that assertions name, as events are read from the last one to the first.

ghost use Rattle.std.specs.Prelude.{◌≡◌, ◌↔◌, ◌+◌, ◌*◌, ◌≤◌, ◌<◌, ℕ, true, false, length, get_or, IfOk, OnOk};
ghost use Rattle.pmt_model.specs.Assertions.{InSpan};
ghost use Rattle.pmt_hints.specs.NamedBytes.{Adds, AreNamedBytes, HasByte, IsFilled, Opens, Takes};

use pmt_model::{OutOfMemory, Range, WordStore};
use pmt_tables::LineSlots;
use std::alloc::Global;

/// Some bytes, by blocks of 64 neighbours.
#[derive(Drop)]
pub(crate) struct NamedBytes {
    // the blocks, each by its number
    pub(crate) blocks: LineSlots,
    // of each block, in this order, of each of its bytes whether it is one of them
    pub(crate) flags: Vec<bool>,
    // of each block, in this order, whether all of its bytes are known to be
    pub(crate) whole: Vec<bool>,
}

impl NamedBytes {
    // No bytes.
    pub(crate) fn new(alloc: Global) -> Self
        ensures are { AreNamedBytes result }
        ensures none { (b : ℕ) → HasByte result b → ⊥ }
    {
        NamedBytes {
            blocks: LineSlots::new(alloc),
            flags: Vec::new(alloc),
            whole: Vec::new(alloc),
        }
    }

    // Adds the bytes of the range: a look-up for each block of 64 that it meets.
    pub(crate) fn add(&mut self, range: Range) -> Result<(), OutOfMemory>
        requires { AreNamedBytes self.old }
        ensures { OnOk result (Adds (InSpan range) self.old self.new) }
    {
        let low = range.addr().get();
        let high = low + range.len();
        for block in low / 64..(high - 1) / 64 + 1 {
            let from = low.max(block * 64);
            let to = high.min(block * 64 + 64);
            self.add_between(block, from, to)?;
        }
        Ok(())
    }

    // Adds the bytes from `low` to `high`, which are of this block.
    fn add_between(&mut self, block: u64, low: u64, high: u64) -> Result<(), OutOfMemory>
        requires are { AreNamedBytes self.old }
        requires from { block * 64 ≤ low }
        requires to { high ≤ block * 64 + 64 }
        requires some { low ≤ high }
        ensures { OnOk result (Adds (λ b. (low ≤ b) × (b < high)) self.old self.new) }
    {
        let place = self.open(block)?;
        if self.whole[place] {
            return Ok(());
        }
        let from = (low - block * 64) as usize;
        let to = (high - block * 64) as usize;
        replace(
            self.flags.as_mut_slice(),
            place * 64 + from,
            place * 64 + to,
            true,
        );
        self.whole[place] = to - from == 64;
        Ok(())
    }

    // The place of the block, which it gets if it has none.
    fn open(&mut self, block: u64) -> Result<usize, OutOfMemory>
        requires { AreNamedBytes self.old }
        ensures { IfOk result (λ place. Opens block place self.old self.new) }
    {
        match self.blocks.recent(block) {
            Some(place) => Ok(place),
            None => self.look_up(block),
        }
    }

    // The same, by a look-up.
    fn look_up(&mut self, block: u64) -> Result<usize, OutOfMemory>
        requires { AreNamedBytes self.old }
        ensures { IfOk result (λ place. Opens block place self.old self.new) }
    {
        let (place, is_new) = self.blocks.insert(block)?;
        if is_new {
            let size = self.flags.len() + 64;
            self.flags.resize(size, false)?;
            self.whole.push(false)?;
        }
        Ok(place)
    }

    // Takes the bytes of the store out: whether one of them was in.
    pub(crate) fn take(&mut self, store: WordStore) -> bool
        requires { AreNamedBytes self.old }
        ensures { Takes store self.old result self.new }
    {
        let addr = store.addr().get();
        let Some(place) = self.blocks.find(addr / 64) else {
            return false;
        };
        let low = place * 64 + (addr % 64) as usize;
        let high = low + store.bytes().len();
        let is_any = replace(self.flags.as_mut_slice(), low, high, false);
        self.whole[place] = false;
        is_any
    }
}

// Gives the flags from `low` to `high` the value: whether one of them was set.
#[inline(always)]
fn replace(flags: &mut [bool], low: usize, high: usize, value: bool) -> bool
    requires order { low ≤ high }
    requires within { high ≤ length flags.old }
    ensures any { (result ≡ true) ↔ ((k : ℕ) × (low ≤ k) × (k < high) × (get_or flags.old k false ≡ true)) }
    ensures filled { IsFilled value low high flags.old flags.new }
{
    let mut is_any = false;
    for index in low..high {
        is_any |= flags[index];
        flags[index] = value;
    }
    is_any
}
