//! The bytes that stores have written, by blocks of 64.
ghost use Rattle.std.specs.Prelude.{◌≡◌, ◌-◌, ◌^◌, ◌≤◌, ◌<◌, ◌||◌, nat_eq, ℕ, cond, IsTrue, IsFalse, OnOk, []};
ghost use Rattle.pmt_laws.specs.Prelude.{list_any, range_with_len, writes};
ghost use Rattle.std.specs.Int.{bit_at};
ghost use Rattle.std.specs.Int.Bits.{bit_or};
ghost use Rattle.pmt_explain.specs.LastStores.{written_by};
ghost use Rattle.pmt_failures.specs.Showing.{bits_of, has_byte};

use pmt_model::{Op, OutOfMemory, Range, WordStore};
use std::alloc::Global;
use std::collections::HashMap;

/// The bytes that stores have written.
#[derive(Drop)]
pub(crate) struct WrittenBytes {
    // of each aligned block of 64 bytes, by its number, which of its bytes are written: bit k tells it of byte k
    blocks: HashMap<u64, u64>,
}

impl WrittenBytes {
    /// None is written.
    pub(crate) fn new(alloc: Global) -> Self
        ensures { result.blocks.entries ≡ [] }
    {
        WrittenBytes {
            blocks: HashMap::new(alloc),
        }
    }

    /// Notes the bytes that the op writes, if it is a store.
    ///
    /// # Errors
    /// Where memory was refused.
    pub(crate) fn note(&mut self, op: Op) -> Result<(), OutOfMemory>
        ensures { OnOk result ((b : ℕ) → has_byte self.new b ≡ (written_by op b || has_byte self.old b)) }
    {
        match op {
            Op::Store(store) => self.note_store(&store),
            Op::Clwb(_)
            | Op::ClflushOpt(_)
            | Op::Clflush(_)
            | Op::Sfence
            | Op::Mfence
            | Op::IsPersist(_)
            | Op::IsOrderedBefore(_, _) => Ok(()),
        }
    }

    // Notes the bytes of the store, which lie in one aligned word, and so in one block.
    fn note_store(&mut self, store: &WordStore) -> Result<(), OutOfMemory>
        ensures { OnOk result ((b : ℕ) → has_byte self.new b ≡ (writes store.now b || has_byte self.old b)) }
    {
        let first = store.addr().get();
        let low = first % 64;
        let len = store.bytes().len() as u64;
        self.note_bits(first / 64, bits_between(low, low + len))
    }

    // Notes these bits of the block with this number.
    fn note_bits(&mut self, number: u64, bits: u64) -> Result<(), OutOfMemory>
        ensures { OnOk result ((q : ℕ) → bits_of self.new q ≡ cond (nat_eq number q) (bit_or (bits_of self.old number) bits) (bits_of self.old q)) }
    {
        let before = self.block(number);
        let after = before | bits;
        if after == before {
            return Ok(());
        }
        self.blocks.insert(number, after)?;
        Ok(())
    }

    // Which bytes of the block with this number are written.
    fn block(&self, number: u64) -> u64
        ensures { result ≡ bits_of self.now number }
    {
        self.blocks.get(&number).copied().unwrap_or(0)
    }

    /// Whether a byte of the range is written.
    pub(crate) fn has_any(&self, range: Range) -> bool
        ensures { result ≡ list_any (has_byte self.now) (range_with_len range.addr range.len) }
    {
        let first = range.addr().get();
        let end = first + range.len();
        for number in first / 64..(end + 63) / 64 {
            let start = number * 64;
            let low = first.saturating_sub(start);
            let high = (end - start).min(64);
            if is_any_set(self.block(number), low, high) {
                return true;
            }
        }
        false
    }
}

// The bits from `low` on that come before `high`.
fn bits_between(low: u64, high: u64) -> u64
    requires order { low ≤ high }
    requires within { high ≤ 64 }
    ensures { result ≡ 2 ^ high - 2 ^ low }
{
    ((1u128 << high) - (1u128 << low)) as u64
}

// Whether one of these bits from `low` on that come before `high` is set.
fn is_any_set(bits: u64, low: u64, high: u64) -> bool
    requires order { low ≤ high }
    requires within { high ≤ 64 }
    ensures yes { IsTrue result → (k : ℕ) × (low ≤ k) × (k < high) × (bit_at bits k ≡ 1) }
    ensures no { IsFalse result → (k : ℕ) → low ≤ k → k < high → bit_at bits k ≡ 0 }
{
    bits & bits_between(low, high) != 0
}
