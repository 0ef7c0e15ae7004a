//! The bytes of a range that no store after a place writes.

ghost use Rattle.std.specs.Prelude.{◌≡◌, ℕ, suc, ◌+◌, ◌<◌, ◌≤◌, true, false, length, slice_index_or, IfOk};
ghost use Rattle.pmt_laws.specs.Prelude.{Span, IsStore, Stores, writes, Recording, IsAct, InSpan};
ghost use Rattle.pmt_slices.specs.Slices.{IsUnwritten, AreUnwritten, TakesBytes, TakesStore};

use pmt_model::{OutOfMemory, Range, WordStore};
use std::alloc::Global;

/// Of each byte of a range whether no store writes it, among the events after a place and up to an assertion.
#[derive(Drop)]
pub(crate) struct Unwritten {
    // the address of the first byte
    pub(crate) low: u64,
    pub(crate) bytes: Vec<bool>,
}

impl Unwritten {
    // Before any event is met.
    pub(crate) fn new(alloc: Global, range: Range) -> Result<Self, OutOfMemory>
        ensures { IfOk result (λ u. (T : Recording) (n : ℕ) → AreUnwritten T range n n u) }
    {
        let low = range.addr().get();
        let bytes = vec![in alloc; true; range.len() as usize]?;
        Ok(Unwritten { low, bytes })
    }

    // Takes the bytes that the store writes, and says whether there are any.
    pub(crate) fn take(&mut self, store: WordStore) -> bool
        ensures store { IsStore store }
        ensures takes { TakesStore store result self.old self.new }
    {
        let first = store.addr().get();
        let end = first + store.bytes().len() as u64;
        let high = self.low.saturating_add(self.bytes.len() as u64);
        let from = first.max(self.low) - self.low;
        let to = end.min(high).max(self.low) - self.low;
        take_bytes(self.bytes.as_mut_slice(), from as usize, to as usize)
    }
}

// Takes the bytes at these places, and says whether there are any.
fn take_bytes(bytes: &mut [bool], from: usize, to: usize) -> bool
    requires { to ≤ length bytes.old }
    ensures { TakesBytes from to result bytes.old bytes.new }
{
    let mut found = false;
    for place in from..to {
        if bytes[place] {
            found = true;
        }
        bytes[place] = false;
    }
    found
}
