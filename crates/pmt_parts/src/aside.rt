//! The assertions whose verdicts a part does not know.
ghost use Rattle.std.specs.Prelude.{◌≡◌, ℕ, suc, ◌≤◌, ◌⊎◌, ◌↔◌, true, false, IfOk, OnOk};
ghost use Rattle.pmt_laws.specs.Prelude.{writes, Recording, Has, InSpan};
ghost use Rattle.pmt_parts.specs.Making.{HasByte, HasOp, IsAside, IsMet, IsOlderOrdered, IsOrderedWith};

use crate::part::{Part, place_in};
use indexmap::IndexSet;
use pmt_model::{Op, OutOfMemory, Range, Trace, WordStore};
use std::alloc::Global;

/// The assertions that the part answers for and sets aside, by their numbers in the part: each isOrderedBefore to some byte of whose second
/// range no store of the part's stretch has come by then. There are none in a part that begins where the whole does.
///
/// # Errors
/// Where memory was refused.
pub fn set_aside(alloc: Global, part: &Part) -> Result<Vec<u64>, OutOfMemory>
    ensures { IfOk result (λ aside. (i : ℕ) → Has aside.items i ↔ IsAside part.now i) }
{
    if part.place == 0 {
        return Ok(Vec::new(alloc));
    }
    let place = place_in(part.numbers.as_slice(), part.place);
    let before = place_in(part.numbers.as_slice(), part.before);
    older_ordered(alloc, &part.trace, place, before)
}

// Each isOrderedBefore after event `before`, to some byte of whose second range no event after event `place` stores by then.
fn older_ordered(
    alloc: Global,
    trace: &Trace,
    place: u64,
    before: u64,
) -> Result<Vec<u64>, OutOfMemory>
    ensures { IfOk result (λ aside. (i : ℕ) → Has aside.items i ↔ IsOlderOrdered trace.now place before i) }
{
    let mut met = Met::new(alloc);
    let events = trace.events();
    for index in place as usize..events.len() {
        let event = events[index];
        met.meet(event.op, index as u64 + 1, before)?;
    }
    let Met { written: _, aside } = met;
    Ok(aside)
}

/// What was met after a place of a trace.
#[derive(Drop)]
pub(crate) struct Met {
    /// The bytes that were written.
    pub(crate) written: IndexSet<u64>,
    /// The assertions that are set aside.
    pub(crate) aside: Vec<u64>,
}

impl Met {
    // Before any event is met.
    fn new(alloc: Global) -> Self
        ensures { (T : Recording) (m before : ℕ) → IsMet T m before m result }
    {
        Met {
            written: IndexSet::new(alloc),
            aside: Vec::new(alloc),
        }
    }

    // Meets the next event, which has this op and number.
    fn meet(&mut self, op: Op, number: u64, before: u64) -> Result<(), OutOfMemory>
        ensures { OnOk result ((T : Recording) (m n : ℕ) → number ≡ suc n → m ≤ n → HasOp T (suc n) op → IsMet T m before n self.old → IsMet T m before (suc n) self.new) }
    {
        match op {
            Op::Store(store) => note(&mut self.written, &store),
            Op::IsOrderedBefore(_, second) => self.judge(second, number, before),
            _ => Ok(()),
        }
    }

    // Meets an isOrderedBefore with this second range.
    fn judge(&mut self, second: Range, number: u64, before: u64) -> Result<(), OutOfMemory>
        ensures { OnOk result ((T : Recording) (m n : ℕ) → number ≡ suc n → m ≤ n → IsOrderedWith T (suc n) second → IsMet T m before n self.old → IsMet T m before (suc n) self.new) }
    {
        if number <= before {
            return Ok(());
        }
        if has_all(&self.written, second) {
            return Ok(());
        }
        self.aside.push(number)?;
        Ok(())
    }
}

// Notes the bytes that the store writes.
fn note(written: &mut IndexSet<u64>, store: &WordStore) -> Result<(), OutOfMemory>
    ensures { OnOk result ((b : ℕ) → HasByte written.new.keys b ↔ (HasByte written.old.keys b ⊎ (writes store.now b ≡ true))) }
{
    let first = store.addr().get();
    let end = first + store.bytes().len() as u64;
    for byte in first..end {
        written.insert(byte)?;
    }
    Ok(())
}

// Whether each byte of the range is noted.
fn has_all(written: &IndexSet<u64>, range: Range) -> bool
    ensures all { result ≡ true → (b : ℕ) → InSpan range b → HasByte written.now.keys b }
    ensures some { result ≡ false → (b : ℕ) × InSpan range b × ¬ HasByte written.now.keys b }
{
    let first = range.addr().get();
    let end = first + range.len();
    for byte in first..end {
        if !written.contains(&byte) {
            return false;
        }
    }
    true
}
