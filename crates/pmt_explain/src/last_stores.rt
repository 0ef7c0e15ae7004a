//! The last stores to the bytes of a range.

ghost use Rattle.std.specs.Prelude.{◌≡◌, ◌+◌, ◌^◌, ◌≤◌, ℕ, ◌<◌, if◌then◌else◌, length, slice_index, IfOk};
ghost use Rattle.pmt_model.specs.Machine.{writes};
ghost use Rattle.pmt_explain.specs.LastStores.{AreLastStores, written_by};

use pmt_model::{Op, OutOfMemory, Range, Trace, WordStore};
use std::alloc::Global;

// For each byte of the range the number of the last one of the first `place` events that stores to it, or 0.
pub(crate) fn last_stores(
    alloc: Global,
    trace: &Trace,
    range: Range,
    place: u64,
) -> Result<Vec<u64>, OutOfMemory>
    requires { place ≤ length trace.now.events }
    ensures size { IfOk result (λ last. length last.items ≡ range.len) }
    ensures last { IfOk result (λ last. AreLastStores trace.now range.addr place last.items) }
{
    let first = range.addr().get();
    let mut last = vec![in alloc; 0; range.len() as usize]?;
    let events = trace.events();
    for index in 0..place as usize {
        let event = events[index];
        note_op(last.as_mut_slice(), first, event.op, index as u64 + 1);
    }
    Ok(last)
}

// Notes this number at each byte that the op stores to; the first byte is at `first`.
fn note_op(last: &mut [u64], first: u64, op: Op, number: u64)
    requires { first + length last.old ≤ 2 ^ 48 }
    ensures { (k : ℕ) → k < length last.old → slice_index last.new k ≡ (if written_by op (first + k) then number else slice_index last.old k) }
{
    match op {
        Op::Store(store) => note_store(last, first, store, number),
        Op::Clwb(_)
        | Op::ClflushOpt(_)
        | Op::Clflush(_)
        | Op::Sfence
        | Op::Mfence
        | Op::IsPersist(_)
        | Op::IsOrderedBefore(_, _) => {}
    }
}

// Notes this number at each byte of the store; the first byte is at `first`.
pub(crate) fn note_store(last: &mut [u64], first: u64, store: WordStore, number: u64)
    requires { first + length last.old ≤ 2 ^ 48 }
    ensures { (k : ℕ) → k < length last.old → slice_index last.new k ≡ (if writes store (first + k) then number else slice_index last.old k) }
{
    let start = store.addr().get();
    let low = start.max(first);
    let high = (start + store.bytes().len() as u64).min(first + last.len() as u64);
    for byte in low..high {
        last[(byte - first) as usize] = number;
    }
}
