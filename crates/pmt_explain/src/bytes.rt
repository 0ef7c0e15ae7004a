//! What memory holds after a crash.

ghost use Rattle.std.specs.Prelude.{◌≡◌, ◌+◌, ◌-◌, ◌^◌, ◌<◌, ◌≤◌, ℕ, true, if◌then◌else◌, length, slice_get, slice_index, IfOk, IsSomeAnd};
ghost use Rattle.pmt_laws.specs.Prelude.{Stores, writes, IsAct, act_of, Written};
ghost use Rattle.pmt_explain.specs.Crashes.{full_line, AreCrashBytes, keeps, AreLastKept, AreReadOf, IsWrittenBy};

use crate::crash::Crash;
use crate::last_stores::note_store;
use pmt_model::{Format, Op, OutOfMemory, Range, Trace, WordStore, line_of};
use pmt_reasons::Failure;
use std::alloc::Global;

/// A byte that a store wrote.
#[derive(Clone, Copy)]
pub struct StoredByte {
    /// The store's number, from 1.
    pub store: u64,
    /// What it wrote there.
    pub value: u8,
}

/// What memory holds at a byte after a crash.
#[derive(Clone, Copy)]
pub struct CrashByte {
    /// The byte's address.
    pub byte: u64,
    /// The last persisted store to it; none where no persisted store writes it.
    pub last: Option<StoredByte>,
}

/// What memory holds after the crash of the failure at each byte of the range, lowest first: what the last of the persisted stores
/// to it wrote. Persisted are as many stores of each line as `crash_lines` tells.
///
/// The failure may be any: a place after the last event counts as that of the last event, and a kept event that is no store as
/// none.
///
/// # Errors
/// Where memory was refused.
pub fn crash_bytes(
    alloc: Global,
    trace: &Trace,
    failure: &Failure,
    range: Range,
) -> Result<Vec<CrashByte>, OutOfMemory>
    ensures { IfOk result (λ bytes. AreCrashBytes trace.now failure.now.place (full_line trace.now failure.now.kept) range bytes.items) }
{
    let crash = Crash::of(alloc, trace, failure)?;
    let last = last_persisted(alloc, trace, &crash, range)?;
    let _len = range.len();
    bytes_of(alloc, trace, last.as_slice(), range.addr().get())
}

// The bytes from `first` on as the stores with these numbers wrote them.
fn bytes_of(
    alloc: Global,
    trace: &Trace,
    stores: &[u64],
    first: u64,
) -> Result<Vec<CrashByte>, OutOfMemory>
    requires { first + length stores.now ≤ 2 ^ 48 }
    ensures { IfOk result (λ bytes. AreReadOf trace.now first stores.now bytes.items) }
{
    let mut bytes = Vec::with_capacity(alloc, stores.len())?;
    for (index, store) in stores.iter().enumerate() {
        bytes.push(crash_byte(trace, *store, first + index as u64))?;
    }
    Ok(bytes)
}

// The byte as the store with this number wrote it; with no store where the number is 0.
fn crash_byte(trace: &Trace, store: u64, byte: u64) -> CrashByte
    ensures byte { result.byte ≡ byte }
    ensures none { store ≡ 0 → result.last ≡ None }
    ensures some { (l : ℕ) (w : Written) → IsAct trace.now store (Stores l w) → writes w byte ≡ true → IsWrittenBy store w byte result.last }
{
    CrashByte {
        byte,
        last: stored_byte(trace, store, byte),
    }
}

// What the store with this number wrote at the byte.
fn stored_byte(trace: &Trace, store: u64, byte: u64) -> Option<StoredByte>
    ensures none { store ≡ 0 → result ≡ None }
    ensures some { (l : ℕ) (w : Written) → IsAct trace.now store (Stores l w) → writes w byte ≡ true → IsWrittenBy store w byte result }
{
    let op = trace.get(store)?.op;
    match op {
        Op::Store(written) => {
            let value = value_in(written, byte)?;
            Some(StoredByte { store, value })
        }
        _ => None,
    }
}

// What the store writes at the byte.
fn value_in(store: WordStore, byte: u64) -> Option<u8>
    ensures value { writes store byte ≡ true → result ≡ slice_get store.bytes (byte - store.addr) }
    ensures some { writes store byte ≡ true → IsSomeAnd result (λ value. Some value ≡ slice_get store.bytes (byte - store.addr)) }
{
    let start = store.addr().get();
    if byte < start {
        return None;
    }
    store.bytes().get((byte - start) as usize).copied()
}

// For each byte of the range the number of the last persisted store to it, or 0.
fn last_persisted(
    alloc: Global,
    trace: &Trace,
    crash: &Crash,
    range: Range,
) -> Result<Vec<u64>, OutOfMemory>
    requires { crash.now.place ≤ length trace.now.events }
    ensures size { IfOk result (λ last. length last.items ≡ range.len) }
    ensures last { IfOk result (λ last. AreLastKept trace.now crash.now range.addr crash.now.place last.items) }
{
    let first = range.addr().get();
    let format = trace.format();
    let mut last = vec![in alloc; 0; range.len() as usize]?;
    let events = trace.events();
    for index in 0..crash.place as usize {
        let event = events[index];
        note_persisted(
            last.as_mut_slice(),
            first,
            crash,
            format,
            event.op,
            index as u64 + 1,
        );
    }
    Ok(last)
}

// Notes this number at each byte that the op stores to, if it is persisted; the first byte is at `first`.
fn note_persisted(last: &mut [u64], first: u64, crash: &Crash, format: Format, op: Op, number: u64)
    requires { first + length last.old ≤ 2 ^ 48 }
    ensures { (t k : ℕ) → k < length last.old → slice_index last.new k ≡ (if keeps crash.now number (act_of format t op) (first + k) then number else slice_index last.old k) }
{
    match op {
        Op::Store(store) => {
            if number <= crash.persisted_to(line_of(format, store.addr())) {
                note_store(last, first, store, number);
            }
        }
        Op::Clwb(_)
        | Op::ClflushOpt(_)
        | Op::Clflush(_)
        | Op::Sfence
        | Op::Mfence
        | Op::IsPersist(_)
        | Op::IsOrderedBefore(_, _) => {}
    }
}
