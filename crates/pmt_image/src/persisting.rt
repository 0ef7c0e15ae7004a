//! The stores that a crash leaves persisted.
ghost use Rattle.std.specs.Prelude.{◌≡◌, ◌+◌, ◌^◌, ◌<◌, ◌≤◌, ℕ, ◌∷◌, List, length, true, reverse, IfOk, IfErr, IfSome, IfNone, OnOk};
ghost use Rattle.pmt_laws.specs.Prelude.{Act, Stores, image_of, writes, act_of, event_limit, history};
ghost use Rattle.pmt_image.specs.declared.persisting.StoreFault.TheVariants.{OutOfMemory};
ghost use Rattle.pmt_image.specs.Crashes.{count_in, persisted_by, AreFound, written_by};
ghost use Rattle.pmt_image.specs.Pools.{AllInside, IsInside, IsFirstOutside, IsOutsideByte, IsOpFault, FindsFault};

use crate::crash::{Crash, StoresByLine, count_of, set_count};
use crate::pool::Pool;
use indexmap::IndexMap;
use pmt_model::{Format, Op, OutOfMemory, Trace, WordStore, line_of};
use std::alloc::{AllocError, Global};

/// Why the stores are not known.
#[derive(Clone, Copy)]
pub(crate) enum StoreFault {
    // This store has a byte outside of the pool, at the address.
    Outside { event: u64, address: u64 },
    OutOfMemory,
}

impl From<AllocError> for StoreFault {
    ghost from_gives = { λ _ error. error ≡ OutOfMemory };

    fn from(_refused: AllocError) -> Self {
        StoreFault::OutOfMemory
    }
}

// The stores that the crash leaves persisted, in their order. All stores before the crash lie in the pool, or the first one that does not is
// told.
pub(crate) fn persisted_stores(
    alloc: Global,
    trace: &Trace,
    crash: &Crash,
    pool: Pool,
) -> Result<Vec<WordStore>, StoreFault>
    requires { pool.origin + pool.size < 2 ^ 63 }
    ensures inside { IfOk result (λ stores. AllInside pool (history trace.now crash.now.place)) }
    ensures image { IfOk result (λ stores. (a : ℕ) → written_by (reverse stores.items) a ≡ image_of (persisted_by crash.now) (history trace.now crash.now.place) a) }
    ensures fault { IfErr result (FindsFault trace.now crash.now.place pool) }
{
    let place = crash.place.min(trace.len() as u64) as usize;
    let format = trace.format();
    let events = trace.events();
    let mut seen = IndexMap::new(alloc);
    let mut stores = Vec::new(alloc);
    for index in 0..place {
        let event = events[index];
        let taken = take_op(
            &mut seen,
            &mut stores,
            &crash.persisted,
            format,
            pool,
            event.op,
            index as u64 + 1,
        );
        match taken {
            Ok(()) => {}
            Err(fault) => return Err(fault),
        }
    }
    Ok(stores)
}

// Takes the op of the event with this number.
fn take_op(
    seen: &mut StoresByLine,
    stores: &mut Vec<WordStore>,
    persisted: &StoresByLine,
    format: Format,
    pool: Pool,
    op: Op,
    number: u64,
) -> Result<(), StoreFault>
    requires few { (l : ℕ) → count_in seen.old l < event_limit }
    requires pool { pool.origin + pool.size < 2 ^ 63 }
    ensures found { OnOk result ((t : ℕ) (h : List Act) → AreFound (count_in persisted.now) h seen.old stores.old.items → AreFound (count_in persisted.now) (act_of format t op ∷ h) seen.new stores.new.items) }
    ensures inside { OnOk result ((t : ℕ) → IsInside pool (act_of format t op)) }
    ensures fault { IfErr result (IsOpFault op pool number) }
{
    match op {
        Op::Store(store) => {
            if let Some(address) = outside_byte(store, pool) {
                return Err(StoreFault::Outside {
                    event: number,
                    address,
                });
            }
            take_store(
                seen,
                stores,
                persisted,
                line_of(format, store.addr()),
                store,
            )?;
            Ok(())
        }
        Op::Clwb(_)
        | Op::ClflushOpt(_)
        | Op::Clflush(_)
        | Op::Sfence
        | Op::Mfence
        | Op::IsPersist(_)
        | Op::IsOrderedBefore(_, _) => Ok(()),
    }
}

// The address of the store's first byte outside of the pool.
fn outside_byte(store: WordStore, pool: Pool) -> Option<u64>
    requires { pool.origin + pool.size < 2 ^ 63 }
    ensures none { IfNone result ((pool.origin ≤ store.addr) × (store.addr + length store.bytes ≤ pool.origin + pool.size)) }
    ensures some { IfSome result (IsOutsideByte store pool) }
{
    let start = store.addr().get();
    let len = store.bytes().len() as u64;
    let end = pool.origin + pool.size;
    if start < pool.origin {
        return Some(start);
    }
    if end < start + len {
        return Some(start.max(end));
    }
    None
}

// Takes a store to the line: so many of its stores were seen before, and if fewer than those that are persisted, this one is.
fn take_store(
    seen: &mut StoresByLine,
    stores: &mut Vec<WordStore>,
    persisted: &StoresByLine,
    line: u64,
    store: WordStore,
) -> Result<(), OutOfMemory>
    requires { count_in seen.old line < event_limit }
    ensures { OnOk result ((h : List Act) → AreFound (count_in persisted.now) h seen.old stores.old.items → AreFound (count_in persisted.now) (Stores line store ∷ h) seen.new stores.new.items) }
{
    let before = count_of(seen, line);
    set_count(seen, line, before + 1)?;
    if before < count_of(persisted, line) {
        stores.push(store)?;
    }
    Ok(())
}
