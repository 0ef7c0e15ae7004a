//! What becomes of each event.

ghost use Rattle.std.specs.Prelude.{◌≡◌, length, map, IfOk};
ghost use Rattle.pmt_explain.specs.Dropping.{event_of};
ghost use Rattle.pmt_explain.specs.Following.{AreSafePlaces};
ghost use Rattle.pmt_causes.specs.Late.{AreWaited};
ghost use Rattle.pmt_fates.specs.Fates.{AreFates, fence_fate as fence_fate_in, flush_fate as flush_fate_in, op_fate, store_fate as store_fate_in};

use crate::marking::{dropped_marks, marks};
use pmt_explain::Dropped;
use pmt_model::{Op, OutOfMemory, Trace};
use std::alloc::Global;

// What becomes of an event.
#[derive(Clone, Copy)]
pub(crate) enum Fate {
    // A store that is told as never persisted.
    Lost,
    // A store that is never persisted and left out.
    Ignored,
    // A store that is persisted, after two fences or more of its own thread.
    Late,
    // A store that is persisted, after one fence of its own thread that leaves it unsafe.
    Left,
    // A store that is persisted sooner.
    InTime,
    // A clwb, clflushopt or clflush that does something.
    Flush,
    // One that does nothing.
    IdleFlush,
    // An sfence or mfence that does something.
    Fence,
    // One that does nothing.
    IdleFence,
    // An assertion.
    Claim,
}

// What becomes of each event, where these stores are told as never persisted, these events are dropped, and each event waits for so many
// fences.
#[inline(never)]
pub(crate) fn fates_of(
    alloc: Global,
    trace: &Trace,
    safe: &[u64],
    waited: &[u64],
    told: &[u64],
    dropped: &[Dropped],
) -> Result<Vec<Fate>, OutOfMemory>
    requires safe { AreSafePlaces trace.now safe.now }
    requires waited { AreWaited trace.now waited.now }
    ensures { IfOk result (λ fates. AreFates trace.now told.now (map event_of dropped.now) fates.items) }
{
    let events = trace.events();
    let is_told = marks(alloc, events.len(), told)?;
    let is_dropped = dropped_marks(alloc, events.len(), dropped)?;
    let mut fates = Vec::with_capacity(alloc, events.len())?;
    for index in 0..events.len() {
        let event = events[index];
        let lost = is_told[index];
        let idle = is_dropped[index];
        let fate = fate_of(
            event.op,
            lost,
            idle,
            events.len() as u64,
            safe[index],
            waited[index],
        );
        fates.push(fate)?;
    }
    Ok(fates)
}

// What becomes of an op of a trace with so many events.
fn fate_of(op: Op, is_told: bool, is_dropped: bool, events: u64, safe: u64, waited: u64) -> Fate
    ensures { result ≡ op_fate op is_told is_dropped events safe waited }
{
    match op {
        Op::Store(_) => store_fate(is_told, events, safe, waited),
        Op::Clwb(_) | Op::ClflushOpt(_) | Op::Clflush(_) => flush_fate(is_dropped),
        Op::Sfence | Op::Mfence => fence_fate(is_dropped),
        Op::IsPersist(_) | Op::IsOrderedBefore(_, _) => Fate::Claim,
    }
}

// What becomes of a store.
fn store_fate(is_told: bool, events: u64, safe: u64, waited: u64) -> Fate
    ensures { result ≡ store_fate_in is_told events safe waited }
{
    if is_told {
        Fate::Lost
    } else if events < safe {
        Fate::Ignored
    } else if waited >= 2 {
        Fate::Late
    } else if waited >= 1 {
        Fate::Left
    } else {
        Fate::InTime
    }
}

// What becomes of a flush.
fn flush_fate(is_dropped: bool) -> Fate
    ensures { result ≡ flush_fate_in is_dropped }
{
    if is_dropped {
        Fate::IdleFlush
    } else {
        Fate::Flush
    }
}

// What becomes of a fence.
fn fence_fate(is_dropped: bool) -> Fate
    ensures { result ≡ fence_fate_in is_dropped }
{
    if is_dropped {
        Fate::IdleFence
    } else {
        Fate::Fence
    }
}
