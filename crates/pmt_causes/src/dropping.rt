//! What is dropped, in groups.

ghost use Rattle.std.specs.Prelude.{◌≡◌, IfOk};
ghost use Rattle.std.specs.List.{filter_map};
ghost use Rattle.pmt_causes.specs.Groups.{AreGrouped};
ghost use Rattle.pmt_causes.specs.Dropped.{dropped_item, kind_of as kind_in, op_key as key_in, key_of_parts, flush_spot as flush_spot_in, fence_spot as fence_spot_in};

use crate::grouping::{Group, Keyed, in_order, put};
use crate::labels::label_of;
use indexmap::IndexMap;
use pmt_explain::Dropped;
use pmt_model::{Format, Op, OutOfMemory, Trace, line_of};
use pmt_reasons::Reason;
use std::alloc::Global;

/// Where a flush or a fence stands.
#[derive(Clone, Copy, PartialEq, Eq, Hash)]
pub enum Spot {
    /// At the place in the program with this label, by its number.
    Label(u64),
    /// A flush without label: its thread and line.
    Line { thread: u8, line: u64 },
    /// A fence without label: its thread.
    Thread(u8),
}

/// The word of a flush or a fence.
#[derive(Clone, Copy, PartialEq, Eq, Hash)]
pub enum DropWord {
    Clwb,
    ClflushOpt,
    Clflush,
    Sfence,
    Mfence,
}

/// Why a flush or a fence is dropped, without the event that does so.
#[derive(Clone, Copy, PartialEq, Eq, Hash)]
pub enum ReasonKind {
    Safe,
    Unfenced,
    Repeated,
    Overtaken,
    Empty,
    Useless,
}

/// What dropped events of one group have in common.
#[derive(Clone, Copy, PartialEq, Eq, Hash)]
pub struct DroppedKey {
    /// Where they stand.
    pub spot: Spot,
    /// Their word.
    pub word: DropWord,
    /// Why they are dropped.
    pub reason: ReasonKind,
}

/// These dropped events in groups by their keys, those with most members first, and of as many members that with the lowest first
/// one. Events that are no flush or fence of the trace are in no group.
///
/// # Errors
/// Where memory was refused.
pub fn dropped_groups(
    alloc: Global,
    trace: &Trace,
    labels: &[Option<u64>],
    dropped: &[Dropped],
) -> Result<Vec<Group<DroppedKey>>, OutOfMemory>
    ensures { IfOk result (λ gs. AreGrouped (filter_map (dropped_item trace.now labels.now) dropped.now) gs.items) }
{
    let mut places = IndexMap::new(alloc);
    let mut groups = Vec::new(alloc);
    let mut last = 0;
    for entry in dropped {
        let Some(item) = item_of(trace, labels, *entry) else {
            continue;
        };
        last = put(alloc, &mut groups, &mut places, item, last, dropped.len())?;
    }
    in_order(groups)
}

// The event with its key.
fn item_of(trace: &Trace, labels: &[Option<u64>], entry: Dropped) -> Option<Keyed<DroppedKey>>
    ensures { result ≡ dropped_item trace.now labels.now entry }
{
    let event = trace.get(entry.event)?;
    let label = label_of(labels, entry.event);
    let reason = kind_of(entry.reason);
    let key = key_of(trace.format(), event.thread, event.op, label, reason)?;
    Some(Keyed {
        key,
        number: entry.event,
    })
}

// The key of an op that is dropped for this reason.
fn key_of(
    format: Format,
    thread: u8,
    op: Op,
    label: Option<u64>,
    reason: ReasonKind,
) -> Option<DroppedKey>
    ensures { result ≡ key_in format thread label reason op }
{
    match op {
        Op::Clwb(addr) => {
            let spot = flush_spot(label, thread, line_of(format, addr));
            Some(key_with(spot, DropWord::Clwb, reason))
        }
        Op::ClflushOpt(addr) => {
            let spot = flush_spot(label, thread, line_of(format, addr));
            Some(key_with(spot, DropWord::ClflushOpt, reason))
        }
        Op::Clflush(addr) => {
            let spot = flush_spot(label, thread, line_of(format, addr));
            Some(key_with(spot, DropWord::Clflush, reason))
        }
        Op::Sfence => Some(key_with(fence_spot(label, thread), DropWord::Sfence, reason)),
        Op::Mfence => Some(key_with(fence_spot(label, thread), DropWord::Mfence, reason)),
        Op::Store(_) | Op::IsPersist(_) | Op::IsOrderedBefore(_, _) => None,
    }
}

// A key of these parts.
fn key_with(spot: Spot, word: DropWord, reason: ReasonKind) -> DroppedKey
    ensures { result ≡ key_of_parts spot word reason }
{
    DroppedKey { spot, word, reason }
}

// Where a flush of the line by the thread stands.
fn flush_spot(label: Option<u64>, thread: u8, line: u64) -> Spot
    ensures { result ≡ flush_spot_in label thread line }
{
    match label {
        Some(label) => Spot::Label(label),
        None => Spot::Line { thread, line },
    }
}

// Where a fence by the thread stands.
fn fence_spot(label: Option<u64>, thread: u8) -> Spot
    ensures { result ≡ fence_spot_in label thread }
{
    match label {
        Some(label) => Spot::Label(label),
        None => Spot::Thread(thread),
    }
}

// The kind of the reason.
fn kind_of(reason: Reason) -> ReasonKind
    ensures { result ≡ kind_in reason }
{
    match reason {
        Reason::Safe => ReasonKind::Safe,
        Reason::Unfenced => ReasonKind::Unfenced,
        Reason::Repeated { by: _ } => ReasonKind::Repeated,
        Reason::Overtaken { by: _ } => ReasonKind::Overtaken,
        Reason::Empty => ReasonKind::Empty,
        Reason::Useless => ReasonKind::Useless,
    }
}
