//! What is never persisted, in groups by cause.

ghost use Rattle.std.specs.Prelude.{◌≡◌, IfOk};
ghost use Rattle.std.specs.List.{filter_map};
ghost use Rattle.pmt_causes.specs.Groups.{kind_of as kind_in, AreGrouped, lost_item};

use crate::failure_keys::{CauseKind, Origin, origin_of};
use crate::grouping::{Group, Keyed, groups};
use pmt_explain::LostGroup;
use pmt_model::{OutOfMemory, Trace};
use pmt_reasons::Cause;
use std::alloc::Global;

/// What stores that are never persisted have in common, whichever lines they are to.
#[derive(Clone, Copy, PartialEq, Eq, Hash)]
pub struct LostKey {
    /// The kind of the cause for which they are lost.
    pub cause: CauseKind,
    /// Whence the last one to its line comes.
    pub origin: Origin,
}

/// The stores that are never persisted by what they have in common, where `lost` has them by line and cause. A member is the number
/// of the first store to its line. The groups with most members come first, and of as many that with the lowest first one. Stores of
/// which the last one is no event of the trace are in no group. `labels` are the numbers of the labels of the events, in order; an
/// event past their end has none.
///
/// # Errors
/// Where memory was refused.
pub fn lost_causes(
    alloc: Global,
    trace: &Trace,
    labels: &[Option<u64>],
    lost: &[LostGroup],
) -> Result<Vec<Group<LostKey>>, OutOfMemory>
    ensures { IfOk result (λ gs. AreGrouped (filter_map (lost_item trace.now labels.now) lost.now) gs.items) }
{
    let items = lost_items(alloc, trace, labels, lost)?;
    groups(alloc, items.as_slice())
}

// These stores with their keys.
fn lost_items(
    alloc: Global,
    trace: &Trace,
    labels: &[Option<u64>],
    lost: &[LostGroup],
) -> Result<Vec<Keyed<LostKey>>, OutOfMemory>
    ensures { IfOk result (λ items. items.items ≡ filter_map (lost_item trace.now labels.now) lost.now) }
{
    lost.iter()
        .filter_map(|group| item_of(trace, labels, *group))
        .collect(alloc)
}

// These stores with their key.
fn item_of(trace: &Trace, labels: &[Option<u64>], group: LostGroup) -> Option<Keyed<LostKey>>
    ensures { result ≡ lost_item trace.now labels.now group }
{
    let Some(event) = trace.get(group.last) else {
        return None;
    };
    let cause = kind_of(group.cause);
    let origin = origin_of(labels, group.last, event.thread);
    Some(Keyed {
        key: LostKey { cause, origin },
        number: group.first,
    })
}

// The kind of the cause.
fn kind_of(cause: Cause) -> CauseKind
    ensures { result ≡ kind_in cause }
{
    match cause {
        Cause::Later => CauseKind::Later,
        Cause::Unflushed => CauseKind::Unflushed,
        Cause::Unfenced {
            flush: _,
            thread: _,
            other: _,
        } => CauseKind::Unfenced,
    }
}
