//! Findings in groups, by what they have in common.
ghost use Rattle.std.specs.Prelude.{◌≡◌, IfOk, IfSome};
ghost use Rattle.pmt_entries.specs.Prelude.{AreFailureGroups, first_in, AreWaited};
ghost use Rattle.pmt_asked.specs.Choosing.{is_asked_for as asked_for};
ghost use Rattle.pmt_explanation.specs.Prelude.{IsUpcoming};
ghost use Rattle.pmt_explanation.specs.Explaining.{AreAskedLate, first_members as first_members_of};
ghost use Rattle.pmt_asked.specs.declared.choosing.Kind.TheVariants.{Late};

use crate::asking::keep_asked;
use pmt_asked::{Choice, Labels};
use pmt_causes::{FailureKey, Group, LateSpot, LateStores, failure_groups, groups, late_stores};
use pmt_explain::{SafePlaces, Upcoming};
use pmt_model::OutOfMemory;
use std::alloc::Global;

// Those of these events that fail, by cause, where this comes next after each event, if that is known. The trace is looked at only where
// there are any.
pub(crate) fn causes_of(
    alloc: Global,
    safe: &SafePlaces<'_>,
    frames: &[Option<u64>],
    failing: &[u64],
    upcoming: &Option<Upcoming>,
) -> Result<Vec<Group<FailureKey>>, OutOfMemory>
    requires { IfSome upcoming.now (IsUpcoming safe.now.trace.now) }
    ensures { IfOk result (λ groups. AreFailureGroups safe.now.trace.now frames.now failing.now groups.items) }
{
    if failing.is_empty() {
        return Ok(Vec::new(alloc));
    }
    failure_groups(alloc, safe, frames, failing, upcoming)
}

// The first member of each of these groups.
pub(crate) fn first_members<K>(alloc: Global, groups: &[Group<K>]) -> Result<Vec<u64>, OutOfMemory>
    ensures { IfOk result (λ members. members.items ≡ first_members_of groups.now) }
{
    groups.iter().map(|group| first_of(group)).collect(alloc)
}

/// The group's first member, or 0 of none.
pub fn first_of<K>(group: &Group<K>) -> u64
    ensures { result ≡ first_in group.now }
{
    match group.members.first() {
        Some(number) => *number,
        None => 0,
    }
}

/// The late stores that are asked for.
#[derive(Drop)]
pub(crate) struct AskedLate {
    /// For how many fences each event of the trace waits.
    pub(crate) waited: Vec<u64>,
    /// These stores by spot.
    pub(crate) groups: Vec<Group<LateSpot>>,
}

// The late stores that are asked for, by spot, and for how many fences each store of the trace waits.
pub(crate) fn asked_late(
    alloc: Global,
    safe: &SafePlaces<'_>,
    labels: &Labels,
    frames: &[Option<u64>],
    choice: &Choice,
) -> Result<AskedLate, OutOfMemory>
    ensures waited { IfOk result (λ late. AreWaited safe.now.trace.now late.waited.items) }
    ensures groups { IfOk result (λ late. AreAskedLate safe.now.trace.now frames.now (asked_for safe.now.trace.now labels.now choice.now Late) late.groups.items) }
{
    let LateStores {
        waited,
        items: mut late,
    } = late_stores(alloc, safe, frames)?;
    keep_asked(safe.trace(), labels, choice, &mut late);
    let groups = groups(alloc, late.as_slice())?;
    Ok(AskedLate { waited, groups })
}
