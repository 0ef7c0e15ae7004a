//! Late stores that no assertion claims, and claimed ones.

ghost use Rattle.std.specs.Prelude.{◌≡◌, ◌-◌, true, false, slice_index_or, IfOk};
ghost use Rattle.pmt_laws.specs.Prelude.{list_any, IsVerdicts};
ghost use Rattle.pmt_entries.specs.Sites.{AreAt, AreClaimedIf, is_only_late as is_only_late_in, is_unclaimed as is_unclaimed_in, unclaimed_in};

use crate::place_sets::{Places, places_of};
use pmt_explain::number_of;
use pmt_fates::PlaceRow;
use pmt_hints::claimed_stores;
use pmt_model::{OutOfMemory, Trace, Verdict};
use std::alloc::Global;
use std::collections::HashSet;

// Of each event whether it is a store that an assertion claims. The trace is looked at only where one of these sites is only late.
pub(crate) fn claimed_of(
    alloc: Global,
    trace: &Trace,
    verdicts: &[Verdict],
    rows: &[PlaceRow],
) -> Result<Vec<bool>, OutOfMemory>
    requires { IsVerdicts trace.now verdicts.now }
    ensures { IfOk result (λ claimed. AreClaimedIf trace.now rows.now claimed.items) }
{
    if !is_any_only_late(rows) {
        return Ok(Vec::new(alloc));
    }
    let claimed = claimed_stores(alloc, trace, verdicts)?;
    Ok(claimed)
}

// The sites with a store that two fences or more of its thread leave unsafe, and that no assertion claims. They are looked for only where
// one of the sites with these rows is only late: no other can be claimed.
pub(crate) fn unclaimed_places(
    alloc: Global,
    trace: &Trace,
    frames: &[Option<u64>],
    rows: &[PlaceRow],
    waited: &[u64],
    claimed: &[bool],
) -> Result<Places, OutOfMemory>
    ensures { IfOk result (λ places. list_any is_only_late_in rows.now ≡ true → AreAt trace.now frames.now (unclaimed_in waited.now claimed.now) places) }
{
    if !is_any_only_late(rows) {
        return Ok(HashSet::new(alloc));
    }
    let unclaimed = unclaimed(alloc, waited, claimed)?;
    let places = places_of(alloc, trace, frames, unclaimed.as_slice())?;
    Ok(places)
}

// Whether one of these sites is only late.
fn is_any_only_late(rows: &[PlaceRow]) -> bool
    ensures { result ≡ list_any is_only_late_in rows.now }
{
    rows.iter().any(|row| is_only_late(row))
}

// Whether the site delays a store, and loses none.
fn is_only_late(row: &PlaceRow) -> bool
    ensures { result ≡ is_only_late_in row.now }
{
    row.lost == 0 && 0 < row.late
}

// The events that two fences or more of their thread leave unsafe, and that no assertion claims.
fn unclaimed(alloc: Global, waited: &[u64], claimed: &[bool]) -> Result<Vec<u64>, OutOfMemory>
    ensures { IfOk result (λ found. found.items ≡ unclaimed_in waited.now claimed.now) }
{
    (1..waited.len() as u64 + 1)
        .filter(|number| is_unclaimed(waited, claimed, *number))
        .collect(alloc)
}

// Whether the event is one of them.
fn is_unclaimed(waited: &[u64], claimed: &[bool], number: u64) -> bool
    ensures { result ≡ is_unclaimed_in waited.now claimed.now number }
{
    2 <= number_of(waited, number) && !is_claimed(claimed, number)
}

// Whether the event is claimed.
fn is_claimed(claimed: &[bool], number: u64) -> bool
    ensures { result ≡ slice_index_or claimed.now (number - 1) false }
{
    claimed
        .get(number.saturating_sub(1) as usize)
        .copied()
        .unwrap_or(false)
}
