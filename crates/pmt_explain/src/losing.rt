//! All last stores to bytes of a range that a crash loses.

ghost use Rattle.std.specs.Prelude.{◌≡◌, ◌≤◌, if◌then◌else◌, [], ◌∷◌, ◌++◌, length, IfOk, OnOk};
ghost use Rattle.pmt_explain.specs.Crashes.{full_line, AreLostAmong, AreLostIn};
ghost use Rattle.pmt_explain.specs.Following.{AreSafePlaces};

use crate::crash::full_line_of;
use crate::last_stores::last_stores;
use crate::lost::is_lost;
use crate::saving::safe_places;
use pmt_model::{OutOfMemory, Range, Trace};
use pmt_reasons::Failure;
use std::alloc::Global;

/// The stores that the crash of the failure loses, of those that are the last ones to bytes of the range by the event with this
/// number: by rising number, each once.
///
/// The failure and the number may be any: a place or number after the last event counts as that of the last event, and a kept
/// event that is no store as none.
///
/// # Errors
/// Where memory was refused.
pub fn lost_in_range(
    alloc: Global,
    trace: &Trace,
    failure: &Failure,
    range: Range,
    number: u64,
) -> Result<Vec<u64>, OutOfMemory>
    ensures { IfOk result (λ stores. AreLostIn trace.now number range failure.now.place (full_line trace.now failure.now.kept) stores.items) }
{
    let end = trace.len() as u64;
    let place = failure.place.min(end);
    let full = full_line_of(trace, failure.kept);
    let safe = safe_places(alloc, trace)?;
    let last = last_stores(alloc, trace, range, number.min(end))?;
    let mut lost = lost_among(alloc, trace, safe.as_slice(), place, full, last.as_slice())?;
    lost.sort_unstable();
    lost.dedup();
    Ok(lost)
}

// Those of the stores that the crash at the place loses, with all stores to the full line.
fn lost_among(
    alloc: Global,
    trace: &Trace,
    safe: &[u64],
    place: u64,
    full: Option<u64>,
    last: &[u64],
) -> Result<Vec<u64>, OutOfMemory>
    requires safe { AreSafePlaces trace.now safe.now }
    requires place { place ≤ length trace.now.events }
    ensures { IfOk result (λ lost. AreLostAmong trace.now place full last.now (length last.now) lost.items) }
{
    let mut lost = Vec::new(alloc);
    for store in last {
        push_if(&mut lost, *store, is_lost(trace, safe, place, full, *store))?;
    }
    Ok(lost)
}

// Adds the store, if it is lost.
fn push_if(lost: &mut Vec<u64>, store: u64, is_lost: bool) -> Result<(), OutOfMemory>
    ensures { OnOk result (lost.new.items ≡ (if is_lost then lost.old.items ++ store ∷ [] else lost.old.items)) }
{
    if !is_lost {
        return Ok(());
    }
    lost.push(store)?;
    Ok(())
}
