//! Why each dropped flush or fence is dropped.

ghost use Rattle.std.specs.Prelude.{◌≡◌, ◌+◌, ◌<◌, ◌^◌, if◌then◌else◌, IfOk, IfSome, OnOk};
ghost use Rattle.pmt_model.specs.Keeping.{IsKeep};
ghost use Rattle.pmt_explain.specs.Following.{AreNextFlushes, AreOwnFences, IsUpcoming};
ghost use Rattle.pmt_explain.specs.Dropping.{AreDropped, has_at as stands_at, with_listed};

use crate::behind::Behind;
use crate::dropped_event::Dropped;
use crate::saving::SafePlaces;
use crate::upcoming::{Upcoming, upcoming_of};
use pmt_model::{OutOfMemory, Selection};
use pmt_reasons::Reason;
use std::alloc::Global;

/// The flushes, clflushes and fences of the trace that are dropped, by rising numbers, each with the reason why; `kept` has the events that
/// are not dropped, and `upcoming` what comes next after each event, if that is known.
///
/// It takes a look at each event if one is dropped, and one more at each flush of the line between a dropped flush and the next one of its
/// thread; and what `upcoming_of` takes, if that is not known.
///
/// # Errors
/// Where memory was refused.
pub fn dropped_events(
    alloc: Global,
    safe: &SafePlaces<'_>,
    kept: &Selection,
    upcoming: &Option<Upcoming>,
) -> Result<Vec<Dropped>, OutOfMemory>
    requires kept { IsKeep safe.now.trace.now kept.now }
    requires upcoming { IfSome upcoming.now (IsUpcoming safe.now.trace.now) }
    ensures { IfOk result (λ list. AreDropped safe.now.trace.now list.items) }
{
    let trace = safe.trace();
    let kept = kept.numbers();
    let count = kept.len();
    let events = trace.len();
    if count == events {
        return Ok(Vec::new(alloc));
    }
    match upcoming {
        Some(upcoming) => dropped_by(alloc, safe, kept, upcoming),
        None => {
            let upcoming = upcoming_of(alloc, trace)?;
            dropped_by(alloc, safe, kept, &upcoming)
        }
    }
}

// The events that are dropped, where this comes next after each event.
fn dropped_by(
    alloc: Global,
    safe: &SafePlaces<'_>,
    kept: &[u64],
    upcoming: &Upcoming,
) -> Result<Vec<Dropped>, OutOfMemory>
    requires kept { IsKeep safe.now.trace.now kept.now }
    requires upcoming { IsUpcoming safe.now.trace.now upcoming.now }
    ensures { IfOk result (λ list. AreDropped safe.now.trace.now list.items) }
{
    let fences = upcoming.fences.as_slice();
    let flushes = upcoming.flushes.as_slice();
    dropped_before(alloc, safe, kept, fences, flushes)
}

// Whether the number stands in the list at the place.
fn has_at(list: &[u64], place: usize, number: u64) -> bool
    ensures { result ≡ stands_at list.now place number }
{
    match list.get(place) {
        None => false,
        Some(other) => *other == number,
    }
}

// The next place, where the number stands at this one.
fn past(place: usize, stands: bool) -> usize
    requires { place < 2 ^ 63 }
    ensures { result ≡ (if stands then place + 1 else place) }
{
    if stands { place + 1 } else { place }
}

// The events that are dropped, where these are the next fences and flushes.
fn dropped_before(
    alloc: Global,
    safe: &SafePlaces<'_>,
    kept: &[u64],
    fences: &[u64],
    flushes: &[u64],
) -> Result<Vec<Dropped>, OutOfMemory>
    requires kept { IsKeep safe.now.trace.now kept.now }
    requires fences { AreOwnFences safe.now.trace.now fences.now }
    requires flushes { AreNextFlushes safe.now.trace.now flushes.now }
    ensures { IfOk result (λ list. AreDropped safe.now.trace.now list.items) }
{
    let trace = safe.trace();
    let places = safe.places();
    let events = trace.events();
    let mut behind = Behind::new(alloc, trace)?;
    let mut list = Vec::new(alloc);
    let mut place = 0;
    for index in 0..events.len() {
        let event = events[index];
        let fence = fences[index];
        let flush = flushes[index];
        let safe_from = places[index];
        let number = index as u64 + 1;
        let is_kept = has_at(kept, place, number);
        let reason = behind.reason(
            trace,
            flushes,
            fence,
            event.thread,
            event.op,
            number,
            is_kept,
        );
        behind.go_on(event.thread, event.op, number, flush, safe_from);
        place = past(place, is_kept);
        list_event(&mut list, number, reason)?;
    }
    Ok(list)
}

// Lists the event with this number, if there is a reason.
fn list_event(
    list: &mut Vec<Dropped>,
    number: u64,
    reason: Option<Reason>,
) -> Result<(), OutOfMemory>
    ensures { OnOk result (list.new.items ≡ with_listed number reason list.old.items) }
{
    match reason {
        None => Ok(()),
        Some(reason) => {
            list.push(Dropped {
                event: number,
                reason,
            })?;
            Ok(())
        }
    }
}
