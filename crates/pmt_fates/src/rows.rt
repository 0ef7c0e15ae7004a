//! The rows of all places, event by event.

ghost use Rattle.std.specs.Prelude.{◌≡◌, None, length, IfOk};
ghost use Rattle.pmt_causes.specs.Groups.{origin_of as origin_in};
ghost use Rattle.pmt_fates.specs.Places.{place_items, AreRows, Finds, row_place};
ghost use Rattle.pmt_fates.specs.Fates.{saved_by};

use crate::fate::Fate;
use crate::place_row::{PlaceRow, row_at};
use crate::row_places::RowPlaces;
use crate::saved_before::Savings;
use crate::tally::add;
use pmt_causes::{Origin, origin_of};
use pmt_model::{OutOfMemory, Trace};
use std::alloc::Global;

// A row for each place of the trace in the order of their first events, where this becomes of each event, and where these are the safe
// places.
#[inline(never)]
pub(crate) fn rows_of(
    alloc: Global,
    trace: &Trace,
    labels: &[Option<u64>],
    fates: &[Fate],
    safe: &[u64],
    savings: &Savings,
) -> Result<Vec<PlaceRow>, OutOfMemory>
    requires { length fates.now ≡ length trace.now.events }
    ensures { IfOk result (λ rows. AreRows (place_items trace.now labels.now (length trace.now.events)) fates.now (saved_by safe.now savings.now) rows.items) }
{
    let events = trace.events();
    let mut places = RowPlaces::new(alloc, labels)?;
    let mut rows = Vec::new(alloc);
    for index in 0..events.len() {
        let number = index as u64 + 1;
        let event = events[index];
        let row = find(&mut rows, &mut places, labels, number, event.thread)?;
        add(&mut rows[row], number, fates[index], safe, savings);
    }
    Ok(rows)
}

// Where the row of the place stands that the thread's event with this number comes from. It is made if it is not there: the event is then
// its first one.
#[inline(always)]
fn find(
    rows: &mut Vec<PlaceRow>,
    places: &mut RowPlaces,
    labels: &[Option<u64>],
    number: u64,
    thread: u8,
) -> Result<usize, OutOfMemory>
    ensures { IfOk result (Finds (origin_in labels.now number thread) number rows.old.items (row_place places.old) rows.new.items (row_place places.new)) }
{
    match places.get(origin_of(labels, number, thread)) {
        Some(found) => Ok(found),
        None => {
            let place = origin_of(labels, number, thread);
            add_row(rows, places, place, number)
        }
    }
}

// Makes the row of the place, which has none.
#[inline(never)]
fn add_row(
    rows: &mut Vec<PlaceRow>,
    places: &mut RowPlaces,
    place: Origin,
    number: u64,
) -> Result<usize, OutOfMemory>
    requires { row_place places.old place ≡ None }
    ensures { IfOk result (Finds place number rows.old.items (row_place places.old) rows.new.items (row_place places.new)) }
{
    let end = rows.len();
    rows.push(row_at(place, number))?;
    places.set(place, end + 1)?;
    Ok(end)
}
