//! Where call paths are needed beside places; and those whose stores are saved one fence late, in places that save others sooner or later.

ghost use Rattle.std.specs.Prelude.{◌≡◌, ℕ, List, filter, IfOk};
ghost use Rattle.pmt_laws.specs.Prelude.{list_any, event};
ghost use Rattle.pmt_fates.specs.Places.{AreLeftPaths, ArePaths, is_left as is_left_in, is_left_alone as is_left_alone_in, is_left_at as is_left_at_in, is_partly_left as is_partly_left_in, may_differ as may_differ_in, misses as misses_in, needs_paths as needs_paths_in, origin_in};

use crate::place_row::PlaceRow;
use pmt_causes::{Origin, origin_of};
use pmt_model::{OutOfMemory, Trace};
use std::alloc::Global;

/// How many events of one kind at a site or on a path are no chance: fewer are not told by themselves.
pub const LEAST_EVENTS: u64 = 3;

// Whether there are paths, and one of the places misses a store, or has a part that they may tell apart.
pub(crate) fn needs_paths(paths: &[Option<u64>], places: &[PlaceRow]) -> bool
    ensures { result ≡ needs_paths_in paths.now places.now }
{
    !paths.is_empty() && (is_any_missing(places) || is_any_partly_left(places))
}

// Whether one of the places misses a store.
fn is_any_missing(places: &[PlaceRow]) -> bool
    ensures { result ≡ list_any misses_in places.now }
{
    places.iter().any(|row| misses(row))
}

// Whether a store of the place is told as never persisted, or is late.
fn misses(row: &PlaceRow) -> bool
    ensures { result ≡ misses_in row.now }
{
    0 < row.lost || 0 < row.late
}

// Whether there are paths, and one of the places has a part that they may tell apart.
fn may_differ(paths: &[Option<u64>], places: &[PlaceRow]) -> bool
    ensures { result ≡ may_differ_in paths.now places.now }
{
    !paths.is_empty() && is_any_partly_left(places)
}

// Whether one fence leaves a part of the stores of one of the places unsafe.
fn is_any_partly_left(places: &[PlaceRow]) -> bool
    ensures { result ≡ list_any is_partly_left_in places.now }
{
    places.iter().any(|row| is_partly_left(row))
}

// Of the rows of paths, as they are made beside these of places, those that differ from their places.
pub(crate) fn left_paths_of(
    alloc: Global,
    trace: &Trace,
    labels: &[Option<u64>],
    paths: &[Option<u64>],
    places: &[PlaceRow],
    rows: &[PlaceRow],
) -> Result<Vec<PlaceRow>, OutOfMemory>
    ensures { IfOk result (λ found. (told dropped : List ℕ) → ArePaths trace.now paths.now told dropped places.now rows.now → AreLeftPaths trace.now labels.now paths.now told dropped places.now found.items) }
{
    if !may_differ(paths, places) {
        return Ok(Vec::new(alloc));
    }
    left_alone(alloc, trace, labels, places, rows)
}

// Of these rows of paths those of which one fence leaves each store unsafe, of three or more, but not each one of their place.
fn left_alone(
    alloc: Global,
    trace: &Trace,
    labels: &[Option<u64>],
    places: &[PlaceRow],
    rows: &[PlaceRow],
) -> Result<Vec<PlaceRow>, OutOfMemory>
    ensures { IfOk result (λ found. found.items ≡ filter (is_left_alone_in trace.now labels.now places.now) rows.now) }
{
    rows.iter()
        .filter(|row| is_left_alone(trace, labels, places, *row))
        .copied()
        .collect(alloc)
}

// Whether this is the row of such a path.
fn is_left_alone(trace: &Trace, labels: &[Option<u64>], places: &[PlaceRow], row: &PlaceRow) -> bool
    ensures { result ≡ is_left_alone_in trace.now labels.now places.now row.now }
{
    is_left(row)
        && LEAST_EVENTS <= row.left
        && !is_left_at(places, place_of(trace, labels, row.first))
}

// Whether one fence of its thread leaves each store of the place unsafe, and the next one saves it.
fn is_left(row: &PlaceRow) -> bool
    ensures { result ≡ is_left_in row.now }
{
    0 < row.left && row.left == row.in_time && row.lost == 0 && row.late == 0
}

// Whether that is so of a part of them.
fn is_partly_left(row: &PlaceRow) -> bool
    ensures { result ≡ is_partly_left_in row.now }
{
    0 < row.left && !is_left(row)
}

// Whether it is so of all stores of this place, by its row.
fn is_left_at(places: &[PlaceRow], place: Origin) -> bool
    ensures { result ≡ is_left_at_in places.now place }
{
    places.iter().any(|row| row.place == place && is_left(row))
}

// The place of the event with this number.
fn place_of(trace: &Trace, labels: &[Option<u64>], number: u64) -> Origin
    ensures { result ≡ origin_in labels.now number (event trace.now number) }
{
    match trace.get(number) {
        Some(event) => origin_of(labels, number, event.thread),
        None => Origin::Thread(0),
    }
}
