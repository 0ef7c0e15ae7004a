//! Sites and call paths each of whose stores is saved one fence late.

ghost use Rattle.std.specs.Prelude.{◌≡◌, IfOk, filter, map};
ghost use Rattle.std.specs.HashSet.{IsFromIterResult};
ghost use Rattle.std.specs.List.{enumerate_from};
ghost use Rattle.pmt_fates.specs.Places.{same_place};
ghost use Rattle.pmt_entries.specs.Entries.{is_left as is_left_in, is_path_told, is_told, left_entry, left_path_entry};

use crate::entries::{Entry, Subject};
use crate::place_sets::{Places, place_of};
use crate::weight::Weight;
use pmt_fates::{LEAST_EVENTS, PlaceRow};
use pmt_hints::Hint;
use pmt_model::{OutOfMemory, Trace};
use std::alloc::Global;

// An entry for each of these rows of sites each of whose stores one fence leaves unsafe, where a crash keeps something later without one of
// them, and none of these hints is of the site.
pub(crate) fn left_entries(
    alloc: Global,
    hints: &[Hint],
    places: &[PlaceRow],
) -> Result<Vec<Entry>, OutOfMemory>
    ensures { IfOk result (λ entries. entries.items ≡ map left_entry (filter (is_told hints.now) (enumerate_from 0 places.now))) }
{
    let hinted = hinted_places(alloc, hints)?;
    places
        .iter()
        .enumerate()
        .filter(|(_, row)| is_left(row) && !hinted.contains(&row.place))
        .map(|(index, _)| Entry {
            weight: Weight::Check,
            subject: Subject::Left(index as u64),
        })
        .collect(alloc)
}

// An entry for each of these rows of call paths, of whose site none of these hints is.
pub(crate) fn left_path_entries(
    alloc: Global,
    trace: &Trace,
    frames: &[Option<u64>],
    hints: &[Hint],
    paths: &[PlaceRow],
) -> Result<Vec<Entry>, OutOfMemory>
    ensures { IfOk result (λ entries. entries.items ≡ map left_path_entry (filter (is_path_told trace.now frames.now hints.now) (enumerate_from 0 paths.now))) }
{
    let hinted = hinted_places(alloc, hints)?;
    paths
        .iter()
        .enumerate()
        .filter(|(_, row)| !hinted.contains(&place_of(trace, frames, row.first)))
        .map(|(index, _)| Entry {
            weight: Weight::Check,
            subject: Subject::LeftPath(index as u64),
        })
        .collect(alloc)
}

// The places of these hints.
fn hinted_places(alloc: Global, hints: &[Hint]) -> Result<Places, OutOfMemory>
    ensures { IfOk result (IsFromIterResult same_place (map (λ hint. hint.place) hints.now)) }
{
    hints.iter().map(|hint| hint.place).collect(alloc)
}

// Whether one fence of its thread leaves each store of the site unsafe, of three or more, and a crash then keeps something later.
fn is_left(row: &PlaceRow) -> bool
    ensures { result ≡ is_left_in row.now }
{
    LEAST_EVENTS <= row.left
        && row.left == row.in_time
        && row.lost == 0
        && row.late == 0
        && row.saved_before.is_some()
}
