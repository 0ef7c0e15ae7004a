//! What places pay for their flushes and fences.

ghost use Rattle.std.specs.Prelude.{◌≡◌, OnOk};
ghost use Rattle.pmt_fates.specs.Counting.{AreInOrder, cost_in, less, paid, wasted};

use crate::PlaceRow;
use pmt_model::OutOfMemory;

/// What a place pays for its flushes and fences.
#[derive(Clone, Copy)]
pub struct Cost {
    /// Its flushes: clwb, clflushopt and clflush.
    pub flushes: u64,
    /// Those of them that do nothing.
    pub idle_flushes: u64,
    /// Its fences: sfence and mfence.
    pub fences: u64,
    /// Those of them that do nothing.
    pub idle_fences: u64,
}

/// What the place of the row pays.
pub fn cost_of(row: &PlaceRow) -> Cost
    ensures { result ≡ cost_in row.now }
{
    Cost {
        flushes: row.flushes,
        idle_flushes: row.idle_flushes,
        fences: row.fences,
        idle_fences: row.idle_fences,
    }
}

/// A place, and what it pays.
#[derive(Drop)]
pub struct PlaceCost {
    /// What the place is called.
    pub name: String,
    /// What it pays.
    pub cost: Cost,
}

/// Puts the places with most that does nothing first, and of those with as much those that pay most.
///
/// # Errors
/// Where memory was refused.
pub fn sort_places(places: &mut Vec<PlaceCost>) -> Result<(), OutOfMemory>
    ensures { OnOk result (AreInOrder places.old.items places.new.items) }
{
    places.sort_by_key(|place| less_paid(place))?;
    places.sort_by_key(|place| less_wasted(place))?;
    Ok(())
}

// Less for more flushes and fences.
fn less_paid(place: &PlaceCost) -> u128
    ensures { result ≡ less (paid place.now) }
{
    (1 << 65) - (place.cost.flushes as u128 + place.cost.fences as u128)
}

// Less for more flushes and fences that do nothing.
fn less_wasted(place: &PlaceCost) -> u128
    ensures { result ≡ less (wasted place.now) }
{
    (1 << 65) - (place.cost.idle_flushes as u128 + place.cost.idle_fences as u128)
}
