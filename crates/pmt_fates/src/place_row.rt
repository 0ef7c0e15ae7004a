//! What a place of the source has.

ghost use Rattle.std.specs.Prelude.{◌≡◌};
ghost use Rattle.pmt_fates.specs.Places.{row_at as row_with};

use crate::saved_before::SavedBefore;
use pmt_causes::Origin;

/// What becomes of what one place of the source stores, flushes and fences.
#[derive(Clone, Copy)]
pub struct PlaceRow {
    /// The place: the label of its events, by the number that the caller gave it, or the thread of those without one.
    pub place: Origin,
    /// The number of its first event.
    pub first: u64,
    /// How many of its events are stores: `lost`, `ignored`, `late` and `in_time` together.
    pub stores: u64,
    /// How many of these are told as never persisted.
    pub lost: u64,
    /// How many are never persisted, and left out.
    pub ignored: u64,
    /// How many are persisted, but only after two fences or more of their own thread.
    pub late: u64,
    /// How many are persisted sooner.
    pub in_time: u64,
    /// How many of these a fence of their own thread leaves unsafe before.
    pub left: u64,
    /// How many of its events are clwb, clflushopt or clflush.
    pub flushes: u64,
    /// How many of these do nothing.
    pub idle_flushes: u64,
    /// How many of its events are sfence or mfence.
    pub fences: u64,
    /// How many of these do nothing.
    pub idle_fences: u64,
    /// The first store that is told as never persisted.
    pub first_lost: Option<u64>,
    /// The first store that is late.
    pub first_late: Option<u64>,
    /// The last store that is told as never persisted, or late.
    pub last_missed: Option<u64>,
    /// The first store in time that a fence of its own thread leaves unsafe before.
    pub first_left: Option<u64>,
    /// What a crash right after that fence keeps, though it can lose that store.
    pub saved_before: Option<SavedBefore>,
}

// The row of the place with this first event, before any is counted.
pub(crate) fn row_at(place: Origin, first: u64) -> PlaceRow
    ensures { result ≡ row_with place first }
{
    PlaceRow {
        place,
        first,
        stores: 0,
        lost: 0,
        ignored: 0,
        late: 0,
        in_time: 0,
        left: 0,
        flushes: 0,
        idle_flushes: 0,
        fences: 0,
        idle_fences: 0,
        first_lost: None,
        first_late: None,
        last_missed: None,
        first_left: None,
        saved_before: None,
    }
}
