//! How places stand, and in which order they are told.

ghost use Rattle.std.specs.Prelude.{◌≡◌, ◌+◌, ◌^◌, ◌<◌, ◌≤◌};
ghost use Rattle.pmt_fates.specs.Places.{most as most_in, rank, share, standing, step, weight};

use crate::place_row::PlaceRow;

/// How a place stands by what becomes of its stores, without those that are left out.
#[derive(Clone, Copy)]
pub enum Standing {
    /// Some are never persisted, others are.
    LosesSome,
    /// All are persisted, some of them late.
    DelaysSome,
    /// All are persisted, and all of them late.
    DelaysAll,
    /// All are never persisted.
    LosesAll,
    /// All are persisted in time, or there are none.
    Keeps,
}

/// How the place stands.
pub fn standing_of(row: &PlaceRow) -> Standing
    ensures { result ≡ standing row.now }
{
    let judged = row.stores.saturating_sub(row.ignored);
    if 0 < row.lost {
        if row.lost < judged {
            Standing::LosesSome
        } else {
            Standing::LosesAll
        }
    } else if 0 < row.late {
        if row.late < judged {
            Standing::DelaysSome
        } else {
            Standing::DelaysAll
        }
    } else {
        Standing::Keeps
    }
}

// The rank of the place: the lowest one is told first.
pub(crate) fn rank_of(row: &PlaceRow) -> u128
    ensures { result ≡ rank row.now }
{
    let standing = standing_of(row);
    step_of(standing) * (1 << 96) + weight_of(standing, row)
}

// Where places that stand so are told.
fn step_of(standing: Standing) -> u128
    ensures step { result ≡ step standing }
    ensures small { result ≤ 4 }
{
    match standing {
        Standing::LosesSome => 0,
        Standing::DelaysSome => 1,
        Standing::DelaysAll => 2,
        Standing::LosesAll => 3,
        Standing::Keeps => 4,
    }
}

// The least weight of those that stand so and are told first.
fn weight_of(standing: Standing, row: &PlaceRow) -> u128
    ensures weight { result ≡ weight standing row.now }
    ensures small { result < 2 ^ 96 }
{
    match standing {
        Standing::LosesSome => share_of(row),
        Standing::DelaysSome | Standing::DelaysAll => most(row.late as u128),
        Standing::LosesAll => most(row.lost as u128),
        Standing::Keeps => most(row.idle_flushes as u128 + row.idle_fences as u128),
    }
}

// The share of its stores that it loses, in whole millionths.
fn share_of(row: &PlaceRow) -> u128
    ensures share { result ≡ share row.now }
    ensures small { result < 2 ^ 96 }
{
    let judged = row.stores.saturating_sub(row.ignored);
    if judged == 0 {
        return 0;
    }
    row.lost as u128 * 1_000_000 / judged as u128
}

// Less for more.
fn most(count: u128) -> u128
    requires { count < 2 ^ 96 }
    ensures most { result ≡ most_in count }
    ensures small { result < 2 ^ 96 }
{
    (1 << 96) - 1 - count
}
