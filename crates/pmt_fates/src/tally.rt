//! One more event in the row of its place.

ghost use Rattle.std.specs.Prelude.{◌≡◌, true};
ghost use Rattle.pmt_fates.specs.Fates.{saved_by};
ghost use Rattle.pmt_fates.specs.Places.{AreSmall, else_first, else_saved, with_fate};

use crate::fate::Fate;
use crate::place_row::PlaceRow;
use crate::saved_before::{SavedBefore, Savings, saved_before};

// With one more event after the others, where these are the safe places.
#[inline(always)]
pub(crate) fn add(row: &mut PlaceRow, number: u64, fate: Fate, safe: &[u64], savings: &Savings)
    requires { AreSmall row.old }
    ensures { row.new ≡ with_fate (saved_by safe.now savings.now) number fate row.old }
{
    match fate {
        Fate::Lost => {
            row.stores += 1;
            row.lost += 1;
            row.first_lost = first_of(row.first_lost, number);
            row.last_missed = Some(number);
        }
        Fate::Ignored => {
            row.stores += 1;
            row.ignored += 1;
        }
        Fate::Late => {
            row.stores += 1;
            row.late += 1;
            row.first_late = first_of(row.first_late, number);
            row.last_missed = Some(number);
        }
        Fate::Left => {
            row.stores += 1;
            row.in_time += 1;
            row.left += 1;
            row.saved_before = saved_with(row.first_left, row.saved_before, number, safe, savings);
            row.first_left = first_of(row.first_left, number);
        }
        Fate::InTime => {
            row.stores += 1;
            row.in_time += 1;
        }
        Fate::Flush => row.flushes += 1,
        Fate::IdleFlush => {
            row.flushes += 1;
            row.idle_flushes += 1;
        }
        Fate::Fence => row.fences += 1,
        Fate::IdleFence => {
            row.fences += 1;
            row.idle_fences += 1;
        }
        Fate::Claim => {}
    }
}

// The first one, or this one, where there was none.
fn first_of(first: Option<u64>, number: u64) -> Option<u64>
    ensures { result ≡ else_first true number first }
{
    match first {
        None => Some(number),
        Some(_) => first,
    }
}

// What a crash keeps without the first one, or without this one, where there was none.
fn saved_with(
    first: Option<u64>,
    before: Option<SavedBefore>,
    number: u64,
    safe: &[u64],
    savings: &Savings,
) -> Option<SavedBefore>
    ensures { result ≡ else_saved (saved_by safe.now savings.now) true number first before }
{
    match first {
        None => saved_before(safe, savings, number),
        Some(_) => before,
    }
}
