//! Sites that miss a minority of their stores, by whole call paths.

ghost use Rattle.std.specs.Prelude.{◌≡◌, IfOk};
ghost use Rattle.pmt_fates.specs.Places.{misses as misses_in};
ghost use Rattle.pmt_entries.specs.Sites.{is_mixed as is_mixed_in, misses_few as misses_few_in, mixed_paths as mixed_paths_in};

use pmt_fates::PlaceRow;
use pmt_model::OutOfMemory;
use std::alloc::Global;

// Whether the site or path loses or delays a store.
pub(crate) fn misses(row: &PlaceRow) -> bool
    ensures { result ≡ misses_in row.now }
{
    0 < row.lost || 0 < row.late
}

// Whether fewer than half of the stores of the site are lost or late.
pub(crate) fn misses_few(row: &PlaceRow) -> bool
    ensures { result ≡ misses_few_in row.now }
{
    let missed = row.lost as u128 + row.late as u128;
    2 * missed < row.stores.saturating_sub(row.ignored) as u128
}

// The first events of the paths by which some stores are lost or late and others are in time.
pub(crate) fn mixed_paths(alloc: Global, paths: &[PlaceRow]) -> Result<Vec<u64>, OutOfMemory>
    ensures { IfOk result (λ found. found.items ≡ mixed_paths_in paths.now) }
{
    paths
        .iter()
        .filter(|row| is_mixed(*row))
        .map(|row| row.first)
        .collect(alloc)
}

// Whether some stores of the path are lost or late and others are in time.
fn is_mixed(row: &PlaceRow) -> bool
    ensures { result ≡ is_mixed_in row.now }
{
    misses(row) && 0 < row.in_time
}
