//! From which place on each store is safe, as an explanation takes it.
ghost use Rattle.std.specs.Prelude.{◌≡◌, unwrap_or, IfOk};
ghost use Rattle.pmt_sweep.specs.Entries.{AreSafePlaces as AreEntries};
ghost use Rattle.pmt_explain.specs.Following.{AreSafePlaces};

use pmt_model::{OutOfMemory, Trace};
use pmt_sweep::SafePlaces;
use std::alloc::Global;

// Of each event that is a store, in order, the first place from which on every run has it persisted; one more than the last number
// where there is none. Of another event any number.
pub(crate) fn places_of(
    alloc: Global,
    trace: &Trace,
    safe: &SafePlaces,
) -> Result<Vec<u64>, OutOfMemory>
    requires { AreEntries trace.now safe.now }
    ensures { IfOk result (λ places. AreSafePlaces trace.now places.items) }
{
    let past = trace.len() as u64 + 1;
    let mut places = vec![in alloc; past; trace.len()]?;
    for index in 0..places.len() {
        places[index] = place_or(safe.of(index as u32 + 1), past);
    }
    Ok(places)
}

// The place, or the other one where there is none.
fn place_or(place: Option<u32>, other: u64) -> u64
    ensures { result ≡ unwrap_or place other }
{
    match place {
        None => other,
        Some(place) => place as u64,
    }
}
