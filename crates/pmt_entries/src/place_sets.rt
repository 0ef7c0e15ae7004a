//! Sets of places.

ghost use Rattle.std.specs.Prelude.{◌≡◌, IfOk};
ghost use Rattle.pmt_model.specs.Traces.{event};
ghost use Rattle.pmt_fates.specs.Places.{origin_in};
ghost use Rattle.pmt_entries.specs.Sites.{AreAt};

use pmt_causes::{Origin, origin_of};
use pmt_model::{OutOfMemory, Trace};
use std::alloc::Global;
use std::collections::HashSet;

/// Some places.
pub(crate) type Places = HashSet<Origin>;

// The places of the events with these numbers.
pub(crate) fn places_of(
    alloc: Global,
    trace: &Trace,
    frames: &[Option<u64>],
    numbers: &[u64],
) -> Result<Places, OutOfMemory>
    ensures { IfOk result (AreAt trace.now frames.now numbers.now) }
{
    numbers
        .iter()
        .map(|number| place_of(trace, frames, *number))
        .collect(alloc)
}

// The place of the event with this number.
pub(crate) fn place_of(trace: &Trace, frames: &[Option<u64>], number: u64) -> Origin
    ensures { result ≡ origin_in frames.now number (event trace.now number) }
{
    match trace.get(number) {
        Some(event) => origin_of(frames, number, event.thread),
        None => Origin::Thread(0),
    }
}
