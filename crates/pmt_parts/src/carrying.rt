//! The carry at a place, by one look back at each event before it.

ghost use Rattle.std.specs.Prelude.{◌≡◌, ◌≤◌, min, length, IfOk};
ghost use Rattle.pmt_part_laws.specs.Parts.{IsCarry};
ghost use Rattle.pmt_parts.specs.Meeting.{AreCarried};

use crate::later::Later;
use pmt_model::{OutOfMemory, Selection, Trace};
use pmt_tables::marked_numbers;
use std::alloc::Global;

/// The carry at a place of the trace: the rising numbers of the stores that are pending there, and of the last flush of each line by each
/// thread that has not fenced since. A place past the last event is the end of the trace.
///
/// It takes one look at each event up to the place, a byte for each of them, and a few words for each line that is flushed.
///
/// # Errors
/// Where memory was refused.
pub fn carry_at(alloc: Global, trace: &Trace, place: u64) -> Result<Selection, OutOfMemory>
    ensures { IfOk result (IsCarry trace.now place) }
{
    let last = at_most(place, trace.len());
    let carried = carried_flags(alloc, trace, last)?;
    let numbers = marked_numbers(alloc, carried.as_slice())?;
    Ok(numbers)
}

// The place, or the last one where it is past that.
fn at_most(place: u64, last: usize) -> u64
    ensures { result ≡ min place last }
{
    if place < last as u64 {
        place
    } else {
        last as u64
    }
}

// Of each of the first `last` events a flag, whether it is carried over the place after them.
fn carried_flags(alloc: Global, trace: &Trace, last: u64) -> Result<Vec<bool>, OutOfMemory>
    requires within { last ≤ length trace.now.events }
    ensures size { IfOk result (λ carried. length carried.items ≡ last) }
    ensures marks { IfOk result (λ carried. AreCarried trace.now 0 last carried.items) }
{
    let format = trace.format();
    let events = trace.events();
    let mut later = Later::new(alloc);
    let mut carried = vec![in alloc; false; last as usize]?;
    for index in (0..last as usize).rev() {
        let event = events[index];
        let is_carried = later.go_back(format, event.thread, event.op)?;
        carried[index] = is_carried;
    }
    Ok(carried)
}
