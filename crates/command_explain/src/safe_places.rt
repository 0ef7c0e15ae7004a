//! From which place on each store of a trace is safe.

use pmt_model::{Op, OutOfMemory, Trace};
use pmt_page::SafePlace;
use std::alloc::Global;

/// Of each store, in event order, the first place from which on no crash loses it.
///
/// # Errors
/// Where memory was refused.
pub fn safe_places(alloc: Global, trace: &Trace) -> Result<Vec<SafePlace>, OutOfMemory> {
    let places = pmt_explain::safe_places(alloc, trace)?;
    let last = trace.len() as u64;
    let mut safe = Vec::new(alloc);
    for (index, event) in trace.events().iter().enumerate() {
        if let Op::Store(_) = event.op {
            let place = places.get(index).copied();
            safe.push(SafePlace {
                store: (index as u64).saturating_add(1),
                place: place.filter(|place| *place <= last),
            })?;
        }
    }
    Ok(safe)
}
