//! The events of a book once more.
ghost use Rattle.std.specs.Prelude.{◌≡◌, IfOk};

use pmt_model::{OutOfMemory, Trace};
use std::alloc::{AllocError, Global};

// The same trace.
pub(crate) fn copied_trace(alloc: Global, trace: &Trace) -> Result<Trace, OutOfMemory>
    ensures { IfOk result (λ copy. copy ≡ trace.now) }
{
    let mut copy = Trace::new_with(alloc, trace.format());
    for event in trace.events() {
        if copy.push(*event).is_err() {
            return Err(AllocError);
        }
    }
    Ok(copy)
}
