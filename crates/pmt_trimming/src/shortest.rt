//! The length of a selection, apart from which events it has.

ghost use Rattle.std.specs.Prelude.{◌≡◌, IfOk};
ghost use Rattle.pmt_laws.specs.Prelude.{IsSelection, cut, HasSameVectors};
ghost use Rattle.pmt_trimming.specs.Headline.{IsShortest};
ghost use Rattle.pmt_trimming.specs.Passing.{all_marks};

use crate::trimming::trim;
use pmt_model::{Event, OutOfMemory, Selection, Trace};
use pmt_tables::marked_numbers;
use std::alloc::Global;

/// The selection of all events, which cuts nothing: the longest there is.
///
/// # Errors
/// Where memory was refused.
pub fn all_events(alloc: Global, trace: &Trace) -> Result<Selection, OutOfMemory>
    ensures whole { IfOk result (λ all. cut trace.now all ≡ trace.now) }
    ensures selection { IfOk result (IsSelection trace.now) }
    ensures same { IfOk result (HasSameVectors trace.now) }
{
    let marked = all_marked(alloc, trace.events())?;
    marked_numbers(alloc, marked.as_slice())
}

// A mark for each event.
fn all_marked(alloc: Global, events: &[Event]) -> Result<Vec<bool>, OutOfMemory>
    ensures { IfOk result (λ marked. marked.items ≡ all_marks events.now) }
{
    events.iter().map(|_| true).collect(alloc)
}

/// A shortest selection of the trace: it leaves a crash the same counts of persisted stores at every place, and no selection that
/// does so has fewer events. It is that of `trim`.
///
/// # Errors
/// Where memory was refused.
pub fn shortest_selection(alloc: Global, trace: &Trace) -> Result<Selection, OutOfMemory>
    ensures selection { IfOk result (IsSelection trace.now) }
    ensures same { IfOk result (HasSameVectors trace.now) }
    ensures shortest { IfOk result (IsShortest trace.now) }
{
    let (_, selection) = trim(alloc, trace)?;
    Ok(selection)
}
