//! The trimmed trace, by one pass forward over the events.

ghost use Rattle.std.specs.Prelude.{IfOk};
ghost use Rattle.pmt_model.specs.Keeping.{IsKeep};
ghost use Rattle.pmt_trimming.specs.Headline.{IsTrimmed};
ghost use Rattle.pmt_trimming.specs.Passing.{AreFlags};

use crate::pass::Pass;
use pmt_model::{OutOfMemory, Selection, Trace};
use pmt_tables::marked_numbers;
use std::alloc::Global;

/// The trimmed trace, and the selection of the events that it keeps of this one.
///
/// # Errors
/// Where memory was refused.
pub fn trim(alloc: Global, trace: &Trace) -> Result<(Trace, Selection), OutOfMemory>
    ensures { IfOk result (λ pair. IsTrimmed trace.now pair.1 pair.0) }
{
    let selection = keep(alloc, trace)?;
    let trimmed = trace.select(&selection)?;
    Ok((trimmed, selection))
}

// The selection of all that is kept of the trace.
fn keep(alloc: Global, trace: &Trace) -> Result<Selection, OutOfMemory>
    ensures { IfOk result (λ selection. IsKeep trace.now selection) }
{
    let kept = kept_flags(alloc, trace)?;
    let selection = marked_numbers(alloc, kept.as_slice())?;
    Ok(selection)
}

// Of each event, whether it is kept.
fn kept_flags(alloc: Global, trace: &Trace) -> Result<Vec<bool>, OutOfMemory>
    ensures { IfOk result (λ flags. AreFlags trace.now 0 flags.items) }
{
    let mut pass = Pass::new(alloc, trace.format())?;
    for event in trace.events() {
        pass.take(event)?;
    }
    pass.finish(alloc)
}
