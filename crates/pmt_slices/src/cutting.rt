//! The trace cut to the slice of an assertion.

ghost use Rattle.std.specs.Prelude.{◌≡◌, IfOk, MatchOption};
ghost use Rattle.pmt_model.specs.Selections.{cut};
ghost use Rattle.pmt_slices.specs.Slices.{IsAssertion, IsSlice};

use crate::slicing::slice_of;
use pmt_model::{OutOfMemory, Selection, Trace};
use std::alloc::Global;

/// The slice of an assertion, as a trace of its own.
#[derive(Drop)]
pub struct Slice {
    /// The numbers that its events have in the whole trace, in order.
    pub numbers: Selection,
    /// Its events, in the format of the whole trace.
    pub trace: Trace,
}

/// The slice of the assertion with this number; none where the event is no assertion, or there is none.
///
/// # Errors
/// Where memory was refused.
pub fn sliced(alloc: Global, trace: &Trace, number: u64) -> Result<Option<Slice>, OutOfMemory>
    ensures { IfOk result (λ o. MatchOption o (¬ IsAssertion trace.now number) (λ s. IsAssertion trace.now number × IsSlice trace.now number s.numbers × (s.trace ≡ cut trace.now s.numbers))) }
{
    match slice_of(alloc, trace, number)? {
        None => Ok(None),
        Some(numbers) => Ok(Some(cut_to(trace, number, numbers)?)),
    }
}

// The trace of these events, which are the slice of this assertion.
fn cut_to(trace: &Trace, number: u64, numbers: Selection) -> Result<Slice, OutOfMemory>
    requires assertion { IsAssertion trace.now number }
    requires slice { IsSlice trace.now number numbers }
    ensures { IfOk result (λ s. IsSlice trace.now number s.numbers × (s.trace ≡ cut trace.now s.numbers)) }
{
    let part = trace.select(&numbers)?;
    Ok(Slice {
        numbers,
        trace: part,
    })
}
