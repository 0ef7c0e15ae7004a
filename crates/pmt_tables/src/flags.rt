//! Of each event a flag, whether it is marked.
ghost use Rattle.std.specs.Prelude.{◌≡◌, ℕ, ◌↔◌, true, length, IfOk};
ghost use Rattle.pmt_model.specs.Selections.{IsRising, Has};
ghost use Rattle.pmt_tables.specs.Flags.{is_kept_at, marked_from};

use pmt_model::{OutOfMemory, Selection};
use std::alloc::Global;

/// How many events are marked.
pub fn marked_count(marked: &[bool]) -> usize
    ensures { result ≡ length (marked_from 0 marked.now) }
{
    let mut count = 0;
    for is_marked in marked {
        if *is_marked {
            count += 1;
        }
    }
    count
}

/// The selection of the events that are marked, where the trace's events have a mark each: the first one has the number 1.
///
/// # Errors
/// Where memory was refused.
pub fn marked_numbers(alloc: Global, marked: &[bool]) -> Result<Selection, OutOfMemory>
    ensures numbers { IfOk result (λ numbers. numbers ≡ marked_from 0 marked.now) }
    ensures rising { IfOk result (IsRising 0) }
    ensures just { IfOk result (λ numbers. (n : ℕ) → Has numbers n ↔ (is_kept_at marked.now n ≡ true)) }
{
    let mut numbers = Vec::with_capacity(alloc, marked_count(marked))?;
    for i in 0..marked.len() {
        if marked[i] {
            numbers.push(i as u64 + 1)?;
        }
    }
    let Ok(selection) = Selection::from_numbers(numbers) else {
        unreachable!()
    };
    Ok(selection)
}
