//! Numbers of events that are told.

ghost use Rattle.std.specs.Prelude.{◌≡◌, ◌++◌, not, filter, IfOk, OnOk};
ghost use Rattle.pmt_model.specs.Selections.{IsRising};
ghost use Rattle.pmt_tables.specs.Flags.{is_kept_at};
ghost use Rattle.pmt_hints.specs.Claiming.{if_told};

use pmt_model::{OutOfMemory, Selection};
use std::alloc::Global;

// The selection of these numbers.
pub(crate) fn selection_of(numbers: Vec<u64>) -> Selection
    requires { IsRising 0 numbers.items }
    ensures { result ≡ numbers.items }
{
    let Ok(selection) = Selection::from_numbers(numbers) else {
        unreachable!()
    };
    selection
}

// Adds the number, if it is told.
#[inline(always)]
pub(crate) fn push_if(numbers: &mut Vec<u64>, is_told: bool, number: u64) -> Result<(), OutOfMemory>
    ensures { OnOk result (numbers.new.items ≡ numbers.old.items ++ if_told is_told number) }
{
    if is_told {
        numbers.push(number)?;
    }
    Ok(())
}

// Those of these numbers whose events are not flagged.
pub(crate) fn unflagged(
    alloc: Global,
    numbers: &[u64],
    flags: &[bool],
) -> Result<Vec<u64>, OutOfMemory>
    ensures { IfOk result (λ chosen. chosen.items ≡ filter (λ i. not (is_kept_at flags.now i)) numbers.now) }
{
    numbers
        .iter()
        .filter(|number| !is_flagged(flags, **number))
        .copied()
        .collect(alloc)
}

// Whether the event is flagged.
pub(crate) fn is_flagged(flags: &[bool], number: u64) -> bool
    ensures { result ≡ is_kept_at flags.now number }
{
    let Some(index) = number.checked_sub(1) else {
        return false;
    };
    match flags.get(index as usize) {
        Some(flag) => *flag,
        None => false,
    }
}
