//! Which numbers stand in a list.

ghost use Rattle.std.specs.Prelude.{◌≡◌, ◌<◌, ℕ, suc, length, map, IfOk, slice_index_or, false};
ghost use Rattle.pmt_explain.specs.Dropping.{event_of};
ghost use Rattle.pmt_fates.specs.Fates.{is_listed, AreMarks, with_mark};

use pmt_explain::Dropped;
use pmt_model::OutOfMemory;
use std::alloc::Global;

// Of each number from 1 to `count` whether it stands in the list.
pub(crate) fn marks(alloc: Global, count: usize, list: &[u64]) -> Result<Vec<bool>, OutOfMemory>
    ensures { IfOk result (λ marks. AreMarks count list.now marks.items) }
{
    let mut marks = vec![in alloc; false; count]?;
    for number in list {
        mark(&mut marks, *number);
    }
    Ok(marks)
}

// Of each number from 1 to `count` whether the event with it is dropped.
pub(crate) fn dropped_marks(
    alloc: Global,
    count: usize,
    dropped: &[Dropped],
) -> Result<Vec<bool>, OutOfMemory>
    ensures { IfOk result (λ marks. AreMarks count (map event_of dropped.now) marks.items) }
{
    let mut marks = vec![in alloc; false; count]?;
    for entry in dropped {
        mark(&mut marks, entry.event);
    }
    Ok(marks)
}

// Marks the number, if it is one of those from 1 on that the marks are of.
fn mark(marks: &mut Vec<bool>, number: u64)
    ensures { marks.new.items ≡ with_mark number marks.old.items }
{
    let Some(index) = number.checked_sub(1) else {
        return;
    };
    if index < marks.len() as u64 {
        marks[index as usize] = true;
    }
}
