//! Joining what is kept of each line with the stores and assertions.
ghost use Rattle.std.specs.Prelude.{◌≡◌, ℕ, ◌≤◌, map, length, IfOk};
ghost use Rattle.pmt_laws.specs.Prelude.{Has, IsKeep};
ghost use Rattle.pmt_tables.specs.Flags.{MarksThese};
ghost use Rattle.pmt_trim.specs.Kept.{AreAllKept};
ghost use Rattle.pmt_trim.specs.Marking.{op_stays};

use pmt_model::{Event, Op, OutOfMemory, Selection, Trace};
use pmt_tables::marked_numbers;
use std::alloc::Global;

/// All that is kept of the trace: what is kept for its lines, one list for each, and the stores and assertions.
///
/// # Errors
/// Where memory was refused.
pub fn liveness(alloc: Global, trace: &Trace, lists: &[Vec<u64>]) -> Result<Selection, OutOfMemory>
    requires { AreAllKept trace.now (map (λ kept. kept.items) lists.now) }
    ensures { IfOk result (λ selection. IsKeep trace.now selection) }
{
    let mut marks = stores_and_assertions(alloc, trace.events())?;
    let marked = marks.as_mut_slice();
    for list in lists {
        mark_all(marked, list.as_slice());
    }
    marked_numbers(alloc, marked)
}

// The stores and assertions are marked.
fn stores_and_assertions(alloc: Global, events: &[Event]) -> Result<Vec<bool>, OutOfMemory>
    ensures { IfOk result (λ marked. marked.items ≡ map (λ e. op_stays e.op) events.now) }
{
    events
        .iter()
        .map(|event| always_stays(event.op))
        .collect(alloc)
}

// Whether the op is a store or an assertion.
fn always_stays(op: Op) -> bool
    ensures { result ≡ op_stays op }
{
    match op {
        Op::Store(_) | Op::IsPersist(_) | Op::IsOrderedBefore(_, _) => true,
        Op::Clwb(_) | Op::ClflushOpt(_) | Op::Clflush(_) | Op::Sfence | Op::Mfence => false,
    }
}

// Marks the numbers.
fn mark_all(marked: &mut [bool], numbers: &[u64])
    requires { (n : ℕ) → Has numbers.now n → (1 ≤ n) × (n ≤ length marked.old) }
    ensures { MarksThese marked.old numbers.now marked.new }
{
    for number in numbers {
        marked[*number as usize - 1] = true;
    }
}
