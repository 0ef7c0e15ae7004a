//! The stores that are never persisted.
ghost use Rattle.std.specs.Prelude.{◌≡◌, ◌++◌, IfOk, OnOk};
ghost use Rattle.pmt_model.specs.Traces.{Recording};
ghost use Rattle.pmt_sweep.specs.Entries.{AreLostAfter, AreMarked, lost_at};
ghost use Rattle.pmt_sweep.specs.Found.{AreKnownLate};

use crate::entry::{FLUSHED, tells_lost};
use crate::noted::{Noted, note};
use pmt_model::{Finding, OutOfMemory};
use std::alloc::Global;

// Those that the entries tell of, in report order: all come after event `before`.
pub(crate) fn lost_stores(
    alloc: Global,
    entries: &[u32],
    before: u32,
) -> Result<Vec<Noted>, OutOfMemory>
    ensures { IfOk result (λ lost. (T : Recording) → AreMarked T entries.now → AreLostAfter T before → AreKnownLate T lost.items) }
{
    let mut lost = Vec::new(alloc);
    for number in before as usize + 1..entries.len() {
        push_lost(&mut lost, number as u64, entries[number])?;
    }
    Ok(lost)
}

// Adds that the event with this number is never persisted, if its entry tells so.
fn push_lost(lost: &mut Vec<Noted>, event: u64, entry: u32) -> Result<(), OutOfMemory>
    ensures { OnOk result (lost.new.items ≡ lost.old.items ++ lost_at event entry) }
{
    if tells_lost(entry) {
        let flushed = entry == FLUSHED;
        note(lost, Finding::NeverPersisted { event, flushed })?;
    }
    Ok(())
}
