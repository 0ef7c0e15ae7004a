//! Which stores are never safe, by the entries of events.
ghost use Rattle.std.specs.Prelude.{ℕ, length};
ghost use Rattle.pmt_model.specs.Traces.{Recording};
ghost use Rattle.pmt_sweep.specs.Entries.{AreEndsOf, AreLostAfter, AreMarked, IsLineEnd, IsLineLostAfter, IsLineMarked};

use crate::entry::entry_of_lost;
use pmt_rows::{Row, Rows};

// The entries of the stores that are never safe tell that, at the end of a trace whose lines have these rows. All of them come after the
// event whose number is given, the last one before them: it is `u32::MAX` where there are none.
pub(crate) fn mark_lost(rows: &Rows, entries: &mut [u32]) -> u32
    requires { (T : Recording) × AreEndsOf T (length T.events) rows.now entries.old }
    ensures marked { (T : Recording) → AreEndsOf T (length T.events) rows.now entries.old → AreMarked T entries.new }
    ensures after { (T : Recording) → AreEndsOf T (length T.events) rows.now entries.old → AreLostAfter T result }
{
    let mut before = u32::MAX;
    for slot in 0..rows.len() {
        before = before.min(mark_line(rows.row(slot), entries));
    }
    before
}

// Those of one line, from its last store down to the last safe one.
fn mark_line(row: Row, entries: &mut [u32]) -> u32
    requires { (T : Recording) × (l : ℕ) × IsLineEnd T l row entries.old }
    ensures marked { (T : Recording) (l : ℕ) → IsLineEnd T l row entries.old → IsLineMarked T l entries.old entries.new }
    ensures after { (T : Recording) (l : ℕ) → IsLineEnd T l row entries.old → IsLineLostAfter T l result }
{
    let mut before = u32::MAX;
    let mut number = row.last_store;
    while number > row.safe {
        let earlier = entries[number as usize];
        entries[number as usize] = entry_of_lost(number, row.last_flush);
        before = number - 1;
        number = earlier;
    }
    before
}
