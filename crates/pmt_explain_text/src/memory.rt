//! What a crash leaves in the memory of an assertion.

use pmt_explain::CrashByte;
use pmt_failures::RangeAfter;
use pmt_pen::Pen;
use pmt_telling::{Bytes, Made, Telling};

// The most rows of lost bytes that are shown of a range, and the most bytes of a row.
const ROWS: usize = 8;

const IN_ROW: usize = 16;

/// A byte after a crash.
#[derive(Clone, Copy)]
pub(crate) struct Cell {
    /// What it holds then.
    pub(crate) byte: CrashByte,
    /// The last store to it by the assertion, where the crash loses it.
    pub(crate) lost: Option<u64>,
}

impl Cell {
    // The store that it is from; none where the crash keeps no store to it.
    fn kept(&self) -> Option<u64> {
        self.byte.last.map(|stored| stored.store)
    }
}

// Adds those of these bytes that lose a store, a row for bytes side by side that are of one store, or of none, and lose the same one.
pub(crate) fn push_memory(pen: &mut Pen, told: &Telling<'_>, cells: &[Cell]) {
    pen.put(
        "  lost bytes of it, with what memory then holds (-- where the crash keeps no store):\n",
    );
    let mut rest = cells;
    let mut rows = 0usize;
    let mut left = 0u64;
    for _ in 0..cells.len() {
        let Some(first) = rest.first().copied() else {
            break;
        };
        let row = rest.iter().take(IN_ROW);
        let run = row.take_while(|cell| cell.kept() == first.kept() && cell.lost == first.lost);
        let length = run.count();
        if let Some(lost) = first.lost {
            rows = rows.saturating_add(1);
            if rows <= ROWS {
                push_run(pen, rest.get(..length).unwrap_or(&[]), first, lost);
            } else {
                left = left.saturating_add(length as u64);
            }
        }
        rest = rest.get(length..).unwrap_or(&[]);
    }
    if left > 0 {
        let form = "    and % more byte~ that lose a store (--json has all)\n";
        told.say(pen, form, &[left]);
    }
}

// Adds the row of a run, of which this is the first byte, that loses this store.
fn push_run(pen: &mut Pen, run: &[Cell], first: Cell, lost: u64) {
    pen.fill("    @:", &[first.byte.byte]);
    for cell in run {
        match cell.byte.last {
            Some(stored) => {
                pen.put(" ");
                pen.bytes(&[stored.value]);
            }
            None => pen.put(" --"),
        }
    }
    if let Some(store) = first.kept() {
        pen.fill(" from event #", &[store]);
    }
    pen.fill(", lost: event #\n", &[lost]);
}

// The bytes of the range of the assertion after the crash.
pub(crate) fn cells_of(told: &Telling<'_>, assertion: u64, after: &RangeAfter) -> Made<Vec<Cell>> {
    let range = Bytes::of(after.range.addr().get(), after.range.len());
    let last = last_stores(told, assertion, range)?;
    let mut cells = Vec::with_capacity(told.alloc, after.bytes.len())?;
    for (byte, store) in after.bytes.iter().zip(last.iter()) {
        let kept = byte.last.map(|stored| stored.store);
        let lost = if *store == kept { None } else { *store };
        cells.push(Cell { byte: *byte, lost })?;
    }
    Ok(cells)
}

// The last store to each byte of the range by the event with this number, lowest byte first. It goes back from the event until it knows them
// all.
fn last_stores(told: &Telling<'_>, number: u64, range: Bytes) -> Made<Vec<Option<u64>>> {
    let mut left = range.end.saturating_sub(range.start) as usize;
    let mut stores = vec![in told.alloc; None; left]?;
    for before in (1..number).rev() {
        if left == 0 {
            break;
        }
        let Some(stored) = told.stored(before) else {
            continue;
        };
        for byte in stored.start.max(range.start)..stored.end.min(range.end) {
            if let Some(last) = stores.get_mut(byte.saturating_sub(range.start) as usize) {
                if last.is_none() {
                    *last = Some(before);
                    left = left.saturating_sub(1);
                }
            }
        }
    }
    Ok(stores)
}
