//! What was asked for alone, a row each.

use crate::asked_rows::{push_dropped, push_late, push_lost, push_overwritten};
use crate::events::push_event;
use pmt_asked::{Kind, is_asked_for};
use pmt_explanation::first;
use pmt_failures::Unwritten;
use pmt_pen::Pen;
use pmt_reasons::Cause;
use pmt_telling::{
    Made, Telling, left_row, pen_of, push_claim, push_head, push_left_head, push_wrapped,
};

// The columns before the further lines of a row.
const FURTHER: u64 = 6;

// Adds a row for each thing that is asked for, kind by kind, or that there is none.
pub(crate) fn push_rows(pen: &mut Pen, told: &Telling<'_>) -> Made<()> {
    let start = pen.len();
    push_failed(pen, told)?;
    push_lost(pen, told)?;
    push_hints(pen, told)?;
    push_unwritten(pen, told)?;
    push_dropped(pen, told)?;
    push_late(pen, told)?;
    push_overwritten(pen, told)?;
    if pen.len() == start {
        pen.put("\nNothing of what is asked for was found.\n");
    }
    Ok(())
}

// Adds what things these are and how many, by this form, the first of so many rows, and how many are left; nothing if there are none.
pub(crate) fn push_table(
    pen: &mut Pen,
    told: &Telling<'_>,
    form: &str,
    count: u64,
    total: usize,
    rows: Vec<Pen>,
) -> Made<()> {
    if total > 0 {
        pen.put("\n");
        push_wrapped(pen, &told.said(form, &[count]), FURTHER);
    }
    for row in first(rows.as_slice(), told.explanation.limit) {
        push_wrapped(pen, row, FURTHER);
    }
    let left = total.saturating_sub(told.explanation.limit) as u64;
    if left > 0 {
        told.say(pen, "  .. % more (--limit all)\n", &[left]);
    }
    Ok(())
}

// A row that is begun.
pub(crate) fn row_of(told: &Telling<'_>) -> Pen {
    pen_of(told.alloc, "  ")
}

// Adds the failed assertions, a row for each cause and site: which store is lost, and why.
fn push_failed(pen: &mut Pen, told: &Telling<'_>) -> Made<()> {
    let causes = told.explanation.causes.as_slice();
    let count = told.explanation.asked_failing.len() as u64;
    let what = "Failed assertions: %, by cause and site:";
    let mut rows: Vec<Pen> = Vec::new(told.alloc);
    for (cause, shown) in causes.iter().zip(told.explanation.failures.iter()) {
        let mut row = row_of(told);
        push_claim(&mut row, told, cause);
        let numbers = [shown.event, shown.failure.lost.store];
        told.say(&mut row, ", first event #: $", &numbers);
        match shown.cause {
            Cause::Later => row.put(" comes too late"),
            Cause::Unflushed => row.put(" is not flushed by then"),
            Cause::Unfenced { flush, .. } => {
                row.fill(" is flushed by event #, not yet fenced", &[flush]);
            }
        }
        rows.push(row)?;
    }
    push_table(pen, told, what, count, causes.len(), rows)
}

// Adds the hints, and the sites and paths that are saved one fence late.
fn push_hints(pen: &mut Pen, told: &Telling<'_>) -> Made<()> {
    let explanation = told.explanation;
    let mut rows: Vec<Pen> = Vec::new(told.alloc);
    for hint in explanation.asked_hints.iter() {
        let mut row = row_of(told);
        push_head(&mut row, told, hint);
        row.fill(", first event #", &[hint.first]);
        rows.push(row)?;
    }
    for entry in explanation.entries.entries.iter() {
        if let Some(first) = left_row(told, *entry).and_then(|row| row.first_left) {
            let choice = told.screen.choice;
            if is_asked_for(told.trace, told.labels, choice, Kind::Hint, first) {
                let mut row = row_of(told);
                push_left_head(&mut row, told, &[*entry])?;
                row.fill(", first event #", &[first]);
                rows.push(row)?;
            }
        }
    }
    let count = rows.len();
    push_table(pen, told, "Hints: %:", count as u64, count, rows)
}

// Adds the assertions on bytes that no store has written.
fn push_unwritten(pen: &mut Pen, told: &Telling<'_>) -> Made<()> {
    let found = told.explanation.unwritten.as_slice();
    let what = "Assertions on bytes that no store has written: %:";
    let shown = first(found, told.explanation.limit).iter();
    let rows = shown.map(|one| unwritten_row(told, one));
    let rows = rows.collect(told.alloc)?;
    push_table(pen, told, what, found.len() as u64, found.len(), rows)
}

// The row of the assertion: which bytes are not written.
fn unwritten_row(told: &Telling<'_>, assertion: &Unwritten) -> Pen {
    let mut row = row_of(told);
    push_event(&mut row, told, assertion.event);
    for range in [assertion.first, assertion.second] {
        if let Some(range) = range {
            let numbers = [range.len(), range.addr().get()];
            told.say(&mut row, "; not written: % byte~ from @ on", &numbers);
        }
    }
    row
}
