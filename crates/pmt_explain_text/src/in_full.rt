//! A failed assertion in full, behind its entry.

use crate::commands::push_command;
use crate::events::{push_event, push_words};
use crate::memory::{Cell, cells_of, push_memory};
use pmt_failures::{ShownCrash, shown_crash};
use pmt_model::Op;
use pmt_pen::Pen;
use pmt_telling::{Bytes, Made, Telling, pen_of, push_wrapped};

// The columns before the further lines of a row.
const FURTHER: u64 = 10;

// The most cache lines that are named.
const FEW: usize = 3;

// The most cache lines that are shown of a range.
const ROWS: usize = 8;

// Adds all that is known of the failed assertion that is told alone: the claim, the crash, and what the crash leaves.
pub(crate) fn push_failure_in_full(pen: &mut Pen, told: &Telling<'_>) -> Made<()> {
    let Some(shown) = told.explanation.failures.first() else {
        return Ok(());
    };
    push_stored(pen, told, "  claim:  ", 0, shown.event);
    pen.fill("  crash:  right after event #\n", &[shown.failure.place]);
    if let Some(kept) = shown.failure.kept {
        push_stored(pen, told, "  keeps:  byte @ of ", kept.byte, kept.store);
    }
    let lost = shown.failure.lost;
    push_stored(pen, told, "  loses:  byte @ of ", lost.byte, lost.store);
    let crash = shown_crash(told.alloc, told.trace, shown)?;
    push_range(pen, told, &crash)?;
    push_kept(pen, told, &crash);
    pen.put("  draw:   ");
    push_command(pen, told, "pmtrim draw --failure #", shown.event);
    pen.fill(" > event#.svg\n", &[shown.event]);
    Ok(())
}

// Adds, by this form, the byte and the event.
fn push_stored(pen: &mut Pen, told: &Telling<'_>, form: &str, byte: u64, event: u64) {
    let mut line = told.said(form, &[byte]);
    push_event(&mut line, told, event);
    push_wrapped(pen, &line, FURTHER);
}

// Adds of which cache lines the crash keeps fewer stores than there are, and of how many it keeps all.
fn push_kept(pen: &mut Pen, told: &Telling<'_>, crash: &ShownCrash) {
    let mut line = pen_of(told.alloc, "  kept:  ");
    for count in crash.lines.iter().take(FEW) {
        let address = told.line_address(count.line);
        line.fill(" # of # in @;", &[count.persisted, count.stores, address]);
    }
    let untold = crash.lines.len().saturating_sub(FEW) as u64;
    let more = untold.saturating_add(crash.more_lines);
    if more > 0 {
        line.fill(" not all in # more (see --json);", &[more]);
    }
    let whole = crash.whole_lines;
    told.say(&mut line, " all stores in # other cache line~", &[whole]);
    push_wrapped(pen, &line, FURTHER);
}

// Adds the range that the assertion wants kept, cache line by cache line, and its lost bytes.
fn push_range(pen: &mut Pen, told: &Telling<'_>, crash: &ShownCrash) -> Made<()> {
    let Some(after) = crash.ranges.first() else {
        return Ok(());
    };
    let (start, length) = (after.range.addr().get(), after.range.len());
    let form = "  the % byte~ from @ on, by cache line, at the crash:\n";
    told.say(pen, form, &[length, start]);
    let cells = cells_of(told, crash.shown.event, after)?;
    let lost = lost_by_line(told, Bytes::of(start, length), cells.as_slice())?;
    push_lines(pen, told, crash.shown.failure.place, lost.as_slice());
    push_memory(pen, told, cells.as_slice());
    Ok(())
}

// A cache line, and the first store to it that a crash loses.
#[derive(Clone, Copy)]
struct LineLoss {
    line: u64,
    lost: Option<u64>,
}

// The cache lines of the range, lowest first, with what these cells of each lose.
fn lost_by_line(told: &Telling<'_>, range: Bytes, cells: &[Cell]) -> Made<Vec<LineLoss>> {
    let size = told.trace.format().line_size().max(1);
    let end = range.end.saturating_add(size - 1) / size;
    let mut lines = Vec::new(told.alloc);
    for line in range.start / size..end {
        let bytes = Bytes::of(told.line_address(line), size);
        let own = cells.iter().filter(|cell| bytes.has(cell.byte.byte));
        let lost = own.filter_map(|cell| cell.lost).min();
        lines.push(LineLoss { line, lost })?;
    }
    Ok(lines)
}

// Adds the cache lines, each with the store that it loses: if they are many, those that lose one.
fn push_lines(pen: &mut Pen, told: &Telling<'_>, place: u64, lines: &[LineLoss]) {
    let are_many = lines.len() > ROWS;
    let losing = lines.iter().filter(|line| line.lost.is_some()).count();
    let shown = lines.iter().filter(|line| line.lost.is_some() || !are_many);
    for line in shown.take(ROWS) {
        push_line(pen, told, place, *line);
    }
    if are_many {
        let more = losing.saturating_sub(ROWS) as u64;
        let kept = lines.len().saturating_sub(losing) as u64;
        let form = "    and # more that lose stores, # that are kept\n";
        pen.fill(form, &[more, kept]);
    }
}

// Adds the line: which store is lost by the place of the crash, if one is, its last flush, and the fence that completes it.
fn push_line(pen: &mut Pen, told: &Telling<'_>, place: u64, shown: LineLoss) {
    let LineLoss { line, lost } = shown;
    let mut row = told.said("    @: ", &[told.line_address(line)]);
    match lost {
        Some(store) => row.fill("loses event #; ", &[store]),
        None => row.put("kept; "),
    }
    let flush = (1..place.saturating_add(1)).rev().find(|number| told.is_flush(*number)
        && told.line(*number) == Some(line));
    match flush {
        Some(flush) => push_flush(&mut row, told, place, flush),
        None => row.put("no flush by then"),
    }
    push_wrapped(pen, &row, FURTHER);
}

// Adds the last flush of a line by the place of the crash, and the fence that completes it.
fn push_flush(pen: &mut Pen, told: &Telling<'_>, place: u64, flush: u64) {
    pen.fill("last flush event #", &[flush]);
    if let Some(event) = told.trace.get(flush) {
        pen.put(" (");
        push_words(pen, event);
        pen.put(")");
    }
    let thread = told.thread(flush);
    let fence = (flush..place.saturating_add(1)).find(|number| told.is_fence(*number)
        && told.thread(*number) == thread);
    match fence {
        _ if matches!(told.op(flush), Some(Op::Clflush(_))) => pen.put(", complete at once"),
        Some(fence) => pen.fill(", fence event #", &[fence]),
        None => pen.fill(", no fence of thread # after it", &[thread as u64]),
    }
}
