//! The fronts of a trace.
ghost use Rattle.std.specs.Prelude.{◌≡◌, ◌++◌, length, IfOk, OnOk};
ghost use Rattle.pmt_laws.specs.Prelude.{flat_map, Recording};
ghost use Rattle.pmt_tables.specs.Slots.{IsSlotOf};
ghost use Rattle.pmt_report.specs.Reports.{AreLinesOf, fronts_text, line_entry, lines_at};

use crate::first_lines::TraceLines;
use crate::texts::{push_front_entry, push_fronts_head};
use pmt_model::OutOfMemory;
use std::alloc::Global;

// The fronts at the end of the trace whose lines these are.
pub(crate) fn fronts_of_lines(alloc: Global, lines: &TraceLines) -> Result<Vec<u8>, OutOfMemory>
    requires { (T : Recording) × AreLinesOf T lines.now }
    ensures { (T : Recording) → AreLinesOf T lines.now → IfOk result (λ text. text.items ≡ fronts_text T (length T.events)) }
{
    let mut text = Vec::new(alloc);
    push_fronts_head(&mut text, lines.events, lines.live.lines().len() as u64)?;
    push_lines(&mut text, lines)?;
    Ok(text)
}

// Adds the entries of all lines.
fn push_lines(text: &mut Vec<u8>, lines: &TraceLines) -> Result<(), OutOfMemory>
    requires { (T : Recording) × AreLinesOf T lines.now }
    ensures { (T : Recording) → AreLinesOf T lines.now → OnOk result (text.new.items ≡ text.old.items ++ flat_map (line_entry T (length T.events)) (lines_at T (length T.events))) }
{
    let all = lines.live.lines();
    for slot in 0..all.len() {
        push_line(text, lines, all[slot], slot)?;
    }
    Ok(())
}

// Adds the entry of the line at this slot.
fn push_line(
    text: &mut Vec<u8>,
    lines: &TraceLines,
    line: u64,
    slot: usize,
) -> Result<(), OutOfMemory>
    requires lines { (T : Recording) × AreLinesOf T lines.now }
    requires slot { IsSlotOf line slot lines.now.live.rows.slots }
    ensures { (T : Recording) → AreLinesOf T lines.now → OnOk result (text.new.items ≡ text.old.items ++ line_entry T (length T.events) line) }
{
    let addr = line * lines.format.line_size();
    let front = lines.live.front(slot) as u64;
    let count = lines.live.count(slot) as u64;
    push_front_entry(text, addr, front, count)
}
