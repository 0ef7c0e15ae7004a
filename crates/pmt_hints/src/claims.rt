//! Lines that are noted: of flushes that are open those to which a claimed store came since the last flush.

ghost use Rattle.std.specs.Prelude.{◌≡◌, ◌==◌, ◌&&◌, ◌+◌, ◌-◌, ℕ, IfOk, OnOk};
ghost use Rattle.pmt_model.specs.Values.{line_of as line_in};
ghost use Rattle.pmt_model.specs.Traces.{act_of, event};
ghost use Rattle.pmt_model.specs.Keeping.{IsKeep};
ghost use Rattle.pmt_tables.specs.Flags.{is_kept_at};
ghost use Rattle.pmt_hints.specs.Hints.{AreClaimedStores};
ghost use Rattle.pmt_hints.specs.Claiming.{flush_line, AreAsked, AreExcused, asked_at, claim_at, claimed_so, event_flush, has_line, is_claimed_line, noted, noted_by, or_so, unless_so};

use crate::numbers::{is_flagged, push_if};
use pmt_model::{Format, Op, OutOfMemory, Range, Selection, Trace, line_of};
use std::alloc::Global;
use std::collections::HashMap;

/// Some lines that are asked for, each by whether it is noted.
pub type Claims = HashMap<u64, bool>;

// The flushes that are kept and excused, of the lines of these flushes. `claimed` tells of each event whether it is a claimed store.
pub(crate) fn excused_flushes(
    alloc: Global,
    trace: &Trace,
    kept: &Selection,
    flushes: &[u64],
    claimed: &[bool],
) -> Result<Vec<u64>, OutOfMemory>
    requires kept { IsKeep trace.now kept.now }
    requires claimed { AreClaimedStores trace.now claimed.now }
    ensures { IfOk result (λ excused. AreExcused trace.now flushes.now excused.items) }
{
    let mut lines = flushed_lines(alloc, trace, flushes)?;
    let mut excused = Vec::new(alloc);
    let numbers = kept.numbers();
    for number in numbers {
        let number = *number;
        let is_excused = note_event(&mut lines, trace, claimed, number)?;
        push_if(&mut excused, is_excused, number)?;
    }
    Ok(excused)
}

// Notes the event. Whether it is a flush that waits for a fence, of a line that was noted.
fn note_event(
    lines: &mut Claims,
    trace: &Trace,
    claimed: &[bool],
    number: u64,
) -> Result<bool, OutOfMemory>
    ensures flush { IfOk result (λ is. is ≡ claimed_so trace.now lines.old number) }
    ensures lines { OnOk result ((l : ℕ) → claim_at lines.new l ≡ noted trace.now.format (event trace.now number) (is_kept_at claimed.now number) l (claim_at lines.old l)) }
{
    let Some(event) = trace.get(number) else {
        return Ok(false);
    };
    let format = trace.format();
    let is_noted = is_line_claimed(lines, flushed_line(format, event.thread, event.op));
    note_op(lines, format, event.op, is_flagged(claimed, number))?;
    Ok(is_noted)
}

// Notes the line of the op if it is a store that is claimed, and no longer if it is a flush.
fn note_op(lines: &mut Claims, format: Format, op: Op, is_claimed: bool) -> Result<(), OutOfMemory>
    ensures { OnOk result ((t l : ℕ) → claim_at lines.new l ≡ noted_by (act_of format t op) is_claimed l (claim_at lines.old l)) }
{
    match op {
        Op::Store(store) => note_if(lines, line_of(format, store.addr()), is_claimed),
        Op::Clwb(addr) | Op::ClflushOpt(addr) | Op::Clflush(addr) => {
            clear_line(lines, line_of(format, addr))
        }
        Op::Sfence | Op::Mfence | Op::IsPersist(_) | Op::IsOrderedBefore(_, _) => Ok(()),
    }
}

// Notes the line, if the store to it is claimed, and if it is asked for.
fn note_if(lines: &mut Claims, line: u64, is_claimed: bool) -> Result<(), OutOfMemory>
    ensures { OnOk result ((l : ℕ) → claim_at lines.new l ≡ or_so (is_claimed && (line == l)) (claim_at lines.old l)) }
{
    if is_claimed {
        note_line(lines, line)?;
    }
    Ok(())
}

// Takes back what was noted of the line.
fn clear_line(lines: &mut Claims, line: u64) -> Result<(), OutOfMemory>
    ensures { OnOk result ((l : ℕ) → claim_at lines.new l ≡ unless_so (line == l) (claim_at lines.old l)) }
{
    if is_line_claimed(lines, Some(line)) {
        lines.insert(line, false)?;
    }
    Ok(())
}

/// Whether the line is noted, if there is one.
pub fn is_line_claimed(claims: &Claims, line: Option<u64>) -> bool
    ensures { result ≡ is_claimed_line claims.now line }
{
    match line {
        None => false,
        Some(line) => claims.get(&line).copied().unwrap_or(false),
    }
}

// The line of the event, if it is a flush that waits for a fence.
fn line_flushed(trace: &Trace, number: u64) -> Option<u64>
    ensures { result ≡ event_flush trace.now.format (event trace.now number) }
{
    let Some(event) = trace.get(number) else {
        return None;
    };
    flushed_line(trace.format(), event.thread, event.op)
}

// The lines of these flushes, none of them noted.
fn flushed_lines(alloc: Global, trace: &Trace, flushes: &[u64]) -> Result<Claims, OutOfMemory>
    ensures { IfOk result (AreAsked trace.now flushes.now) }
{
    let mut claims = HashMap::new(alloc);
    for number in flushes {
        ask_for(&mut claims, line_flushed(trace, *number))?;
    }
    Ok(claims)
}

/// Asks for the line, if there is one.
///
/// # Errors
/// Where memory was refused.
pub fn ask_for(claims: &mut Claims, line: Option<u64>) -> Result<(), OutOfMemory>
    ensures { OnOk result ((l : ℕ) → claim_at claims.new l ≡ asked_at line l (claim_at claims.old l)) }
{
    match line {
        None => Ok(()),
        Some(line) => {
            claims.insert(line, false)?;
            Ok(())
        }
    }
}

/// Notes the lines of the range, as far as they are asked for.
///
/// It takes a look-up at each line.
///
/// # Errors
/// Where memory was refused.
pub fn note_range(claims: &mut Claims, format: Format, range: Range) -> Result<(), OutOfMemory>
    ensures { OnOk result ((l : ℕ) → claim_at claims.new l ≡ or_so (has_line format range l) (claim_at claims.old l)) }
{
    let first = line_of(format, range.addr());
    let end = end_of(format, range);
    for line in first..end {
        note_line(claims, line)?;
    }
    Ok(())
}

// The line right after the last one of the range.
fn end_of(format: Format, range: Range) -> u64
    ensures { result ≡ line_in format (range.addr + range.len - 1) + 1 }
{
    (range.addr().get() + range.len() - 1) / format.line_size() + 1
}

/// Notes the line, if it is asked for.
///
/// # Errors
/// Where memory was refused.
pub fn note_line(claims: &mut Claims, line: u64) -> Result<(), OutOfMemory>
    ensures { OnOk result ((l : ℕ) → claim_at claims.new l ≡ or_so (line == l) (claim_at claims.old l)) }
{
    if claims.contains_key(&line) {
        claims.insert(line, true)?;
    }
    Ok(())
}

// The line of the op, if it is a flush that waits for a fence.
fn flushed_line(format: Format, thread: u8, op: Op) -> Option<u64>
    ensures { result ≡ flush_line (act_of format thread op) }
{
    match op {
        Op::Clwb(addr) | Op::ClflushOpt(addr) => Some(line_of(format, addr)),
        Op::Store(_)
        | Op::Clflush(_)
        | Op::Sfence
        | Op::Mfence
        | Op::IsPersist(_)
        | Op::IsOrderedBefore(_, _) => None,
    }
}
