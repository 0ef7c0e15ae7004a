//! Reading a whole text in memory.
ghost use Rattle.std.specs.Prelude.{◌≡◌, length, IfOk, IfSome};
ghost use Rattle.pmt_model.specs.Traces.{IsEventIn};
ghost use Rattle.pmt_text.specs.Coming.{GivesScript, GivesTrace, judged, script_judged};
ghost use Rattle.pmt_text.specs.Texts.{AddsJudged, AddsOp, SplitsJudged, SplitsLine, error_at, script_then, trace_then};

use crate::header::judge_header;
use crate::kind::{ReadError, TextError, TextKind};
use crate::line::{judge_line, judge_script_line};
use crate::spelled::first_event;
use bstr::ByteSlice;
use pmt_model::{Event, Format, Op, PushError, Trace};
use std::alloc::Global;

/// The trace whose text this is.
///
/// # Errors
/// `Text` with the first faulty line and the first check that fails there, where it is the text of no trace; `OutOfMemory`.
pub fn read_trace(alloc: Global, text: &[u8]) -> Result<Trace, ReadError>
    ensures { GivesTrace result (judged text.now) }
{
    let Some((line, rest)) = split_line(text) else {
        return Err(fault_at(1, TextKind::Truncated));
    };
    let Some(format) = judge_header(line) else {
        return Err(fault_at(1, TextKind::BadHeader));
    };
    read_events(Trace::new_with(alloc, format), rest)
}

/// The script whose text this is, as its ops.
///
/// # Errors
/// `Text` with the first faulty line and the first check that fails there, where it is the text of no script; `OutOfMemory`.
pub fn read_script(alloc: Global, text: &[u8]) -> Result<Vec<Op>, ReadError>
    ensures { GivesScript result (script_judged text.now) }
{
    let mut ops = Vec::new(alloc);
    let mut rest = text;
    while let Some((line, after)) = split_line(rest) {
        push_op(&mut ops, line)?;
        rest = after;
    }
    if !rest.is_empty() {
        return Err(fault_at(1 + ops.len() as u64, TextKind::Truncated));
    }
    Ok(ops)
}

/// The first line without its LF, and what stands after the LF; none where there is no LF.
#[inline]
pub(crate) fn split_line(text: &[u8]) -> Option<(&[u8], &[u8])>
    ensures { SplitsLine result text.now }
{
    let end = text.find_byte(b'\n')?;
    Some((&text[..end], &text[end + 1..]))
}

fn fault_at(line: u64, kind: TextKind) -> ReadError
    ensures { result ≡ ReadError.Text (error_at line kind) }
{
    ReadError::Text(TextError { line, kind })
}

/// The event of the first line, or its fault, and what stands after its LF; none where there is no LF.
#[inline(always)]
fn first_judged(format: Format, text: &[u8]) -> Option<(Result<Event, TextKind>, &[u8])>
    ensures first { SplitsJudged format result text.now }
    ensures in_format { IfSome result (λ p. IfOk p.0 (IsEventIn format)) }
{
    if let Some((event, rest)) = first_event(format, text) {
        return Some((Ok(event), rest));
    }
    match split_line(text) {
        Some((line, rest)) => Some((judge_line(format, line), rest)),
        None => None,
    }
}

/// The trace with the events of the lines after it.
fn read_events(mut trace: Trace, text: &[u8]) -> Result<Trace, ReadError>
    ensures { GivesTrace result (trace_then trace text.now) }
{
    let mut rest = text;
    while let Some((judged, after)) = first_judged(trace.format(), rest) {
        push_judged(&mut trace, judged)?;
        rest = after;
    }
    if !rest.is_empty() {
        return Err(fault_at(2 + trace.len() as u64, TextKind::Truncated));
    }
    Ok(trace)
}

/// Adds the event of a line that was judged.
#[inline(always)]
fn push_judged(trace: &mut Trace, judged: Result<Event, TextKind>) -> Result<(), ReadError>
    requires { IfOk judged (IsEventIn trace.old.format) }
    ensures { AddsJudged trace.old judged result trace.new }
{
    let number = 2 + trace.len() as u64;
    let event = match judged {
        Ok(event) => event,
        Err(kind) => return Err(fault_at(number, kind)),
    };
    match trace.push(event) {
        Ok(()) => Ok(()),
        Err(PushError::OutOfMemory) => Err(ReadError::OutOfMemory),
        Err(_) => Err(fault_at(number, TextKind::TooManyEvents)),
    }
}

/// Adds the op of the line.
#[inline]
fn push_op(ops: &mut Vec<Op>, line: &[u8]) -> Result<(), ReadError>
    ensures { AddsOp ops.old.items line.now result ops.new.items }
{
    let number = 1 + ops.len() as u64;
    let op = match judge_script_line(line) {
        Ok(op) => op,
        Err(kind) => return Err(fault_at(number, kind)),
    };
    if ops.len() >= Trace::LIMIT {
        return Err(fault_at(number, TextKind::TooManyEvents));
    }
    match ops.push(op) {
        Ok(()) => Ok(()),
        Err(_) => Err(ReadError::OutOfMemory),
    }
}
