//! Hints that tell why a site loses or delays stores.

ghost use Rattle.std.specs.Prelude.{◌≡◌, if◌then◌else◌, Some, IfOk, OnOk};
ghost use Rattle.std.specs.List.{position_from};
ghost use Rattle.pmt_entries.specs.declared.signs.Mark.{Mark};
ghost use Rattle.pmt_entries.specs.declared.signs.Mark.TheVariants.{Place};
ghost use Rattle.pmt_entries.specs.Sites.{earlier as earlier_in, is_mark, line_mark as line_mark_in, mark_of as mark_in, op_line, sign_at as sign_in_map};

use pmt_causes::Origin;
use pmt_explain::number_of;
use pmt_hints::{Hint, HintKind};
use pmt_model::{Format, Op, OutOfMemory, Trace, line_of};
use std::alloc::Global;
use std::collections::HashMap;

/// A line that a thread leaves out where the lines it flushes end, up to its next fence.
#[derive(Clone, Copy, PartialEq, Eq, Hash)]
pub(crate) struct LeftLine {
    pub(crate) thread: u8,
    pub(crate) fence: u64,
    pub(crate) line: u64,
}

/// What a hint has in common with the sites that it is a sign of.
#[derive(Clone, Copy, PartialEq, Eq, Hash)]
pub(crate) enum Mark {
    /// The site itself.
    Place(Origin),
    /// The line of the site's first store that is lost or late.
    Line(LeftLine),
}

/// The first hint with each mark, by its index.
pub(crate) type Signs = HashMap<Mark, u64>;

// The first of these hints with each mark, where these are the next own fences of all events.
pub(crate) fn signs_of(
    alloc: Global,
    trace: &Trace,
    fences: &[u64],
    hints: &[Hint],
) -> Result<Signs, OutOfMemory>
    ensures { IfOk result (λ signs. (m : Mark) → sign_in_map signs (Some m) ≡ position_from (λ h. is_mark (Some m) (mark_in trace.now fences.now h)) 0 hints.now) }
{
    let mut signs = HashMap::new(alloc);
    for index in (0..hints.len()).rev() {
        let hint = hints[index];
        let mark = mark_of(trace, fences, &hint);
        note(&mut signs, mark, index as u64)?;
    }
    Ok(signs)
}

// Notes the hint with this index, if it has a mark.
fn note(signs: &mut Signs, mark: Option<Mark>, index: u64) -> Result<(), OutOfMemory>
    ensures { OnOk result ((m : Mark) → sign_in_map signs.new (Some m) ≡ (if is_mark (Some m) mark then Some index else sign_in_map signs.old (Some m))) }
{
    match mark {
        None => Ok(()),
        Some(mark) => {
            signs.insert(mark, index)?;
            Ok(())
        }
    }
}

// The mark of the hint, if it is a sign of a site.
fn mark_of(trace: &Trace, fences: &[u64], hint: &Hint) -> Option<Mark>
    ensures { result ≡ mark_in trace.now fences.now hint.now }
{
    match hint.kind {
        HintKind::StoredAfterFlush => Some(Mark::Place(hint.place)),
        HintKind::OneLineShort => line_mark(trace, fences, hint.first),
        _ => None,
    }
}

// The first sign of a site with this place and this first store that is lost or late.
pub(crate) fn sign_of(
    signs: &Signs,
    trace: &Trace,
    fences: &[u64],
    place: Origin,
    first: u64,
) -> Option<u64>
    ensures { result ≡ earlier_in (sign_in_map signs.now (Some (Place place))) (sign_in_map signs.now (line_mark_in trace.now fences.now first)) }
{
    let by_place = signs.get(&Mark::Place(place)).copied();
    let by_line = sign_at(signs, line_mark(trace, fences, first));
    earlier(by_place, by_line)
}

// The first hint with the mark, if there is one.
fn sign_at(signs: &Signs, mark: Option<Mark>) -> Option<u64>
    ensures { result ≡ sign_in_map signs.now mark }
{
    match mark {
        None => None,
        Some(mark) => signs.get(&mark).copied(),
    }
}

// The lower of two indexes, as far as they are known.
fn earlier(first: Option<u64>, second: Option<u64>) -> Option<u64>
    ensures { result ≡ earlier_in first second }
{
    let Some(index) = first else {
        return second;
    };
    let Some(other) = second else {
        return first;
    };
    if index < other { first } else { second }
}

// The line of the event, if it is a store, or the one behind it, if it is a flush that waits for a fence.
fn line_mark(trace: &Trace, fences: &[u64], number: u64) -> Option<Mark>
    ensures { result ≡ line_mark_in trace.now fences.now number }
{
    let Some(event) = trace.get(number) else {
        return None;
    };
    let Some(line) = line_left(trace.format(), event.op) else {
        return None;
    };
    Some(Mark::Line(LeftLine {
        thread: event.thread,
        fence: number_of(fences, number),
        line,
    }))
}

// The line of the op, or the one behind it.
fn line_left(format: Format, op: Op) -> Option<u64>
    ensures { result ≡ op_line format op }
{
    match op {
        Op::Store(store) => Some(line_of(format, store.addr())),
        Op::Clwb(addr) | Op::ClflushOpt(addr) => Some(addr.get() / format.line_size() + 1),
        Op::Clflush(_) | Op::Sfence | Op::Mfence | Op::IsPersist(_) | Op::IsOrderedBefore(_, _) => {
            None
        }
    }
}
