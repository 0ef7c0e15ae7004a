//! Assertions on bytes that no store has written.
ghost use Rattle.std.specs.Prelude.{◌≡◌, ◌<◌, ◌++◌, None, length, IfOk, OnOk};
ghost use Rattle.pmt_laws.specs.Prelude.{option_to_list, history};
ghost use Rattle.pmt_failures.specs.Showing.{AreNoted, entry_of as entry_in, is_written, op_unwritten, unless_written as unless_in, unwritten_of};

use crate::near::is_written_near;
use crate::written::WrittenBytes;
use pmt_model::{Op, OutOfMemory, Range, Trace};
use std::alloc::Global;

/// An assertion of which no store has written a byte of a range by then: that range demands nothing.
#[derive(Clone, Copy)]
pub struct Unwritten {
    /// The assertion's event.
    pub event: u64,
    /// Its range, or its first one, if no byte of it is written.
    pub first: Option<Range>,
    /// The second range of an isOrderedBefore, if no byte of it is written.
    pub second: Option<Range>,
}

// The bytes that the first `count` events write.
#[derive(Drop)]
pub(crate) struct Noted {
    bytes: WrittenBytes,
    count: usize,
}

/// The assertions that speak of a range none of whose bytes is written by then, by rising event number. The stores are noted only up
/// to the last assertion that has a range which none of the few events before it writes, and a few events more.
///
/// # Errors
/// Where memory was refused.
pub fn unwritten_assertions(alloc: Global, trace: &Trace) -> Result<Vec<Unwritten>, OutOfMemory>
    ensures { IfOk result (λ found. found.items ≡ unwritten_of trace.now) }
{
    let mut found = Vec::new(alloc);
    let mut noted = Noted {
        bytes: WrittenBytes::new(alloc),
        count: 0,
    };
    let events = trace.events();
    for index in 0..events.len() {
        let event = events[index];
        note_op(
            &mut found,
            &mut noted,
            trace,
            index,
            index as u64 + 1,
            event.op,
        )?;
    }
    Ok(found)
}

// Adds what is told of the op with this number, before which so many events stand.
fn note_op(
    found: &mut Vec<Unwritten>,
    noted: &mut Noted,
    trace: &Trace,
    count: usize,
    number: u64,
    op: Op,
) -> Result<(), OutOfMemory>
    requires noted { AreNoted trace.now count noted.old }
    requires within { count < length trace.now.events }
    ensures found { OnOk result (found.new.items ≡ found.old.items ++ option_to_list (op_unwritten (is_written (history trace.now count)) number op)) }
    ensures noted { OnOk result (AreNoted trace.now count noted.new) }
{
    match op {
        Op::IsPersist(range) => note_persist(found, noted, trace, count, number, range),
        Op::IsOrderedBefore(first, second) => {
            note_order(found, noted, trace, count, number, first, second)
        }
        Op::Store(_) | Op::Clwb(_) | Op::ClflushOpt(_) | Op::Clflush(_) | Op::Sfence | Op::Mfence =>
            Ok(()),
    }
}

// Adds what is told of an isPersist with this number on this range, before which so many events stand.
fn note_persist(
    found: &mut Vec<Unwritten>,
    noted: &mut Noted,
    trace: &Trace,
    count: usize,
    number: u64,
    range: Range,
) -> Result<(), OutOfMemory>
    requires noted { AreNoted trace.now count noted.old }
    requires within { count < length trace.now.events }
    ensures found { OnOk result (found.new.items ≡ found.old.items ++ option_to_list (entry_in number (unless_in (is_written (history trace.now count)) range) None)) }
    ensures noted { OnOk result (AreNoted trace.now count noted.new) }
{
    let first = unless_written(noted, trace, count, range)?;
    push_entry(found, number, first, None)
}

// Adds what is told of an isOrderedBefore with this number on these ranges, before which so many events stand.
fn note_order(
    found: &mut Vec<Unwritten>,
    noted: &mut Noted,
    trace: &Trace,
    count: usize,
    number: u64,
    first: Range,
    second: Range,
) -> Result<(), OutOfMemory>
    requires noted { AreNoted trace.now count noted.old }
    requires within { count < length trace.now.events }
    ensures found { OnOk result (found.new.items ≡ found.old.items ++ option_to_list (entry_in number (unless_in (is_written (history trace.now count)) first) (unless_in (is_written (history trace.now count)) second))) }
    ensures noted { OnOk result (AreNoted trace.now count noted.new) }
{
    let first = unless_written(noted, trace, count, first)?;
    let second = unless_written(noted, trace, count, second)?;
    push_entry(found, number, first, second)
}

// Adds what is told of the event, if one of these ranges is told.
fn push_entry(
    found: &mut Vec<Unwritten>,
    event: u64,
    first: Option<Range>,
    second: Option<Range>,
) -> Result<(), OutOfMemory>
    ensures { OnOk result (found.new.items ≡ found.old.items ++ option_to_list (entry_in event first second)) }
{
    if first.is_some() || second.is_some() {
        found.push(Unwritten {
            event,
            first,
            second,
        })?;
    }
    Ok(())
}

// The range, unless one of the first `count` events writes a byte of it.
fn unless_written(
    noted: &mut Noted,
    trace: &Trace,
    count: usize,
    range: Range,
) -> Result<Option<Range>, OutOfMemory>
    requires noted { AreNoted trace.now count noted.old }
    requires within { count < length trace.now.events }
    ensures told { IfOk result (λ o. o ≡ unless_in (is_written (history trace.now count)) range) }
    ensures noted { OnOk result (AreNoted trace.now count noted.new) }
{
    if is_written_near(trace, noted.count, count, range) {
        return Ok(None);
    }
    note_until(noted, trace, count)?;
    if noted.bytes.has_any(range) {
        return Ok(None);
    }
    Ok(Some(range))
}

// Notes what more of the first `count` events write.
fn note_until(noted: &mut Noted, trace: &Trace, count: usize) -> Result<(), OutOfMemory>
    requires noted { AreNoted trace.now count noted.old }
    requires within { count < length trace.now.events }
    ensures noted { OnOk result (AreNoted trace.now count noted.new) }
    ensures all { OnOk result (noted.new.count ≡ count) }
{
    let events = trace.events();
    for index in noted.count..count {
        let event = events[index];
        noted.bytes.note(event.op)?;
    }
    noted.count = count;
    Ok(())
}
