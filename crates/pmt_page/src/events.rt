//! What the columns tell of each event by itself.
ghost use Rattle.std.specs.Prelude.{◌≡◌, ◌∷◌, ◌++◌, [], map, IfOk, OnOk};
ghost use Rattle.std.specs.List.{flat_map};
ghost use Rattle.pmt_text.specs.Spelling.{hex_bytes};
ghost use Rattle.pmt_page.specs.Columns.{first_address, first_length, may_be_dropped as is_flush_or_fence, numbers_of as numbers, of_range, op_column, op_letter as letter_of, second_address, second_length, stored_bytes};

use crate::digits::push_bytes;
use pmt_model::{Event, Op, OutOfMemory};
use std::alloc::Global;

fn op_letter(op: &Op) -> u8
    ensures { result ≡ letter_of op.now }
{
    match op {
        Op::Store(_) => b'S',
        Op::Clwb(_) => b'C',
        Op::ClflushOpt(_) => b'O',
        Op::Clflush(_) => b'F',
        Op::Sfence => b's',
        Op::Mfence => b'm',
        Op::IsPersist(_) => b'P',
        Op::IsOrderedBefore(_, _) => b'B',
    }
}

/// Whether it is a flush or a fence.
pub(crate) fn may_be_dropped(op: &Op) -> bool
    ensures { result ≡ is_flush_or_fence op.now }
{
    match op {
        Op::Clwb(_) | Op::ClflushOpt(_) | Op::Clflush(_) | Op::Sfence | Op::Mfence => true,
        Op::Store(_) | Op::IsPersist(_) | Op::IsOrderedBefore(_, _) => false,
    }
}

/// Adds a letter for each event.
///
/// # Errors
/// Where memory was refused. The text may then have some of them.
pub(crate) fn push_ops(text: &mut Vec<u8>, events: &[Event]) -> Result<(), OutOfMemory>
    ensures { OnOk result (text.new.items ≡ text.old.items ++ op_column events.now) }
{
    for event in events {
        text.push(op_letter(&event.op))?;
    }
    Ok(())
}

/// Adds the digits of the bytes of the stores.
///
/// # Errors
/// Where memory was refused. The text may then have some of them.
pub(crate) fn push_values(text: &mut Vec<u8>, events: &[Event]) -> Result<(), OutOfMemory>
    ensures { OnOk result (text.new.items ≡ text.old.items ++ flat_map (λ e. hex_bytes (stored_bytes e.op)) events.now) }
{
    for event in events {
        push_value(text, &event.op)?;
    }
    Ok(())
}

#[tactic(auto, unfolding(pmt_text::specs::Spelling::hex_bytes))]
fn push_value(text: &mut Vec<u8>, op: &Op) -> Result<(), OutOfMemory>
    ensures { OnOk result (text.new.items ≡ text.old.items ++ hex_bytes (stored_bytes op.now)) }
{
    match op {
        Op::Store(store) => push_bytes(text, store.bytes()),
        Op::Clwb(_) | Op::ClflushOpt(_) | Op::Clflush(_) | Op::Sfence | Op::Mfence => Ok(()),
        Op::IsPersist(_) | Op::IsOrderedBefore(_, _) => Ok(()),
    }
}

/// A column of numbers.
#[derive(Clone, Copy)]
pub(crate) enum NumberColumn {
    /// The thread of each event.
    Thread,
    /// The address of each event that has one; of two ranges the first one's.
    Address,
    /// The length of each store and of each assertion's first range.
    Length,
    /// The address of each second range.
    SecondAddress,
    /// The length of each second range.
    SecondLength,
}

/// The numbers of the column, with those of the ranges of assertions or without.
///
/// # Errors
/// Where memory was refused.
pub(crate) fn numbers_of(
    alloc: Global,
    has_ranges: bool,
    column: NumberColumn,
    events: &[Event],
) -> Result<Vec<u64>, OutOfMemory>
    ensures { IfOk result (λ v. v.items ≡ flat_map (numbers has_ranges column) events.now) }
{
    let mut found = Vec::new(alloc);
    for event in events {
        push_number(&mut found, has_ranges, column, event)?;
    }
    Ok(found)
}

// Adds the event's number, if it has one in the column.
fn push_number(
    found: &mut Vec<u64>,
    has_ranges: bool,
    column: NumberColumn,
    event: &Event,
) -> Result<(), OutOfMemory>
    ensures { OnOk result (found.new.items ≡ found.old.items ++ numbers has_ranges column event.now) }
{
    match column {
        NumberColumn::Thread => push(found, event.thread as u64),
        NumberColumn::Address => push_address(found, has_ranges, &event.op),
        NumberColumn::Length => push_length(found, has_ranges, &event.op),
        NumberColumn::SecondAddress => push_second_address(found, has_ranges, &event.op),
        NumberColumn::SecondLength => push_second_length(found, has_ranges, &event.op),
    }
}

fn push(found: &mut Vec<u64>, number: u64) -> Result<(), OutOfMemory>
    ensures { OnOk result (found.new.items ≡ found.old.items ++ number ∷ []) }
{
    found.push(number)?;
    Ok(())
}

// Adds the number of an assertion's range, if these are wanted.
fn push_of_range(found: &mut Vec<u64>, has_ranges: bool, number: u64) -> Result<(), OutOfMemory>
    ensures { OnOk result (found.new.items ≡ found.old.items ++ of_range has_ranges number) }
{
    if !has_ranges {
        return Ok(());
    }
    push(found, number)
}

fn push_address(found: &mut Vec<u64>, has_ranges: bool, op: &Op) -> Result<(), OutOfMemory>
    ensures { OnOk result (found.new.items ≡ found.old.items ++ first_address has_ranges op.now) }
{
    match op {
        Op::Store(store) => push(found, store.addr().get()),
        Op::Clwb(addr) => push(found, addr.get()),
        Op::ClflushOpt(addr) => push(found, addr.get()),
        Op::Clflush(addr) => push(found, addr.get()),
        Op::Sfence | Op::Mfence => Ok(()),
        Op::IsPersist(range) => push_of_range(found, has_ranges, range.addr().get()),
        Op::IsOrderedBefore(range, _) => push_of_range(found, has_ranges, range.addr().get()),
    }
}

fn push_length(found: &mut Vec<u64>, has_ranges: bool, op: &Op) -> Result<(), OutOfMemory>
    ensures { OnOk result (found.new.items ≡ found.old.items ++ first_length has_ranges op.now) }
{
    match op {
        Op::Store(store) => push(found, store.bytes().len() as u64),
        Op::Clwb(_) | Op::ClflushOpt(_) | Op::Clflush(_) | Op::Sfence | Op::Mfence => Ok(()),
        Op::IsPersist(range) => push_of_range(found, has_ranges, range.len()),
        Op::IsOrderedBefore(range, _) => push_of_range(found, has_ranges, range.len()),
    }
}

fn push_second_address(found: &mut Vec<u64>, has_ranges: bool, op: &Op) -> Result<(), OutOfMemory>
    ensures { OnOk result (found.new.items ≡ found.old.items ++ second_address has_ranges op.now) }
{
    match op {
        Op::Store(_) | Op::Clwb(_) | Op::ClflushOpt(_) | Op::Clflush(_) => Ok(()),
        Op::Sfence | Op::Mfence | Op::IsPersist(_) => Ok(()),
        Op::IsOrderedBefore(_, range) => push_of_range(found, has_ranges, range.addr().get()),
    }
}

fn push_second_length(found: &mut Vec<u64>, has_ranges: bool, op: &Op) -> Result<(), OutOfMemory>
    ensures { OnOk result (found.new.items ≡ found.old.items ++ second_length has_ranges op.now) }
{
    match op {
        Op::Store(_) | Op::Clwb(_) | Op::ClflushOpt(_) | Op::Clflush(_) => Ok(()),
        Op::Sfence | Op::Mfence | Op::IsPersist(_) => Ok(()),
        Op::IsOrderedBefore(_, range) => push_of_range(found, has_ranges, range.len()),
    }
}
