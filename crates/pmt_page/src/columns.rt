//! All columns of a trace.
ghost use Rattle.std.specs.Prelude.{◌≡◌, ◌++◌, codes, IfOk, OnOk};
ghost use Rattle.pmt_page.specs.Columns.{columns, columns_with as written, event_columns, found_columns, has_ranges as with_ranges, has_values as with_values, kept_by, number_column, range_columns, value_column};

use crate::dropping::push_dropped;
use crate::events::{NumberColumn, numbers_of, push_ops, push_values};
use crate::fields::{push_safe, push_steps, push_verdicts};
use crate::known::{EventFindings, Kept};
use pmt_model::{Event, OutOfMemory, Trace};
use std::alloc::Global;

/// The columns of a trace.
#[derive(Drop)]
pub struct Columns {
    /// They as an object of JSON.
    pub text: Vec<u8>,
    /// What of the trace is in them.
    pub kept: Kept,
}

/// The columns of the trace of which this is found, without the bytes of the stores where they would have more bytes than `most` with
/// them, and without the ranges of assertions too where that is not enough. What is left then is never left out, and may be longer.
///
/// # Errors
/// Where memory was refused.
pub fn columns_of(
    alloc: Global,
    trace: &Trace,
    found: EventFindings<'_>,
    most: usize,
) -> Result<Columns, OutOfMemory>
    ensures text { IfOk result (λ c. c.text.items ≡ columns c.kept trace.now.events found.entry.safe.now found.entry.verdicts.now found.entry.dropped.now) }
    ensures kept { IfOk result (λ c. c.kept ≡ kept_by most trace.now.events found.entry.safe.now found.entry.verdicts.now found.entry.dropped.now) }
{
    let whole = kept_columns(alloc, Kept::Whole, trace.events(), found)?;
    if whole.len() <= most {
        return Ok(Columns {
            text: whole,
            kept: Kept::Whole,
        });
    }
    let bare = kept_columns(alloc, Kept::WithoutValues, trace.events(), found)?;
    if bare.len() <= most {
        return Ok(Columns {
            text: bare,
            kept: Kept::WithoutValues,
        });
    }
    Ok(Columns {
        text: kept_columns(alloc, Kept::WithoutRanges, trace.events(), found)?,
        kept: Kept::WithoutRanges,
    })
}

/// Whether the bytes of the stores are kept.
pub(crate) fn has_values(kept: Kept) -> bool
    ensures { result ≡ with_values kept }
{
    match kept {
        Kept::Whole => true,
        Kept::WithoutValues | Kept::WithoutRanges => false,
    }
}

/// Whether the ranges of assertions are kept.
pub(crate) fn has_ranges(kept: Kept) -> bool
    ensures { result ≡ with_ranges kept }
{
    match kept {
        Kept::Whole | Kept::WithoutValues => true,
        Kept::WithoutRanges => false,
    }
}

// The columns with what is kept.
fn kept_columns(
    alloc: Global,
    kept: Kept,
    events: &[Event],
    found: EventFindings<'_>,
) -> Result<Vec<u8>, OutOfMemory>
    ensures { IfOk result (λ text. text.items ≡ columns kept events.now found.entry.safe.now found.entry.verdicts.now found.entry.dropped.now) }
{
    columns_with(alloc, has_ranges(kept), has_values(kept), events, found)
}

// The columns with the ranges of assertions and the bytes of stores, or without.
fn columns_with(
    alloc: Global,
    has_ranges: bool,
    has_values: bool,
    events: &[Event],
    found: EventFindings<'_>,
) -> Result<Vec<u8>, OutOfMemory>
    ensures { IfOk result (λ text. text.items ≡ written has_ranges has_values events.now found.entry.safe.now found.entry.verdicts.now found.entry.dropped.now) }
{
    let mut text = Vec::new(alloc);
    push_event_columns(alloc, &mut text, has_ranges, events)?;
    push_value_column(&mut text, has_values, events)?;
    push_found(alloc, &mut text, events, found)?;
    Ok(text)
}

// Adds the columns of the events themselves.
fn push_event_columns(
    alloc: Global,
    text: &mut Vec<u8>,
    has_ranges: bool,
    events: &[Event],
) -> Result<(), OutOfMemory>
    ensures { OnOk result (text.new.items ≡ text.old.items ++ event_columns has_ranges events.now) }
{
    text.extend_from_slice(b"{\"op\":\"")?;
    push_ops(text, events)?;
    push_column(
        alloc,
        text,
        b"\",\"thread\":\"",
        has_ranges,
        NumberColumn::Thread,
        events,
    )?;
    push_range_columns(alloc, text, has_ranges, events)
}

// Adds the columns of the ranges of the events.
fn push_range_columns(
    alloc: Global,
    text: &mut Vec<u8>,
    has_ranges: bool,
    events: &[Event],
) -> Result<(), OutOfMemory>
    ensures { OnOk result (text.new.items ≡ text.old.items ++ range_columns has_ranges events.now) }
{
    push_column(
        alloc,
        text,
        b"\",\"address\":\"",
        has_ranges,
        NumberColumn::Address,
        events,
    )?;
    push_column(
        alloc,
        text,
        b"\",\"length\":\"",
        has_ranges,
        NumberColumn::Length,
        events,
    )?;
    push_column(
        alloc,
        text,
        b"\",\"address2\":\"",
        has_ranges,
        NumberColumn::SecondAddress,
        events,
    )?;
    push_column(
        alloc,
        text,
        b"\",\"length2\":\"",
        has_ranges,
        NumberColumn::SecondLength,
        events,
    )
}

// Adds the words and the column of numbers.
fn push_column(
    alloc: Global,
    text: &mut Vec<u8>,
    words: &[u8],
    has_ranges: bool,
    column: NumberColumn,
    events: &[Event],
) -> Result<(), OutOfMemory>
    ensures { OnOk result (text.new.items ≡ text.old.items ++ words.now ++ number_column has_ranges column events.now) }
{
    let numbers = numbers_of(alloc, has_ranges, column, events)?;
    text.extend_from_slice(words)?;
    push_steps(text, numbers.as_slice())
}

// Adds the bytes of the stores, if they are wanted.
fn push_value_column(
    text: &mut Vec<u8>,
    has_values: bool,
    events: &[Event],
) -> Result<(), OutOfMemory>
    ensures { OnOk result (text.new.items ≡ text.old.items ++ codes "\",\"value\":\"" ++ value_column has_values events.now) }
{
    text.extend_from_slice(b"\",\"value\":\"")?;
    if has_values {
        push_values(text, events)?;
    }
    Ok(())
}

// Adds what is found, and ends the object.
fn push_found(
    alloc: Global,
    text: &mut Vec<u8>,
    events: &[Event],
    found: EventFindings<'_>,
) -> Result<(), OutOfMemory>
    ensures { OnOk result (text.new.items ≡ text.old.items ++ found_columns events.now found.entry.safe.now found.entry.verdicts.now found.entry.dropped.now) }
{
    text.extend_from_slice(b"\",\"safe\":\"")?;
    push_safe(text, found.safe)?;
    text.extend_from_slice(b"\",\"verdict\":\"")?;
    push_verdicts(text, found.verdicts)?;
    text.extend_from_slice(b"\",\"dropped\":\"")?;
    push_dropped(alloc, text, events, found.dropped)?;
    text.extend_from_slice(b"\"}")
}
