//! The picture as values: which events and lines are drawn, and what is told of each.
ghost use Rattle.std.specs.Prelude.{IfOk};
ghost use Rattle.pmt_picture.specs.Columns.{AreColumns};

use crate::about::PictureContent;
use crate::asserted::{Asserted, asserted_of};
use crate::bars::{Drawn, DrawnRow, row_of};
use crate::crash::DrawnCrash;
use crate::known::KnownTrace;
use crate::missing::{Missing, missing_of};
use crate::ops::{line_of_op, next_fence, waits_for_fence};
use crate::subject::DrawnSubject;
use pmt_explain::safe_places;
use pmt_model::{Event, Format, OutOfMemory, Trace};
use pmt_reasons::Reason;
use std::alloc::Global;

/// An event that is drawn.
#[derive(Clone, Copy)]
pub struct Column {
    /// Its number.
    pub number: u64,
    /// What it is.
    pub event: Event,
    /// Why it is dropped, if it is.
    pub dropped: Option<Reason>,
    /// Of an assertion, whether it passes.
    pub pass: Option<bool>,
    /// Of a clwb or clflushopt, the next fence of its thread, if one comes up to the last event that is drawn.
    pub fence: Option<u64>,
}

/// What is drawn.
#[derive(Drop)]
pub struct Picture {
    /// The trace's format.
    pub format: Format,
    /// How many events the trace has.
    pub events: u64,
    /// How many lines are stored or flushed in the trace.
    pub lines: u64,
    /// What the picture is about.
    pub subject: DrawnSubject,
    /// How many of the events that tell of the subject have no room.
    pub cut: u64,
    /// The events that are drawn, by rising number.
    pub columns: Vec<Column>,
    /// The lines that these touch, by rising address.
    pub rows: Vec<DrawnRow>,
    /// The bytes of the failed assertion that the picture is about.
    pub asserted: [Option<Asserted>; 2],
    /// The crash of the subject, if it has one.
    pub crash: Option<DrawnCrash>,
    /// What is missing where the crash loses stores, in the order in which it is put in.
    pub missing: Vec<Missing>,
}

impl Picture {
    /// The column of the event with this number, if it is drawn.
    pub fn column(&self, number: u64) -> Option<&Column> {
        match self
            .columns
            .binary_search_by_key(&number, |column| column.number)
        {
            Ok(index) => self.columns.get(index),
            Err(_) => None,
        }
    }
}

/// The picture of what is known of the trace and of what it is about: the events that tell of it, and the lines that they touch.
///
/// # Errors
/// Where memory was refused.
pub fn picture_of(
    alloc: Global,
    known: KnownTrace<'_>,
    about: PictureContent,
) -> Result<Picture, OutOfMemory>
    ensures { IfOk result (λ p. AreColumns known.entry.trace.now about.told.numbers.items p.columns.items) }
{
    let PictureContent {
        subject,
        crash,
        told,
    } = about;
    let numbers = told.numbers.as_slice();
    let columns = columns_of(alloc, known, numbers)?;
    let asserted = asserted_in(known.trace, crash.as_ref());
    let missing = missing_of(alloc, known.trace, subject, crash.as_ref(), asserted[0])?;
    let lines = touched_lines(alloc, known.trace, columns.as_slice())?;
    let rows = rows_of(
        alloc,
        known.trace,
        numbers,
        lines.as_slice(),
        crash.as_ref(),
    )?;
    Ok(Picture {
        format: known.trace.format(),
        events: known.trace.len() as u64,
        lines: known.lines,
        subject,
        cut: told.all.saturating_sub(numbers.len() as u64),
        asserted,
        missing,
        columns,
        rows,
        crash,
    })
}

// The bytes of the assertion that the crash violates.
fn asserted_in(trace: &Trace, crash: Option<&DrawnCrash>) -> [Option<Asserted>; 2] {
    if let Some(crash) = crash {
        if let Some(assertion) = crash.assertion {
            if let Some(event) = trace.get(assertion.number) {
                return asserted_of(event.op);
            }
        }
    }
    [None, None]
}

// The events with these numbers, which rise.
fn columns_of(
    alloc: Global,
    known: KnownTrace<'_>,
    numbers: &[u64],
) -> Result<Vec<Column>, OutOfMemory>
    ensures { IfOk result (λ columns. AreColumns known.entry.trace.now numbers.now columns.items) }
{
    let last = numbers.last().copied().unwrap_or(0);
    let mut columns: Vec<Column> = Vec::new(alloc);
    for number in numbers {
        let Some(Event { thread, op }) = known.trace.get(*number) else {
            continue;
        };
        columns.push(Column {
            number: *number,
            event: Event { thread, op },
            dropped: known.reason(*number),
            pass: known.pass(*number),
            fence: fence_after(known.trace, *number, last),
        })?;
    }
    Ok(columns)
}

// The next fence of the thread of the flush with this number, up to the last event, if it waits for one.
fn fence_after(trace: &Trace, number: u64, last: u64) -> Option<u64> {
    let Some(event) = trace.get(number) else {
        return None;
    };
    let thread = event.thread;
    let op = event.op;
    if waits_for_fence(&op) {
        next_fence(trace, thread, number, last)
    } else {
        None
    }
}

// The lines that the events touch, rising.
fn touched_lines(
    alloc: Global,
    trace: &Trace,
    columns: &[Column],
) -> Result<Vec<u64>, OutOfMemory> {
    let mut lines = Vec::new(alloc);
    for column in columns {
        if let Some(line) = line_of_op(trace.format(), column.event.op) {
            lines.push(line)?;
        }
    }
    lines.sort_unstable();
    lines.dedup();
    Ok(lines)
}

// The rows of these lines, of the events with these numbers and with the crash.
fn rows_of(
    alloc: Global,
    trace: &Trace,
    columns: &[u64],
    lines: &[u64],
    crash: Option<&DrawnCrash>,
) -> Result<Vec<DrawnRow>, OutOfMemory> {
    let safe = safe_places(alloc, trace)?;
    let drawn = Drawn {
        trace,
        safe: safe.as_slice(),
        columns,
        crash: match crash {
            Some(crash) => crash.failure.place,
            None => u64::MAX,
        },
    };
    let mut rows = Vec::new(alloc);
    for line in lines {
        rows.push(row_of(alloc, drawn, *line)?)?;
    }
    Ok(rows)
}
