//! The rows of a story: its events in columns.

use crate::rows::{WIDTH, push_column, push_line, push_spaces, width_of};
use crate::sites::{site_frame, spot_of};
use crate::telling::{Made, Telling};
use crate::told::{StoryRow, Told};
use crate::words::{pen_of, push_text};
use pmt_pen::Pen;
use pmt_sources::{SourceLine, SourcePlace, found_line, place_of, place_under};
use pmt_text::word_of;

// The columns before a line of source that stands alone.
const ALONE: u64 = 6;

// How many columns the parts of rows take, and whether threads are told.
#[derive(Clone, Copy)]
struct Columns {
    number: u64,
    event: u64,
    note: u64,
    has_threads: bool,
}

// Adds the rows of the entry by rising event; the line of source of the edited event stands whole.
pub(crate) fn push_story(pen: &mut Pen, told: &Telling<'_>, entry: &Told<'_>) -> Made<()> {
    let mut rows: Vec<&StoryRow> = entry.story.iter().collect(told.alloc)?;
    rows.sort_by_key(|row| row.event)?;
    rows.dedup_by_key(|row| row.event);
    let columns = columns_of(pen, told, rows.as_slice());
    let events: Vec<u64> = rows.iter().map(|row| row.event).collect(told.alloc)?;
    for (index, row) in rows.iter().enumerate() {
        let source = source_under(told, events.as_slice(), index);
        let is_edited = entry.edited == Some(row.event);
        push_row(pen, told, columns, *row, source, is_edited);
    }
    Ok(())
}

// The columns that the rows need; the text remembers that memory was refused to what is measured.
fn columns_of(pen: &mut Pen, told: &Telling<'_>, rows: &[&StoryRow]) -> Columns {
    let mut columns = Columns {
        number: 0,
        event: 0,
        note: 0,
        has_threads: false,
    };
    let thread = rows.first().map(|row| told.thread(row.event));
    for row in rows {
        let number = told.said("# ", &[row.event]);
        let event = event_of(told, row.event);
        pen.share(&number);
        pen.share(&event);
        columns.number = columns.number.max(number.len());
        columns.event = columns.event.max(event.len());
        columns.note = columns.note.max(width_of(row.note.as_str()));
        columns.has_threads = columns.has_threads || thread != Some(told.thread(row.event));
    }
    columns
}

// The word of the event, and the address that it names first.
fn event_of(told: &Telling<'_>, event: u64) -> Pen {
    let mut pen = Pen::new(told.alloc);
    if let Some(op) = told.op(event) {
        pen.put(word_of(&op));
    }
    if let Some(address) = told.address(event) {
        pen.fill(" @", &[address]);
    }
    pen
}

// Adds the row; the function is left out where the line of source has no room else. A line of source that is to be whole and has no room
// stands below.
fn push_row(
    pen: &mut Pen,
    told: &Telling<'_>,
    columns: Columns,
    row: &StoryRow,
    source: Option<&SourceLine<'_>>,
    is_whole: bool,
) {
    let mut line = pen_of(told.alloc, "    ");
    let number = told.said("# ", &[row.event]);
    push_spaces(&mut line, columns.number.saturating_sub(number.len()));
    push_text(&mut line, &number);
    let event = event_of(told, row.event);
    line.share(&event);
    push_column(&mut line, event.as_str(), columns.event);
    if columns.has_threads {
        line.fill(" T#", &[told.thread(row.event) as u64]);
    }
    line.put("  ");
    line.share(&row.note);
    let Some(frame) = site_frame(told, told.origin(row.event)) else {
        line.put(row.note.as_str());
        push_line(pen, &line);
        return;
    };
    push_column(&mut line, row.note.as_str(), columns.note);
    line.put("  ");
    let Some(found) = source else {
        line.put(frame);
        push_line(pen, &line);
        return;
    };
    let used = width_of(line.as_str()).saturating_add(width_of(found.text.trim()));
    let room = WIDTH.saturating_sub(used.saturating_add(3));
    let short = spot_of(frame);
    let has_room = width_of(frame) <= room;
    let name = if has_room { frame } else { short };
    line.put(name);
    let is_below = is_whole && width_of(short) > room;
    if !is_below {
        line.put(" | ");
        line.put(found.text.trim());
    }
    push_line(pen, &line);
    if is_below {
        push_source(pen, found);
    }
}

// The line of source at the place, if it was read.
fn source_at<'a>(told: &Telling<'a>, place: SourcePlace<'_>) -> Option<&'a SourceLine<'a>> {
    let sources = told.screen.sources?;
    found_line(sources.lines.as_slice(), place)
}

// The line of source of the event at this place of these events, a row each, if it was read and no row above has it.
fn source_under<'a>(told: &Telling<'a>, events: &[u64], row: usize) -> Option<&'a SourceLine<'a>> {
    if events.len() <= row {
        return None;
    }
    source_at(told, place_under(told.labels, events, row)?)
}

/// Adds a line with the line of source that the frame names, if it was read.
pub fn push_frame_source(pen: &mut Pen, told: &Telling<'_>, frame: &str) {
    let place = place_of(spot_of(frame));
    if let Some(found) = place.and_then(|place| source_at(told, place)) {
        push_source(pen, found);
    }
}

// Adds a line with the number of the line of source, and its text.
fn push_source(pen: &mut Pen, found: &SourceLine<'_>) {
    let mut line = Pen::new(pen.alloc());
    push_spaces(&mut line, ALONE);
    line.number(found.place.line);
    line.put(" | ");
    line.put(found.text.trim());
    push_line(pen, &line);
}
