//! The columns: each event's words, and its mark in the row of its thread.
use crate::labels::{push_cut, room_of};
use crate::layout::Layout;
use crate::marks::push_mark;
use crate::missing::missing_letters;
use crate::page::Page;
use crate::words::{push_event_words, push_reason};
use pmt_asked::Labels;
use pmt_pen::Pen;
use pmt_picture::{Column, Picture, line_of_op};
use pmt_text::{line_address, word_of};

// The most letters of a label that stands upright.
const LABEL_LETTERS: u64 = 28;

// The room between the label of a column and that of the next one.
const APART: u64 = 14;

// The width of a letter over a column, in tenths of a pixel.
const LETTER: u64 = 67;

/// The height of the words of the columns.
pub fn words_height(picture: &Picture, layout: &Layout, labels: &Labels) -> u64 {
    if layout.is_flat() {
        return 54;
    }
    let mut letters: u64 = 0;
    for column in &picture.columns {
        letters = letters.max(letters_of(column, labels));
    }
    for missing in &picture.missing {
        letters = letters.max(missing_letters(missing, picture.format));
    }
    letters.saturating_mul(LETTER) / 10 + 20
}

// How many letters stand upright over the column.
fn letters_of(column: &Column, labels: &Labels) -> u64 {
    let word = word_of(&column.event.op).len() as u64;
    let digits = column.number.checked_ilog10().unwrap_or(0) as u64;
    let label = match labels.get(column.number) {
        Some(label) => room_of(label.as_str(), label.len())
            .min(LABEL_LETTERS)
            .saturating_add(1),
        None => 0,
    };
    word.saturating_add(digits)
        .saturating_add(label)
        .saturating_add(2)
}

/// Adds the columns, from left to right, and the dots where events are left out.
pub fn push_columns(pen: &mut Pen, page: Page<'_>) {
    for slot in &page.layout.slots {
        if let Some(x) = slot.gap {
            push_gap(pen, page, x);
        }
        if let Some(column) = page.picture.column(slot.number) {
            push_column(pen, page, column);
        }
    }
    if let Some(x) = page.layout.gap {
        push_gap(pen, page, x);
    }
}

// Adds the dots where events are left out.
fn push_gap(pen: &mut Pen, page: Page<'_>, x: u64) {
    let top = page.threads;
    pen.fill(
        "<g class='gap'><title>events are left out here</title><line class='cut' x1='#' y1='#' x2='#' y2='#'/><text class='soft mid' x='#' y='#'>…</text></g>\n",
        &[x, top, x, page.end, x, top.saturating_sub(6)],
    );
}

// Adds an event: its words over the column, and its mark in its thread's row.
fn push_column(pen: &mut Pen, page: Page<'_>, column: &Column) {
    let thread = column.event.thread;
    let x = page.layout.middle(column.number);
    pen.fill(
        "<g class='event' data-event='#' data-thread='#' data-x='#'",
        &[column.number, thread as u64, x],
    );
    if let Some(line) = line_of_op(page.picture.format, column.event.op) {
        pen.fill(" data-line='@'", &[line_address(page.picture.format, line)]);
    }
    if let Some(fence) = column.fence {
        pen.fill(" data-fence='#'", &[fence]);
    }
    pen.put("><title>");
    push_event_words(pen, column, page.labels);
    push_judgement(pen, column);
    pen.put("</title>");
    push_words(pen, page, column, x);
    let y = page.layout.thread_middle(thread, page.threads);
    push_mark(pen, column, x, y);
    pen.put("</g>\n");
}

// Adds what is told of the event besides its words.
fn push_judgement(pen: &mut Pen, column: &Column) {
    match column.pass {
        Some(true) => pen.put(": passes"),
        Some(false) => pen.put(": fails"),
        None => {}
    }
    if let Some(reason) = column.dropped {
        pen.put(": no effect, since ");
        push_reason(pen, reason);
    }
}

// Adds the number, the word and the label over the column.
fn push_words(pen: &mut Pen, page: Page<'_>, column: &Column, x: u64) {
    let label = match page.labels.get(column.number) {
        Some(label) => label.as_str(),
        None => "",
    };
    if page.layout.is_flat() {
        push_flat(pen, page, column, label, x);
    } else {
        push_upright(pen, page, column, label, x);
    }
}

// Adds the number, the word and the label, which stand upright.
fn push_upright(pen: &mut Pen, page: Page<'_>, column: &Column, label: &str, x: u64) {
    pen.fill(
        "<text transform='translate(# #) rotate(-90)'><tspan class='strong'>#</tspan> ",
        &[
            x.saturating_add(4),
            page.threads.saturating_sub(8),
            column.number,
        ],
    );
    pen.put(word_of(&column.event.op));
    pen.put(" <tspan class='soft label'>");
    push_cut(pen, label, LABEL_LETTERS);
    pen.put("</tspan></text>");
}

// Adds the number, the word under it, and under that the label, if there is one, as far as it has room.
fn push_flat(pen: &mut Pen, page: Page<'_>, column: &Column, label: &str, x: u64) {
    pen.fill(
        "<text class='mid strong' x='#' y='#'>#</text><text class='mid' x='#' y='#'>",
        &[
            x,
            page.threads.saturating_sub(38),
            column.number,
            x,
            page.threads.saturating_sub(24),
        ],
    );
    pen.put(word_of(&column.event.op));
    pen.put("</text>");
    if !label.is_empty() {
        pen.fill(
            "<text class='mid soft label' x='#' y='#'>",
            &[x, page.threads.saturating_sub(10)],
        );
        let most = page.layout.column.saturating_sub(APART).saturating_mul(10) / LETTER;
        push_cut(pen, label, most);
        pen.put("</text>");
    }
}
