//! The crash: a line through the picture, with the stores that are lost and the one that is kept.
use crate::layout::{BAR, lane_top, row_height};
use crate::page::Page;
use crate::shapes::push_shape;
use crate::words::{push_assertion, push_cause, push_shown};
use pmt_pen::Pen;
use pmt_picture::{Bar, DrawnCrash};

/// The height of a crash's name.
pub const NAME_LINE: u64 = 16;

/// Adds the crash, if there is one, with its name over the columns.
pub fn push_crash(pen: &mut Pen, page: Page<'_>) {
    let Some(crash) = page.picture.crash.as_ref() else {
        return;
    };
    let x = page.layout.crash.unwrap_or(page.layout.right);
    push_group(pen, crash);
    push_line(pen, page, crash, x);
    push_veil(pen, page, crash, x);
    let mut top = page.rows;
    for row in &page.picture.rows {
        for bar in &row.bars {
            push_bar_marks(pen, page, crash, bar, lane_top(top, bar.lane), x);
        }
        top = top.saturating_add(row_height(row));
    }
    pen.put("</g>\n");
}

// Opens the crash's group, which names the assertion, the place and the stores, with what is told of the crash.
fn push_group(pen: &mut Pen, crash: &DrawnCrash) {
    let failure = crash.failure;
    pen.put("<g class='crash-line'");
    if let Some(assertion) = crash.assertion {
        pen.fill(" data-event='#'", &[assertion.number]);
    }
    pen.fill(
        " data-place='#' data-lost='#' data-losses='#'",
        &[failure.place, failure.lost.store, crash.lost.len() as u64],
    );
    if let Some(kept) = failure.kept {
        pen.fill(" data-kept='#'", &[kept.store]);
    }
    pen.put("><title>");
    push_assertion(pen, crash);
    pen.put(". ");
    push_shown(pen, crash);
    pen.put(" ");
    push_cause(pen, crash);
    pen.put(" </title>");
}

// Adds the crash's line, with its name.
fn push_line(pen: &mut Pen, page: Page<'_>, crash: &DrawnCrash, x: u64) {
    let y = page.name;
    pen.fill(
        "<line class='crash' x1='#' y1='#' x2='#' y2='#'/><text class='crash-word' x='#' y='#'>crash: ",
        &[x, y.saturating_sub(10), x, page.end, x.saturating_add(6), y],
    );
    push_assertion(pen, crash);
    pen.put("</text>");
}

// Pales what comes after the crash, and says what it is: the crash did not happen in the trace.
fn push_veil(pen: &mut Pen, page: Page<'_>, crash: &DrawnCrash, x: u64) {
    let right = page.layout.right;
    let is_last = match page.picture.columns.last() {
        Some(column) => column.number <= crash.failure.place,
        None => true,
    };
    if is_last || right <= x {
        return;
    }
    pen.fill(
        "<rect class='after' x='#' y='#' width='#' height='#'/><text class='small soft' x='#' y='#'>from here on: the run without the crash</text>",
        &[
            x.saturating_add(2),
            page.threads,
            right.saturating_sub(x),
            page.end.saturating_sub(page.threads),
            x.saturating_add(6),
            page.end.saturating_add(11),
        ],
    );
}

// Marks the bar's stores that the crash loses, and where its line crosses the bar, what it loses or keeps.
fn push_bar_marks(pen: &mut Pen, page: Page<'_>, crash: &DrawnCrash, bar: &Bar, top: u64, x: u64) {
    let mut is_lost = false;
    for store in &crash.lost {
        if has_store(page, bar, *store) {
            is_lost = true;
            push_lost_store(pen, page, *store, top);
        }
    }
    if is_lost {
        let is_later = crash.failure.place < bar.store;
        push_frame(pen, page, bar, "lost", top, x);
        push_tag(pen, "lost", if is_later { "later" } else { "lost" }, top, x);
    }
    if let Some(kept) = crash.failure.kept {
        if has_store(page, bar, kept.store) {
            push_frame(pen, page, bar, "kept", top, x);
            push_tag(pen, "kept", "kept", top, x);
        }
    }
}

// Whether the store with this number is drawn in the bar.
fn has_store(page: Page<'_>, bar: &Bar, store: u64) -> bool {
    match page.picture.column(store) {
        Some(column) => bar.has(page.picture.format, column),
        None => false,
    }
}

// Marks a lost store where it begins.
fn push_lost_store(pen: &mut Pen, page: Page<'_>, store: u64, lane: u64) {
    let x = page.layout.middle(store);
    let (left, right) = (x.saturating_sub(3), x.saturating_add(3));
    let (top, low) = (lane.saturating_sub(8), lane.saturating_sub(3));
    pen.fill(
        "<path class='lost-store' data-store='#' d='M# #L# #M# #L# #'/>",
        &[store, left, top, right, low, right, top, left, low],
    );
}

// Adds the frame of a bar from its first store to the crash.
fn push_frame(pen: &mut Pen, page: Page<'_>, bar: &Bar, class: &str, top: u64, x: u64) {
    let from = page.layout.middle(bar.store);
    if from < x {
        push_shape(
            pen,
            "rect",
            class,
            "x='#' y='#' width='#' height='#'/>",
            &[from, top.saturating_sub(2), x.saturating_sub(from), BAR + 4],
        );
    }
}

// Adds the word right of the crash's line, in the bar's lane.
fn push_tag(pen: &mut Pen, class: &str, word: &str, top: u64, x: u64) {
    pen.put("<rect class='tag-");
    pen.put(class);
    pen.fill(
        "' x='#' y='#' width='40' height='#' rx='3'/><text class='tag-word' x='#' y='#'>",
        &[
            x.saturating_add(4),
            top.saturating_sub(2),
            BAR + 4,
            x.saturating_add(8),
            top.saturating_add(11),
        ],
    );
    pen.put(word);
    pen.put("</text>");
}
