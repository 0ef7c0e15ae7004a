//! The rows of the threads, and how long each flush waits for a fence of its thread.
use crate::layout::{LEFT, THREAD};
use crate::page::Page;
use crate::shapes::push_shape;
use pmt_pen::Pen;
use pmt_picture::{Column, Picture, waits_for_fence};

/// Adds the rows of the threads, without the marks of their events.
pub fn push_threads(pen: &mut Pen, page: Page<'_>) {
    let mut top = page.threads;
    for thread in &page.layout.threads {
        push_name(pen, page, top);
        pen.fill("thread #</text>\n", &[*thread as u64]);
        top = top.saturating_add(THREAD);
    }
    for column in &page.picture.columns {
        push_wait(pen, page, column);
    }
}

// Adds the line of a row that begins there, and begins its name.
fn push_name(pen: &mut Pen, page: Page<'_>, top: u64) {
    let middle = top.saturating_add(THREAD / 2);
    let low = top.saturating_add(THREAD / 2 + 4);
    pen.fill(
        "<line class='rule' x1='#' y1='#' x2='#' y2='#'/>",
        &[LEFT, middle, page.layout.right, middle],
    );
    pen.fill("<text class='end' x='#' y='#'>", &[LEFT - 14, low]);
}

// Adds the line from a flush to where it ends.
fn push_wait(pen: &mut Pen, page: Page<'_>, column: &Column) {
    let thread = column.event.thread;
    if !waits_for_fence(&column.event.op) {
        return;
    }
    let y = page.layout.thread_middle(thread, page.threads);
    let from = page.layout.middle(column.number);
    let to = match wait_end(page.picture, column) {
        Some(end) => page.layout.middle(end),
        None => page.layout.right,
    };
    if from < to {
        push_shape(
            pen,
            "line",
            if column.fence.is_some() {
                "wait"
            } else {
                "wait never"
            },
            "x1='#' y1='#' x2='#' y2='#'/>\n",
            &[from, y, to, y],
        );
    }
}

// Where the line from a flush ends: at the next flush that waits for the same fence, from which another line goes on, or at the fence; none
// where that is not drawn.
fn wait_end(picture: &Picture, column: &Column) -> Option<u64> {
    for other in &picture.columns {
        let is_later = column.number < other.number && waits_for_fence(&other.event.op);
        if is_later && other.event.thread == column.event.thread && other.fence == column.fence {
            return Some(other.number);
        }
    }
    column.fence
}
