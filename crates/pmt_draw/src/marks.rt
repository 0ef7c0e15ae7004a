//! The marks of events.
use crate::shapes::push_shape;
use pmt_model::Op;
use pmt_pen::Pen;
use pmt_picture::{Column, MissingKind};
use pmt_reasons::Reason;

/// What the mark of a flush or fence says besides.
#[derive(Clone, Copy)]
pub enum Worth {
    /// It counts.
    Counts,
    /// It has no effect, and may go.
    Hollow,
    /// It is a flush that no fence of its thread follows: the fence is missing.
    Unfenced,
}

/// What the mark of the column says besides.
pub fn worth_of(column: &Column) -> Worth {
    match column.dropped {
        None => Worth::Counts,
        Some(Reason::Unfenced) => Worth::Unfenced,
        Some(_) => Worth::Hollow,
    }
}

// The rules for the mark.
fn class_of(worth: Worth) -> &'static str {
    match worth {
        Worth::Counts => "mark",
        Worth::Hollow => "mark dropped",
        Worth::Unfenced => "unfenced",
    }
}

/// Adds the mark of the event, around this point.
pub fn push_mark(pen: &mut Pen, column: &Column, x: u64, y: u64) {
    let worth = worth_of(column);
    match column.event.op {
        Op::Store(_) => push_box(pen, "dot", x, y, 4, 4),
        Op::Clwb(_) | Op::ClflushOpt(_) => push_flush(pen, worth, x, y),
        Op::Clflush(_) => {
            push_flush(pen, worth, x, y);
            let (left, right) = (x.saturating_sub(7), x.saturating_add(7));
            pen.fill(
                "<path class='mark under' d='M# #H#'/>",
                &[left, y.saturating_add(9), right],
            );
        }
        Op::Sfence | Op::Mfence => {
            let class = match worth {
                Worth::Counts => "mark fence",
                Worth::Hollow | Worth::Unfenced => "mark dropped fence",
            };
            push_box(pen, class, x, y, 3, 9)
        }
        Op::IsPersist(_) | Op::IsOrderedBefore(_, _) => {
            push_verdict(pen, column.pass == Some(true), x, y)
        }
    }
}

// Adds a box around this point, with half its width and height.
fn push_box(pen: &mut Pen, class: &str, x: u64, y: u64, wide: u64, high: u64) {
    push_shape(
        pen,
        "rect",
        class,
        "x='#' y='#' width='#' height='#'/>",
        &[
            x.saturating_sub(wide),
            y.saturating_sub(high),
            wide.saturating_mul(2),
            high.saturating_mul(2),
        ],
    );
}

// Adds the mark of a flush; one whose fence is missing has an exclamation mark.
fn push_flush(pen: &mut Pen, worth: Worth, x: u64, y: u64) {
    push_triangle(pen, class_of(worth), x, y);
    if let Worth::Unfenced = worth {
        let (from, to) = (y.saturating_sub(4), y);
        pen.fill(
            "<path class='shout' d='M# #V#M# #V#'/>",
            &[x, from, to, x, to.saturating_add(2), to.saturating_add(3)],
        );
    }
}

// Adds a triangle around this point, that points down.
fn push_triangle(pen: &mut Pen, class: &str, x: u64, y: u64) {
    let (left, right) = (x.saturating_sub(7), x.saturating_add(7));
    let (top, low) = (y.saturating_sub(6), y.saturating_add(6));
    push_shape(
        pen,
        "path",
        class,
        "d='M# #H#L# #Z'/>",
        &[left, top, right, x, low],
    );
}

/// Adds the mark of an event that is missing, around this point.
pub fn push_missing_mark(pen: &mut Pen, wanted: MissingKind, x: u64, y: u64) {
    match wanted {
        MissingKind::Store(_) => push_box(pen, "mend", x, y, 4, 4),
        MissingKind::Fence => push_box(pen, "mend", x, y, 3, 9),
        MissingKind::Flush(_) => push_triangle(pen, "mend", x, y),
    }
}

/// Adds the mark of a flush over the bars of its line, under the name of its thread.
pub fn push_small_flush(pen: &mut Pen, worth: Worth, thread: u8, x: u64, top: u64) {
    pen.fill(
        "<text class='mid small' x='#' y='#'>T#",
        &[x, top.saturating_add(11), thread as u64],
    );
    if let Worth::Unfenced = worth {
        pen.put("!");
    }
    pen.put("</text>");
    push_small_triangle(pen, class_of(worth), x, top);
}

/// Adds the mark of a missing flush over the bars of its line, under the name of its thread.
pub fn push_small_missing(pen: &mut Pen, thread: u8, x: u64, top: u64) {
    pen.fill(
        "<text class='mid small mend-detail' x='#' y='#'>T#</text>",
        &[x, top.saturating_add(11), thread as u64],
    );
    push_small_triangle(pen, "mend", x, top);
}

// Adds a small triangle that points down to the bars of a line.
fn push_small_triangle(pen: &mut Pen, class: &str, x: u64, top: u64) {
    let (left, right) = (x.saturating_sub(5), x.saturating_add(5));
    push_shape(
        pen,
        "path",
        class,
        "d='M# #H#L# #Z'/>\n",
        &[
            left,
            top.saturating_add(14),
            right,
            x,
            top.saturating_add(21),
        ],
    );
}

// Adds the mark of an assertion: a tick where it passes, a cross where it fails.
fn push_verdict(pen: &mut Pen, pass: bool, x: u64, y: u64) {
    let (left, right) = (x.saturating_sub(4), x.saturating_add(4));
    let (top, low) = (y.saturating_sub(4), y.saturating_add(4));
    if pass {
        pen.fill(
            "<circle class='pass' cx='#' cy='#' r='8'/><path class='tick' d='M# #L# #L# #'/>",
            &[x, y, left, y, x, low, right, top],
        );
    } else {
        pen.fill(
            "<circle class='fail' cx='#' cy='#' r='8'/><path class='cross' d='M# #L# #M# #L# #'/>",
            &[x, y, left, top, right, low, right, top, left, low],
        );
    }
}
