//! The bars of stores: a part for each state, with its words.
use crate::layout::BAR;
use crate::page::Page;
use crate::shapes::push_shape;
use crate::words::push_event_words;
use pmt_model::Op;
use pmt_pen::Pen;
use pmt_picture::{Bar, Column, Flush, Saver};

// The width of a letter in a bar, in tenths of a pixel.
const LETTER: u64 = 67;

// The states of a store.
#[derive(Clone, Copy)]
enum State {
    Pending,
    Flushed,
    Safe,
}

/// Adds the bar of stores to the line of this address.
pub fn push_bar(pen: &mut Pen, page: Page<'_>, bar: &Bar, address: u64, top: u64) {
    pen.fill(
        "<g class='store' data-event='#' data-last='#' data-drawn='#' data-line='@'><title>",
        &[bar.store, bar.last, bar.drawn, address],
    );
    push_title(pen, page, bar);
    pen.put("</title>");
    let flushed = bar.flush.map(|flush| flush.number);
    let safe = bar.safe.map(|saver| saver.number);
    push_segment(pen, page, bar, State::Pending, bar.store, flushed, top);
    if let Some(flush) = flushed {
        if safe != flushed {
            push_segment(pen, page, bar, State::Flushed, flush, safe, top);
        }
    }
    if let Some(safe) = safe {
        push_segment(pen, page, bar, State::Safe, safe, bar.until, top);
    }
    push_ticks(pen, page, bar, top);
    pen.put("</g>\n");
}

// Adds what is told of a bar.
fn push_title(pen: &mut Pen, page: Page<'_>, bar: &Bar) {
    for column in &page.picture.columns {
        if bar.has(page.picture.format, column) {
            push_event_words(pen, column, page.labels);
            push_offset(pen, page, column);
        }
    }
    match bar.flush {
        Some(Flush { number, thread }) => pen.fill(
            "flushed by event # of thread #",
            &[number, thread as u64],
        ),
        None => pen.put("not flushed"),
    }
    match bar.safe {
        Some(
            Saver {
                number,
                thread,
                is_fence,
            },
        ) => {
            pen.fill("; safe from event # on, ", &[number]);
            pen.put(if is_fence { "the fence" } else { "the clflush" });
            pen.fill(" of thread #", &[thread as u64]);
        }
        None => pen.put("; not safe"),
    }
}

// Adds where the store in the column begins in its line.
fn push_offset(pen: &mut Pen, page: Page<'_>, column: &Column) {
    let op = column.event.op;
    if let Op::Store(written) = op {
        let offset = written.addr().get() % page.picture.format.line_size();
        pen.fill(", at +# of its line; ", &[offset]);
    }
}

// Adds a tick where each store of the bar but the first begins.
fn push_ticks(pen: &mut Pen, page: Page<'_>, bar: &Bar, top: u64) {
    for column in &page.picture.columns {
        let number = column.number;
        if number > bar.store && bar.has(page.picture.format, column) {
            pen.fill(
                "<path class='stored' data-store='#' d='M# #V#'/>",
                &[
                    number,
                    page.layout.middle(number),
                    top,
                    top.saturating_add(BAR),
                ],
            );
        }
    }
}

// Adds one state of a bar, from one event to another or for good, with its words where there is room.
fn push_segment(
    pen: &mut Pen,
    page: Page<'_>,
    bar: &Bar,
    state: State,
    from: u64,
    to: Option<u64>,
    top: u64,
) {
    let x = page.layout.middle(from);
    let end = match to {
        Some(to) => page.layout.middle(to),
        None => page.layout.right,
    };
    if end <= x {
        return;
    }
    push_shape(
        pen,
        "rect",
        match state {
            State::Pending => "pending",
            State::Flushed => "flushed",
            State::Safe => "safe",
        },
        "data-from='#' x='#' y='#' width='#' height='#'/>",
        &[from, x, top, end.saturating_sub(x), BAR],
    );
    let (start, room) = room_in(page, bar, x, end);
    let letters = room.saturating_sub(8).saturating_mul(10) / LETTER;
    push_longest(pen, page, bar, state, letters, start, top);
}

// Adds the longest words for the state that have room, if any have, into a box from this side on.
fn push_longest(
    pen: &mut Pen,
    page: Page<'_>,
    bar: &Bar,
    state: State,
    letters: u64,
    start: u64,
    top: u64,
) {
    for detail in [3, 2, 1, 0] {
        let mut words = Pen::new(pen.alloc());
        match state {
            State::Pending => push_pending(&mut words, page, bar, detail),
            State::Flushed => push_flushed(&mut words, bar, detail),
            State::Safe => push_safe(&mut words, bar, detail),
        }
        pen.share(&words);
        if words.len() <= letters {
            pen.fill(
                "<text class='halo' x='#' y='#'>",
                &[start.saturating_add(4), top.saturating_add(11)],
            );
            pen.put(words.as_str());
            pen.put("</text>");
            return;
        }
    }
}

// Where the last store of the bar but the first begins, if there is one.
fn last_tick(page: Page<'_>, bar: &Bar) -> Option<u64> {
    if bar.last == bar.store {
        return None;
    }
    Some(page.layout.middle(bar.last))
}

// Where words of the bar have room between these sides, and how much: no crash line crosses them, and no tick of a store.
fn room_in(page: Page<'_>, bar: &Bar, left: u64, right: u64) -> (u64, u64) {
    let (mut from, mut to) = (left, right);
    if let Some(last) = last_tick(page, bar) {
        let last = last.saturating_add(4);
        if left < last {
            from = last.min(right);
        }
    }
    if let Some(x) = page.layout.crash {
        let (low, high) = (x.saturating_sub(4), x.saturating_add(48));
        if low < to && from < high {
            if low.saturating_sub(from) >= to.saturating_sub(high) {
                to = low.max(from);
            } else {
                from = high.min(to);
            }
        }
    }
    (from, to.saturating_sub(from))
}

// Adds the words for stores that are not flushed.
fn push_pending(pen: &mut Pen, page: Page<'_>, bar: &Bar, detail: u8) {
    let (store, last) = (bar.store, bar.last);
    let many = bar.drawn > 1;
    match detail {
        0 if many => pen.fill("#x", &[bar.drawn]),
        0 => pen.number(store),
        1 if many => pen.fill("# stores", &[bar.drawn]),
        1 => pen.fill("store #", &[store]),
        _ if many => pen.fill("# stores, # to #: not flushed", &[bar.drawn, store, last]),
        2 => pen.fill("store #: not flushed", &[store]),
        _ => {
            pen.fill("store #", &[store]);
            push_value(pen, page, store);
            pen.put(": not flushed");
        }
    }
}

// Adds where the store begins in its line and the bytes that it stores, if it is drawn.
fn push_value(pen: &mut Pen, page: Page<'_>, store: u64) {
    let Some(column) = page.picture.column(store) else {
        return;
    };
    let op = column.event.op;
    match op {
        Op::Store(written) => {
            let offset = written.addr().get() % page.picture.format.line_size();
            pen.fill(" +#=", &[offset]);
            pen.bytes(written.bytes());
        }
        _ => {}
    }
}

// Adds the words for stores that a thread has flushed: the more detail, the longer.
fn push_flushed(pen: &mut Pen, bar: &Bar, detail: u8) {
    if let Some(Flush { thread, number: _ }) = bar.flush {
        let thread = thread as u64;
        match detail {
            0 => pen.fill("T#", &[thread]),
            1 => pen.fill("flushed by T#", &[thread]),
            _ => pen.fill("flushed by T#, no fence of T# yet", &[thread, thread]),
        }
    }
}

// Adds the words for stores that are safe, and what made them so.
fn push_safe(pen: &mut Pen, bar: &Bar, detail: u8) {
    if let Some(saver) = bar.safe {
        push_saver(pen, saver, detail);
    }
}

// Adds what makes it so, in so much detail.
fn push_saver(pen: &mut Pen, saver: Saver, detail: u8) {
    let thread = saver.thread as u64;
    match detail {
        0 => pen.put("safe"),
        1 => pen.fill("safe by T#", &[thread]),
        _ => {
            pen.put("safe by ");
            pen.put(if saver.is_fence { "fence" } else { "clflush" });
            pen.fill(" # of T#", &[saver.number, thread]);
        }
    }
}
