//! What stands over the drawing: what it is about, and what is left out.
use crate::layout::{EDGE, LINE, Layout};
use crate::shapes::push_shape;
use crate::words::{push_assertion, push_cause, push_claim, push_event, push_kept, push_shown};
use pmt_pen::Pen;
use pmt_picture::{DrawnCrash, DrawnSubject, Picture};
use pmt_text::line_address;

// The width of a letter of the told lines, in tenths of a pixel.
const LETTER: u64 = 79;

/// Adds the lines over the drawing, and answers where they end.
pub fn push_head(pen: &mut Pen, picture: &Picture, layout: &Layout) -> u64 {
    let top = EDGE + 14;
    pen.put("<title>");
    push_headline(pen, picture);
    pen.fill(
        "</title>\n<text class='headline' x='#' y='#'>",
        &[EDGE, top],
    );
    push_headline(pen, picture);
    pen.put("</text>\n");
    let letters = layout.width().saturating_sub(2 * EDGE).saturating_mul(10) / LETTER;
    let end = match picture.crash.as_ref() {
        Some(crash) => push_focus(pen, picture, crash, letters, top + 6),
        None => push_late(pen, picture, letters, top + 6),
    };
    push_left(pen, picture, letters, end).saturating_add(24)
}

// Adds the words of the first line, which is the page's title too.
fn push_headline(pen: &mut Pen, picture: &Picture) {
    match picture.subject {
        DrawnSubject::Failure(_) => if let Some(crash) = picture.crash.as_ref() {
            push_assertion(pen, crash);
            pen.put(".");
        },
        DrawnSubject::Lost(group) => if let Some(crash) = picture.crash.as_ref() {
            let line = line_address(picture.format, group.line);
            let count = crash.lost.len() as u64;
            pen.fill("Never persisted: #", &[count]);
            pen.put(if count == 1 { " store" } else { " stores" });
            pen.fill(" to line @", &[line]);
        },
        DrawnSubject::Late(store) => pen.fill("Store # is saved late", &[store]),
        DrawnSubject::Around(_) => match (picture.columns.first(), picture.columns.last()) {
            (Some(first), Some(last)) => pen.fill("Events # to #", &[first.number, last.number]),
            _ => pen.put("No events"),
        },
    }
}

// Adds what the crash's assertion claims, where it is drawn, what the crash shows and why, and answers where that ends.
fn push_focus(pen: &mut Pen, picture: &Picture, crash: &DrawnCrash, letters: u64, top: u64) -> u64 {
    let mut claim = Pen::new(pen.alloc());
    if let Some(assertion) = crash.assertion {
        if let Some(column) = picture.column(assertion.number) {
            push_claim(&mut claim, column, assertion.ordered);
        }
    }
    let y = push_told(pen, "told", &claim, letters, top);
    let mut shown = Pen::new(pen.alloc());
    push_shown(&mut shown, crash);
    push_kept(&mut shown, picture, crash);
    let y = push_told(pen, "told", &shown, letters, y);
    let mut why = Pen::new(pen.alloc());
    push_cause(&mut why, crash);
    push_told(pen, "told", &why, letters, y)
}

// Adds what is told of a late store, where the picture is about one, and answers where that ends.
fn push_late(pen: &mut Pen, picture: &Picture, letters: u64, top: u64) -> u64 {
    let DrawnSubject::Late(store) = picture.subject else {
        return top;
    };
    let mut words = Pen::new(pen.alloc());
    if let Some(column) = picture.column(store) {
        push_event(&mut words, column);
        words.put(": ");
    }
    words.put("two fences or more of its own thread come after it and leave it unsafe.");
    push_told(pen, "told", &words, letters, top)
}

// Adds what is drawn and what is left out, and answers where that ends.
fn push_left(pen: &mut Pen, picture: &Picture, letters: u64, top: u64) -> u64 {
    let columns = picture.columns.len() as u64;
    let rows = picture.rows.len() as u64;
    let mut words = Pen::new(pen.alloc());
    words.fill("Drawn: # of # events", &[columns, picture.events]);
    if picture.subject.is_finding() && picture.cut == 0 {
        words.put(", all that tell of it");
    }
    words.fill(
        ", # of # cache lines of # bytes.",
        &[rows, picture.lines, picture.format.line_size()],
    );
    let left = picture.events.saturating_sub(columns);
    if left > 0 {
        words.fill(" Left out: #", &[left]);
        words.put(if left == 1 { " event" } else { " events" });
        words.put(if columns > 0 {
            ", where the dots stand."
        } else {
            "."
        });
    }
    push_cut(&mut words, picture);
    push_unseen(&mut words, picture);
    push_told(pen, "told soft", &words, letters, top)
}

// Adds how many of the events that tell of the subject are not drawn, and how to see more.
fn push_cut(words: &mut Pen, picture: &Picture) {
    let (option, number) = match picture.subject {
        DrawnSubject::Failure(number) => ("failure", number),
        DrawnSubject::Lost(group) => ("store", group.first),
        DrawnSubject::Late(number) => ("store", number),
        DrawnSubject::Around(_) => return,
    };
    let drawn = picture.columns.len() as u64;
    if picture.cut > 0 {
        words.fill(
            " Of the # events that tell of it, # have no room: 'pmtrim slice --",
            &[picture.cut.saturating_add(drawn), picture.cut],
        );
        words.put(option);
        words.fill(" #' writes all.", &[number]);
    }
    if picture.events > drawn {
        words.fill(" '--around #' draws all events near it.", &[number]);
    }
}

// Adds how many of the stores that the crash of the subject loses are not drawn.
fn push_unseen(words: &mut Pen, picture: &Picture) {
    let Some(crash) = picture.crash.as_ref() else {
        return;
    };
    let mut unseen: u64 = 0;
    for store in &crash.lost {
        if picture.column(*store).is_none() {
            unseen = unseen.saturating_add(1);
        }
    }
    if unseen > 0 {
        words.fill(
            " Of the # stores that it loses, # are not drawn.",
            &[crash.lost.len() as u64, unseen],
        );
    }
}

// Adds the words in lines of at most so many letters, and answers where they end.
fn push_told(pen: &mut Pen, class: &str, words: &Pen, letters: u64, top: u64) -> u64 {
    pen.share(words);
    let mut y = top;
    let mut used: u64 = 0;
    for word in words.as_str().split_whitespace() {
        let wide = word.len() as u64;
        if used > 0 && used.saturating_add(wide) >= letters {
            pen.put("</text>\n");
            used = 0;
        }
        if used > 0 {
            pen.put(" ");
            used = used.saturating_add(1);
        } else {
            y = y.saturating_add(LINE);
            push_shape(pen, "text", class, "x='#' y='#'>", &[EDGE, y]);
        }
        pen.put(word);
        used = used.saturating_add(wide);
    }
    if used > 0 {
        pen.put("</text>\n");
    }
    y
}
