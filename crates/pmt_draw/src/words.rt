//! The words of the picture.
use pmt_asked::Labels;
use pmt_model::Event;
use pmt_pen::Pen;
use pmt_picture::{Assertion, Column, DrawnCrash, Picture};
use pmt_reasons::{Cause, Reason};
use pmt_text::write_event;

/// Adds the text, so that it stands for itself inside an element or an attribute.
pub fn push_escaped(pen: &mut Pen, words: &str) {
    for letter in words.chars() {
        push_letter(pen, letter);
    }
}

/// Adds the letter, so that it stands for itself. Characters that XML has not, and those that turn the direction of the letters after
/// them, are shown as '?'.
pub fn push_letter(pen: &mut Pen, letter: char) {
    match letter {
        '&' => pen.put("&amp;"),
        '<' => pen.put("&lt;"),
        '>' => pen.put("&gt;"),
        '\'' => pen.put("&#39;"),
        '"' => pen.put("&quot;"),
        '\u{0}'..='\u{1f}' | '\u{7f}'..='\u{9f}' | '\u{fffe}' | '\u{ffff}' => pen.letter('?'),
        '\u{200e}' | '\u{200f}' | '\u{202a}'..='\u{202e}' | '\u{2066}'..='\u{2069}' => pen.letter(
            '?',
        ),
        _ => pen.letter(letter),
    }
}

/// Adds the event as a trace spells it.
pub fn push_event(pen: &mut Pen, column: &Column) {
    let Event { thread, op } = column.event;
    let Ok(mut line) = write_event(pen.alloc(), Event { thread, op }) else {
        pen.refuse();
        return;
    };
    let _end = line.pop();
    if let Ok(words) = str::from_utf8(line.as_slice()) {
        push_escaped(pen, words);
    }
}

/// Adds the event's number, its words and its label.
pub fn push_event_words(pen: &mut Pen, column: &Column, labels: &Labels) {
    pen.fill("event #: ", &[column.number]);
    push_event(pen, column);
    if let Some(label) = labels.get(column.number) {
        pen.put(" (");
        push_escaped(pen, label.as_str());
        pen.put(")");
    }
}

/// Adds why the store that the crash loses first is not safe, as a sentence; nothing where no cause is known.
pub fn push_cause(pen: &mut Pen, crash: &DrawnCrash) {
    let lost = crash.failure.lost.store;
    match crash.cause {
        None => {}
        Some(Cause::Later) => pen.fill("Store # comes only after that crash.", &[lost]),
        Some(Cause::Unflushed) => pen.fill(
            "No flush of its line follows store # before the crash.",
            &[lost],
        ),
        Some(
            Cause::Unfenced {
                flush,
                thread,
                other,
            },
        ) => {
            let thread = thread as u64;
            pen.fill(
                "Flush # by thread # covers store #, but thread # makes no fence between that flush and the crash",
                &[flush, thread, lost, thread],
            );
            match other {
                None => pen.put("."),
                Some(fence) => pen.fill(
                    ": fence # is another thread's, and does not wait for the flush.",
                    &[fence],
                ),
            }
        }
    }
}

/// Adds what the crash shows, as a sentence, and how many stores it loses where they are several.
pub fn push_shown(pen: &mut Pen, crash: &DrawnCrash) {
    let lost = crash.failure.lost;
    if crash.assertion.is_none() {
        pen.fill("A crash at the end may lose store #", &[lost.store]);
    } else {
        pen.fill("A crash right after event # may ", &[crash.failure.place]);
        if let Some(kept) = crash.failure.kept {
            pen.fill(
                "keep store #, the last one to byte @, and ",
                &[kept.store, kept.byte],
            );
        }
        pen.fill(
            "lose store #, the last one to byte @",
            &[lost.store, lost.byte],
        );
    }
    let all = crash.lost.len() as u64;
    if all > 1 {
        pen.fill(", and with it # stores in all", &[all]);
    }
    pen.put(".");
}

/// Adds how the store that the crash keeps can be kept, as a sentence after another, where no flush of its line comes by then.
pub fn push_kept(pen: &mut Pen, picture: &Picture, crash: &DrawnCrash) {
    let Some(kept) = crash.failure.kept else {
        return;
    };
    let Some(column) = picture.column(kept.store) else {
        return;
    };
    let place = crash.failure.place;
    for row in &picture.rows {
        for bar in &row.bars {
            let is_flushed = match bar.flush {
                Some(flush) => flush.number <= place,
                None => false,
            };
            if !is_flushed && bar.has(picture.format, column) {
                pen.fill(
                    " Store # is kept without a flush: the cache may write its line back by itself.",
                    &[kept.store],
                );
            }
        }
    }
}

/// Adds what the crash violates, or what it loses.
pub fn push_assertion(pen: &mut Pen, crash: &DrawnCrash) {
    match crash.assertion {
        Some(Assertion { number, ordered }) => {
            pen.put(if ordered {
                "isOrderedBefore"
            } else {
                "isPersist"
            });
            pen.fill(" # fails", &[number]);
        }
        None => pen.fill("# lost for good", &[crash.lost.len() as u64]),
    }
}

/// Adds what the assertion in this column claims, as a sentence.
pub fn push_claim(pen: &mut Pen, column: &Column, ordered: bool) {
    pen.put("It claims by ");
    push_event(pen, column);
    pen.put(if ordered {
        " that no crash keeps the second bytes without the first."
    } else {
        " that no crash loses these bytes."
    });
}

/// Adds why an event is dropped, as a clause.
pub fn push_reason(pen: &mut Pen, reason: Reason) {
    match reason {
        Reason::Safe => pen.put("all stores to its line are safe already"),
        Reason::Unfenced => pen.put("its thread makes no fence after it: that fence is missing"),
        Reason::Repeated { by } => {
            pen.fill("event # flushes the line again before the fence", &[by])
        }
        Reason::Overtaken { by } => {
            pen.fill("event # makes its stores safe before the fence", &[by])
        }
        Reason::Empty => pen.put("its thread has flushed nothing since its last fence"),
        Reason::Useless => pen.put("it makes no store safe"),
    }
}
