//! What is missing where the crash loses stores: each event with its mark and its words, where it is put in.
use crate::marks::{push_missing_mark, push_small_missing};
use crate::page::Page;
use pmt_model::Format;
use pmt_pen::Pen;
use pmt_picture::{Missing, MissingKind};
use pmt_text::line_address;

/// Adds what is missing, from left to right.
pub fn push_missing(pen: &mut Pen, page: Page<'_>) {
    for (missing, x) in page.picture.missing.iter().zip(page.layout.missing.iter()) {
        push_group(pen, page, missing, *x);
    }
}

/// The most letters that stand over a missing event, upright.
pub fn missing_letters(missing: &Missing, format: Format) -> u64 {
    let address = match missing.wanted {
        MissingKind::Store(_) | MissingKind::Fence => 0,
        MissingKind::Flush(line) => {
            let digits = line_address(format, line).checked_ilog2().unwrap_or(0) / 4;
            (digits as u64).saturating_add(4)
        }
    };
    let words = missing_word(missing.wanted).len() as u64;
    words.saturating_add(address).saturating_add(8)
}

// What is missing.
fn missing_word(wanted: MissingKind) -> &'static str {
    match wanted {
        MissingKind::Store(_) => "store here",
        MissingKind::Flush(_) => "clwb here",
        MissingKind::Fence => "sfence here",
    }
}

// Adds the line that a missing flush is of, and the thread.
fn push_detail(pen: &mut Pen, page: Page<'_>, missing: &Missing) {
    if let MissingKind::Flush(line) = missing.wanted {
        pen.fill("@ ", &[line_address(page.picture.format, line)]);
    }
    pen.fill("by T#", &[missing.thread as u64]);
}

// Adds a missing event.
fn push_group(pen: &mut Pen, page: Page<'_>, missing: &Missing, x: u64) {
    let thread = missing.thread as u64;
    pen.put("<g class='missing' data-missing='");
    pen.put(match missing.wanted {
        MissingKind::Store(_) => "store",
        MissingKind::Flush(_) => "flush",
        MissingKind::Fence => "fence",
    });
    pen.fill(
        "' data-thread='#' data-after='#' data-x='#'",
        &[thread, missing.after, x],
    );
    if let Some(before) = missing.before {
        pen.fill(" data-before='#'", &[before]);
    }
    pen.put("><title>");
    push_title(pen, page, missing);
    pen.put("</title>");
    push_words(pen, page, missing, x);
    let y = page.layout.thread_middle(missing.thread, page.threads);
    push_missing_mark(pen, missing.wanted, x, y);
    pen.put("</g>\n");
}

// Adds what is to be put in, and where.
fn push_title(pen: &mut Pen, page: Page<'_>, missing: &Missing) {
    match missing.wanted {
        MissingKind::Store(store) => pen.fill("missing: store #", &[store]),
        MissingKind::Flush(line) => pen.fill(
            "missing: clwb @",
            &[line_address(page.picture.format, line)],
        ),
        MissingKind::Fence => pen.put("missing: sfence"),
    }
    pen.fill(" by thread #", &[missing.thread as u64]);
    match (missing.wanted, missing.before) {
        (MissingKind::Store(_), Some(before)) => pen.fill(" before event #", &[before]),
        (_, Some(before)) => pen.fill(
            " after event # and before event #",
            &[missing.after, before],
        ),
        (_, None) => pen.fill(" after event #", &[missing.after]),
    }
}

// Adds the words, which stand as those of the columns do.
fn push_words(pen: &mut Pen, page: Page<'_>, missing: &Missing, x: u64) {
    let word = missing_word(missing.wanted);
    if page.layout.is_flat() {
        pen.fill(
            "<text class='mid mend-word' x='#' y='#'>",
            &[x, page.threads.saturating_sub(24)],
        );
        pen.put(word);
        pen.fill(
            "</text><text class='mid small mend-detail' x='#' y='#'>",
            &[x, page.threads.saturating_sub(10)],
        );
        push_detail(pen, page, missing);
    } else {
        pen.fill(
            "<text class='mend-word' transform='translate(# #) rotate(-90)'>",
            &[x.saturating_add(4), page.threads.saturating_sub(8)],
        );
        pen.put(word);
        pen.put(" <tspan class='mend-detail'>");
        push_detail(pen, page, missing);
        pen.put("</tspan>");
    }
    pen.put("</text>");
}

/// Adds the marks of the missing flushes of the line, in its row that begins there.
pub fn push_missing_flushes(pen: &mut Pen, page: Page<'_>, line: u64, top: u64) {
    for (missing, x) in page.picture.missing.iter().zip(page.layout.missing.iter()) {
        if missing.wanted == MissingKind::Flush(line) {
            push_small_missing(pen, missing.thread, *x, top);
        }
    }
}
