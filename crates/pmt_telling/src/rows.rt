//! Lines of a text: their columns, and how they are cut.

use pmt_pen::Pen;
use unicode_width::UnicodeWidthChar;

/// The most columns of a line.
pub const WIDTH: u64 = 100;

/// Adds the text as a line, cut where it has too many columns.
pub fn push_line(pen: &mut Pen, text: &Pen) {
    pen.share(text);
    let _used = push_cut(pen, text.as_str(), WIDTH);
    pen.put("\n");
}

/// Adds the text as lines of whole words, of which all but the first begin with so many spaces. A word that no line has room for is cut.
pub fn push_wrapped(pen: &mut Pen, text: &Pen, columns: u64) {
    pen.share(text);
    let room = WIDTH.saturating_sub(columns);
    let mut used = 0u64;
    for (index, word) in text.as_str().split(' ').enumerate() {
        let with_word = used.saturating_add(width_of(word).min(room));
        if index > 0 && with_word >= WIDTH {
            pen.put("\n");
            push_spaces(pen, columns);
            used = columns;
        } else if index > 0 {
            pen.put(" ");
            used = used.saturating_add(1);
        }
        used = used.saturating_add(push_cut(pen, word, room));
    }
    pen.put("\n");
}

/// Adds the text, or as much of it as has room in so many columns, with a mark that some is missing; and tells how many it took.
pub fn push_cut(pen: &mut Pen, text: &str, most: u64) -> u64 {
    let is_cut = width_of(text) > most;
    let room = if is_cut { most.saturating_sub(1) } else { most };
    let mut used = 0u64;
    for letter in text.chars() {
        let with_letter = used.saturating_add(letter_width(letter));
        if with_letter > room {
            break;
        }
        pen.letter(letter);
        used = with_letter;
    }
    if is_cut {
        pen.letter('…');
        used = used.saturating_add(1);
    }
    used
}

/// Adds the text in so many columns: cut, or with spaces after it.
pub fn push_column(pen: &mut Pen, text: &str, columns: u64) {
    let used = push_cut(pen, text, columns);
    push_spaces(pen, columns.saturating_sub(used));
}

/// Adds so many spaces.
pub fn push_spaces(pen: &mut Pen, count: u64) {
    for _ in 0..count {
        pen.letter(' ');
    }
}

/// How many lines the text has.
pub fn lines_of(text: &Pen) -> usize {
    let bytes = text.as_str().as_bytes().iter();
    bytes.filter(|byte| **byte == b'\n').count()
}

/// How many columns the text takes.
pub fn width_of(text: &str) -> u64 {
    let widths = text.chars().map(|letter| letter_width(letter));
    widths.fold(0u64, |sum, width| sum.saturating_add(width))
}

// How many columns the letter takes.
fn letter_width(letter: char) -> u64 {
    letter.width().unwrap_or(0) as u64
}
