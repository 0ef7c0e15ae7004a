//! What the program calls its events, cut where it has no room.
use crate::words::push_letter;
use pmt_pen::Pen;
use unicode_width::UnicodeWidthChar;

// How many letters' room the letter takes.
fn letter_room(letter: char) -> u64 {
    letter.width().unwrap_or(1) as u64
}

// What stands between a place and that of its caller.
const CALLER: &str = " < ";

/// Adds the label. Where it has no room, dots stand for the callers of its place; where that has none either, dots and the end of the
/// place, which tells most.
pub fn push_cut(pen: &mut Pen, label: &str, most: u64) {
    let place = match label.find(CALLER) {
        Some(end) if room_of(label, label.len()) > most => end,
        _ => label.len(),
    };
    let callers = if place < label.len() { 2 } else { 0 };
    let mut over = room_of(label, place)
        .saturating_add(callers)
        .saturating_sub(most);
    if over > 0 {
        over = over.saturating_add(1);
        pen.letter('…');
    }
    let mut at = 0;
    for letter in label.chars() {
        if over > 0 {
            over = over.saturating_sub(letter_room(letter));
        } else if at < place {
            push_letter(pen, letter);
        }
        at = letter.len_utf8().saturating_add(at);
    }
    if place < label.len() {
        pen.put(" …");
    }
}

/// How many letters' room the first bytes of the text take: wide letters, as those of Chinese, take two.
pub fn room_of(text: &str, end: usize) -> u64 {
    let mut room: u64 = 0;
    let mut at = 0;
    for letter in text.chars() {
        if at < end {
            room = room.saturating_add(letter_room(letter));
        }
        at = letter.len_utf8().saturating_add(at);
    }
    room
}
