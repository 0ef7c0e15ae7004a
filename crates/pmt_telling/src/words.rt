//! Numbers, counts and lists in words.

use crate::telling::Telling;
use pmt_asked::frame_of;
use pmt_pen::Pen;
use std::alloc::Global;

// The most things that are named; of more, all but the last of these are.
const NAMED: usize = 3;

impl Telling<'_> {
    /// Adds the form, with the next of the numbers in place of each sign: `#` as it is, `%` with a comma before each three digits, `@` as an
    /// address, `$` as the event of that number with its site, `*` how often something is. A `~` is the ending of a noun for the number before
    /// it: of `% store~` come `1 store` and `1,234 stores`.
    pub fn say(&self, pen: &mut Pen, form: &str, numbers: &[u64]) {
        let mut left = numbers.iter();
        let mut number = 0u64;
        for letter in form.chars() {
            match letter {
                '#' | '%' | '@' | '$' | '*' => {
                    number = left.next().copied().unwrap_or(0);
                    self.push_as(pen, letter, number);
                }
                '~' => push_ending(pen, number),
                _ => pen.letter(letter),
            }
        }
    }

    /// The form with these numbers.
    pub fn said(&self, form: &str, numbers: &[u64]) -> Pen {
        let mut pen = Pen::new(self.alloc);
        self.say(&mut pen, form, numbers);
        pen
    }

    // Adds the number as the sign says.
    fn push_as(&self, pen: &mut Pen, sign: char, number: u64) {
        match sign {
            '%' => push_number(pen, number),
            '@' => pen.address(number),
            '$' => self.push_event_at(pen, number),
            '*' if number == 1 => pen.put("once"),
            '*' => {
                push_number(pen, number);
                pen.put(" times");
            }
            _ => pen.number(number),
        }
    }

    // Adds the event's number, with its site if it has a label.
    fn push_event_at(&self, pen: &mut Pen, number: u64) {
        pen.fill("event #", &[number]);
        if let Some(label) = self.label(number) {
            pen.put(" (");
            pen.put(frame_of(label));
            pen.put(")");
        }
    }
}

// Adds the number with a comma before each three digits.
fn push_number(pen: &mut Pen, number: u64) {
    let mut digits = Pen::new(pen.alloc());
    digits.number(number);
    let mut left = digits.len();
    for digit in digits.as_str().chars() {
        pen.letter(digit);
        left = left.saturating_sub(1);
        if left > 0 && left % 3 == 0 {
            pen.letter(',');
        }
    }
    pen.share(&digits);
}

// Adds the ending of the noun before for so many.
fn push_ending(pen: &mut Pen, count: u64) {
    if count != 1 {
        let is_hissed = pen.as_str().ends_with("sh");
        pen.put(if is_hissed { "es" } else { "s" });
    }
}

/// Adds what stands before the item with this index of so many in a list of words.
pub fn push_comma(pen: &mut Pen, index: usize, count: usize) {
    if index > 0 {
        let is_last = index.saturating_add(1) == count;
        pen.put(if is_last { " and " } else { ", " });
    }
}

/// Adds how many of so many are not named, if some are not.
pub fn push_more(pen: &mut Pen, named: usize, count: usize) {
    if count > named {
        pen.fill(" and # more", &[count.saturating_sub(named) as u64]);
    }
}

// How many of so many are named.
pub(crate) fn named_of(count: usize) -> usize {
    if count > NAMED { NAMED - 1 } else { count }
}

/// Adds the addresses of these cache lines, given by their numbers: `line 0x40`, `lines 0x40, 0x80 and 2 more`.
pub fn push_lines(pen: &mut Pen, told: &Telling<'_>, lines: &[u64]) {
    pen.put(if lines.len() == 1 { "line " } else { "lines " });
    let named = named_of(lines.len());
    for (index, line) in lines.iter().take(named).enumerate() {
        push_comma(pen, index, lines.len());
        pen.address(told.line_address(*line));
    }
    push_more(pen, named, lines.len());
}

/// Adds the other text.
pub fn push_text(pen: &mut Pen, text: &Pen) {
    pen.share(text);
    pen.put(text.as_str());
}

/// These words.
pub fn pen_of(alloc: Global, words: &str) -> Pen {
    let mut pen = Pen::new(alloc);
    pen.put(words);
    pen
}
