//! What a terminal shows of a line.
ghost use Rattle.std.specs.Prelude.{◌≡◌, map, IfOk, string_bytes};
ghost use Rattle.std.specs.Str.{chars, encode_utf8_all};
ghost use Rattle.pmt_sources.specs.Places.{is_hidden as hidden, sign};

use pmt_model::OutOfMemory;
use std::alloc::Global;

// What stands for a character that is not shown.
const SIGN: char = '\u{fffd}';

/// The text as a terminal may show it: a space for each tab, and a sign for each character that could move the cursor, color what follows, or
/// turn the way in which it is read.
///
/// # Errors
/// Where memory was refused.
pub fn visible(alloc: Global, text: &str) -> Result<String, OutOfMemory>
    ensures { IfOk result (λ shown. string_bytes shown ≡ encode_utf8_all (map sign (chars text.now))) }
{
    let mut shown = String::new(alloc);
    for letter in text.chars() {
        shown.push(sign_of(letter))?;
    }
    Ok(shown)
}

// What stands for the character.
fn sign_of(letter: char) -> char
    ensures { result ≡ sign letter }
{
    if letter == '\t' {
        ' '
    } else if is_hidden(letter) {
        SIGN
    } else {
        letter
    }
}

// Whether the character is a control, or turns the way in which others are read.
fn is_hidden(letter: char) -> bool
    ensures { result ≡ hidden letter }
{
    letter <= '\u{1f}'
        || letter >= '\u{7f}' && letter <= '\u{9f}'
        || letter == '\u{61c}'
        || letter >= '\u{200e}' && letter <= '\u{200f}'
        || letter >= '\u{2028}' && letter <= '\u{202e}'
        || letter >= '\u{2066}' && letter <= '\u{2069}'
}
