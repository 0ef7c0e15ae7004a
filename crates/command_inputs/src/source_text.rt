//! How a line of a source file is shown.

use std::alloc::{AllocError, Global};

// The most characters of a line.
const MOST_LETTERS: usize = 200;

/// The line as it is shown: without a CR at its end, cut at 200 characters, and where it is no UTF-8 with a sign for each byte that is no
/// ASCII.
///
/// # Errors
/// Where memory was refused.
pub fn shown_source(alloc: Global, line: &[u8]) -> Result<String, AllocError> {
    let line = line.strip_suffix(b"\r".as_slice()).unwrap_or(line);
    let mut text = String::new(alloc);
    match str::from_utf8(line) {
        Ok(whole) => {
            for (place, letter) in whole.chars().enumerate() {
                if place == MOST_LETTERS {
                    text.push('…')?;
                    break;
                }
                text.push(letter)?;
            }
        }
        Err(_) => {
            for (place, byte) in line.iter().enumerate() {
                if place == MOST_LETTERS {
                    text.push('…')?;
                    break;
                }
                text.push(if byte.is_ascii() {
                    char::from(*byte)
                } else {
                    '\u{fffd}'
                })?;
            }
        }
    }
    Ok(text)
}
