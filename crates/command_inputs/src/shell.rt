//! Words as a shell reads them.

use std::alloc::{AllocError, Global};

/// The word as a shell reads it: in quotes where it has to be.
///
/// # Errors
/// `OutOfMemory`.
pub fn shell_word(alloc: Global, word: &str) -> Result<String, AllocError> {
    if is_plain_word(word) {
        return String::from_str(alloc, word);
    }
    let mut quoted = String::from_str(alloc, "'")?;
    for letter in word.chars() {
        push_letter(&mut quoted, letter)?;
    }
    quoted.push_str("'")?;
    Ok(quoted)
}

fn push_letter(quoted: &mut String, letter: char) -> Result<(), AllocError> {
    match letter {
        '\'' => quoted.push_str("'\\''"),
        _ => quoted.push(letter),
    }
}

// Whether a shell takes the word as it is.
fn is_plain_word(word: &str) -> bool {
    for byte in word.as_bytes() {
        if !is_plain(*byte) {
            return false;
        }
    }
    !word.is_empty()
}

// Whether a shell takes the byte as it is.
fn is_plain(byte: u8) -> bool {
    byte.is_ascii_alphanumeric() || b"_-./+,:=@%".contains(&byte)
}
