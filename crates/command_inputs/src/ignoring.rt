//! The stores that words and files tell to ignore: ranges of bytes, and places of the source.

use crate::bytes::has_control;
use crate::fault::Fault;
use crate::ranges::range_of;
use crate::refused::{Wrong, refused_line, split_line};
use pmt_asked::{Ignored, IgnoredPlace, frame_of};
use std::alloc::{AllocError, Global};

// How a place is named.
const NAMED: &str =
    "what labels say before ' < ', as 'list.c:57 insert', or its beginning and a star, as 'list.c:*'";

/// The place that this word of the option names.
///
/// # Errors
/// A usage fault that names the word and says what is allowed; `OutOfMemory`.
pub fn asked_place(alloc: Global, option: &str, text: &str) -> Result<IgnoredPlace, Fault> {
    if is_place(text) {
        return Ok(place_of(alloc, text)?);
    }
    let message = format!(in alloc; "invalid value '{text}' for '{option}': {NAMED}");
    Err(Fault::usage_of(alloc, message))
}

// Whether the text names a place: an innermost frame, with nothing of its callers.
fn is_place(text: &str) -> bool {
    !text.is_empty() && frame_of(text).len() == text.len()
}

// The place that the text names.
fn place_of(alloc: Global, text: &str) -> Result<IgnoredPlace, AllocError> {
    let (text, is_start) = match text.strip_suffix('*') {
        Some(start) => (start, true),
        None => (text, false),
    };
    Ok(IgnoredPlace {
        text: String::from_str(alloc, text)?,
        is_start,
    })
}

/// Adds what a file with this name and text tells to ignore: lines `A:N` and `label LABEL`.
///
/// # Errors
/// A fault that names the first faulty line and what is wrong there; `OutOfMemory`. What the lines before it say is added then.
pub fn read_ignored(
    alloc: Global,
    name: &str,
    text: &[u8],
    ignored: &mut Ignored,
) -> Result<(), Fault> {
    let mut rest = text;
    for number in 1..=u64::MAX {
        if rest.is_empty() {
            break;
        }
        let Some((line, later)) = split_line(rest) else {
            let wrong = Wrong::new(alloc, "the line does not end", ENDS);
            return Err(refused_line(alloc, name, number, rest, wrong));
        };
        if !add_line(alloc, ignored, line)? {
            let wrong = Wrong::new(
                alloc,
                "this is no range of bytes and no label",
                ALLOWED_LINE,
            );
            return Err(refused_line(alloc, name, number, line, wrong));
        }
        rest = later;
    }
    Ok(())
}

// Adds what the line says; whether it is a line of such a file.
fn add_line(alloc: Global, ignored: &mut Ignored, line: &[u8]) -> Result<bool, AllocError> {
    if let Some(bytes) = line.strip_prefix(b"label ".as_slice()) {
        let Some(text) = text_of(bytes) else {
            return Ok(false);
        };
        ignored.places.push(place_of(alloc, text)?)?;
        return Ok(true);
    }
    let Some(range) = range_of(line) else {
        return Ok(false);
    };
    ignored.ranges.push(range)?;
    Ok(true)
}

// The place that the bytes name, if they do.
fn text_of(bytes: &[u8]) -> Option<&str> {
    match str::from_utf8(bytes) {
        Ok(text) if is_place(text) && !has_control(bytes) => Some(text),
        _ => None,
    }
}

const ENDS: &str = "each line ends with LF, the last one too; the file may have been cut off here";

const ALLOWED_LINE: &str =
    "a line is 'A:N', as a recorder writes it: the address of the first byte and how many bytes, as 0x1000:8; or 'label LABEL', as 'label list.c:57 insert'";
