//! Colors of the text for people: of the words that begin its paragraphs, of what mends a loss, and of the numbers of source lines.
ghost use Rattle.std.specs.Prelude.{◌≤◌, length, IfSome};

use command_inputs::split_line;
use std::alloc::{AllocError, Global};

const PLAIN: &[u8] = b"\x1b[0m";

// What begins a line, and how it is shown there.
const HEADS: &[(&[u8], &[u8])] = &[
    (b"FAIL:", b"\x1b[1;31m"),
    (b"LOST:", b"\x1b[1;31m"),
    (b"SUSPECT:", b"\x1b[1;31m"),
    (b"CHECK:", b"\x1b[1;33m"),
    (b"PROBABLY OK:", b"\x1b[1;32m"),
    (b"OK:", b"\x1b[1;32m"),
    (b"OK so far:", b"\x1b[1;32m"),
    (b"note:", b"\x1b[1;36m"),
    (b"Maybe meant", b"\x1b[1;36m"),
    (b"next:", b"\x1b[1m"),
    (b"    fix:", b"\x1b[1;32m"),
];

// How the number of a source line is shown.
const NUMBER: &[u8] = b"\x1b[1;34m";

// A line of source has so many blanks at its start, or more.
const BLANKS: &[u8] = b"      ";

/// The text with the words that begin its lines in color.
///
/// # Errors
/// `OutOfMemory`.
pub(crate) fn colored(alloc: Global, text: &[u8]) -> Result<Vec<u8>, AllocError> {
    let mut shown = Vec::new(alloc);
    let mut rest = text;
    for _ in 0..text.len() {
        let Some((line, later)) = split_line(rest) else {
            break;
        };
        push_line(&mut shown, line)?;
        rest = later;
    }
    shown.extend_from_slice(rest)?;
    Ok(shown)
}

// Adds the line, with what begins it in color.
fn push_line(shown: &mut Vec<u8>, line: &[u8]) -> Result<(), AllocError> {
    let mut rest = line;
    for (word, color) in HEADS {
        if let Some(after) = rest.strip_prefix(*word) {
            push_colored(shown, color, word)?;
            rest = after;
            break;
        }
    }
    if let Some(bar) = bar_of(rest) {
        let (number, text) = rest.split_at(bar);
        push_colored(shown, NUMBER, number)?;
        rest = text;
    }
    shown.extend_from_slice(rest)?;
    shown.extend_from_slice(b"\n")
}

// Where the text of a line of source begins, after its number and a bar; none of any other line.
fn bar_of(line: &[u8]) -> Option<usize>
    ensures { IfSome result (λ bar. bar ≤ length line.now) }
{
    let bar = line.iter().position(|byte| *byte == b'|')?;
    let number = line.get(..bar)?.strip_prefix(BLANKS)?.trim_ascii();
    if number.is_empty() || !number.iter().all(|byte| byte.is_ascii_digit()) {
        return None;
    }
    Some(bar.saturating_add(1).min(line.len()))
}

fn push_colored(shown: &mut Vec<u8>, color: &[u8], text: &[u8]) -> Result<(), AllocError> {
    shown.extend_from_slice(color)?;
    shown.extend_from_slice(text)?;
    shown.extend_from_slice(PLAIN)
}
