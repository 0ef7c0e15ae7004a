//! What a person is told of a refused line: its place, its text, what is wrong with it, and what is allowed there.

use crate::fault::Fault;
use memchr::memchr;
use std::alloc::{AllocError, Global};

// How many bytes of a line are shown.
const SHOWN: usize = 80;

// What to do where a line ends in CR LF.
const CARRIAGE_RETURN: &str =
    "hint: the line ends in CR LF, and a line has to end in LF alone; tr -d '\\r' takes the CR off\n";

/// What is wrong with a line.
#[derive(Drop)]
pub(crate) struct Wrong {
    /// What is wrong, with the field at fault; or that memory was refused to that.
    pub(crate) what: Result<String, AllocError>,
    /// What is allowed there, or what to do.
    pub(crate) allowed: &'static str,
}

impl Wrong {
    /// What is wrong, and what is allowed there.
    pub(crate) fn new(alloc: Global, what: &str, allowed: &'static str) -> Self {
        let what = String::from_str(alloc, what);
        Wrong { what, allowed }
    }

    /// What is wrong with a field, its text between these words.
    pub(crate) fn of_field(
        alloc: Global,
        before: &str,
        field: &[u8],
        after: &str,
        allowed: &'static str,
    ) -> Self {
        let what = field_text(alloc, before, field, after);
        Wrong { what, allowed }
    }
}

fn field_text(
    alloc: Global,
    before: &str,
    field: &[u8],
    after: &str,
) -> Result<String, AllocError> {
    let shown = shown(alloc, field)?;
    let shown = shown.as_str();
    format!(in alloc; "{before}'{shown}' {after}")
}

/// The line with this number, from 1, without its LF. Empty where there is none.
pub(crate) fn line_of_text(text: &[u8], number: u64) -> &[u8] {
    let mut rest = text;
    for _ in 1..number {
        match split_line(rest) {
            Some((_, later)) => rest = later,
            None => return b"",
        }
    }
    match split_line(rest) {
        Some((line, _)) => line,
        None => rest,
    }
}

/// The first line, without its LF, and what stands after that. None where no LF is there.
pub fn split_line(text: &[u8]) -> Option<(&[u8], &[u8])> {
    let end = memchr(b'\n', text)?;
    Some((&text[..end], &text[end + 1..]))
}

/// The fault of a line: `NAME:LINE: WHAT`, its text, what is allowed, and a hint where lines end in CR LF. `OutOfMemory` where memory is
/// refused to it.
pub(crate) fn refused_line(
    alloc: Global,
    name: &str,
    number: u64,
    line: &[u8],
    wrong: Wrong,
) -> Fault {
    Fault::refused(line_text(alloc, name, number, line, wrong))
}

fn line_text(
    alloc: Global,
    name: &str,
    number: u64,
    line: &[u8],
    wrong: Wrong,
) -> Result<String, AllocError> {
    let what = wrong.what?;
    let what = what.as_str();
    let mut text = format!(in alloc; "{name}:{number}: {what}\n")?;
    push_hints(alloc, &mut text, line, wrong.allowed)?;
    Ok(text)
}

// Adds the line's text, what is allowed there, and what to do where it ends in CR LF.
fn push_hints(
    alloc: Global,
    text: &mut String,
    line: &[u8],
    allowed: &str,
) -> Result<(), AllocError> {
    if !line.is_empty() {
        let shown = shown(alloc, line)?;
        text.push_str("    ")?;
        text.push_str(shown.as_str())?;
        text.push_str("\n")?;
    }
    text.push_str(allowed)?;
    text.push_str("\n")?;
    if line.last() == Some(&b'\r') {
        text.push_str(CARRIAGE_RETURN)?;
    }
    Ok(())
}

/// The text of a line or field for people: bytes that are no printable ASCII are escaped, and what is long is cut.
///
/// # Errors
/// `OutOfMemory`.
pub(crate) fn shown(alloc: Global, line: &[u8]) -> Result<String, AllocError> {
    let mut text = String::new(alloc);
    let mut left = SHOWN;
    for byte in line {
        if left == 0 {
            text.push_str("...")?;
            return Ok(text);
        }
        left -= 1;
        if *byte >= b' ' && *byte <= b'~' {
            text.push(char::from(*byte))?;
        } else {
            let escaped = byte.escape_ascii();
            let escaped = format!(in alloc; "{escaped}")?;
            text.push_str(escaped.as_str())?;
        }
    }
    Ok(text)
}
