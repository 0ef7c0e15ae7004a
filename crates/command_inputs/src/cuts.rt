//! Files that a recorder writes beside a trace: where it was cut, and what its events are called.

use crate::bytes::has_control;
use crate::fault::Fault;
use crate::inputs::{open_fault, read_file};
use crate::opener::{OpenError, Opener};
use crate::refused::{Wrong, refused_line, split_line};
use pmt_asked::Cut;
use pmt_text::fields::split_field;
use pmt_text::number::read_number;
use std::alloc::Global;
use std::io::ErrorKind;

// What is told of another line, and what stands there.
const WRONG: &str = "the line does not say where the trace was cut";

const ALLOWED: &str =
    "a trace that was cut has one line 'EVENT WHY' beside it, as '1000000 a trace has at most 1000000 events'";

/// Where and why the trace of the file was cut, if the file FILE.cut stands beside it. Standard input has none.
///
/// # Errors
/// The fault of that file, or of its line; `OutOfMemory`.
pub fn cut_of<O: Opener>(
    alloc: Global,
    files: &O,
    file: Option<&str>,
) -> Result<Option<Cut>, Fault> {
    let Some(file) = file else {
        return Ok(None);
    };
    let name = format!(in alloc; "{file}.cut")?;
    let Some(bytes) = read_standing(alloc, files, name.as_str())? else {
        return Ok(None);
    };
    let cut = read_cut(alloc, name.as_str(), bytes.as_slice())?;
    Ok(Some(cut))
}

/// The bytes of the file with this name, if there is one.
///
/// # Errors
/// The fault of the file; `OutOfMemory`.
pub fn read_standing<O: Opener>(
    alloc: Global,
    files: &O,
    name: &str,
) -> Result<Option<Vec<u8>>, Fault> {
    if stands(alloc, files, name)? {
        Ok(Some(read_file(alloc, files, name)?))
    } else {
        Ok(None)
    }
}

/// The name of the labels file beside the trace with this name, FILE.labels, if there is one.
///
/// # Errors
/// The fault of the file, where it can't be asked for; `OutOfMemory`.
pub fn standing_labels<O: Opener>(
    alloc: Global,
    files: &O,
    file: Option<&str>,
) -> Result<Option<String>, Fault> {
    let Some(file) = file else {
        return Ok(None);
    };
    let name = format!(in alloc; "{file}.labels")?;
    if stands(alloc, files, name.as_str())? {
        Ok(Some(name))
    } else {
        Ok(None)
    }
}

// Whether there is a file with this name.
fn stands<O: Opener>(alloc: Global, files: &O, name: &str) -> Result<bool, Fault> {
    match files.size(name) {
        Ok(size) => Ok(size.is_some()),
        Err(OpenError::System(error)) if is_absent(error.kind()) => Ok(false),
        Err(error) => Err(open_fault(alloc, name, error)),
    }
}

// Whether the name is of nothing.
fn is_absent(kind: ErrorKind) -> bool {
    kind == ErrorKind::NotFound || kind == ErrorKind::NotADirectory
}

// Where and why, by the text of the file with this name. An empty one says neither.
fn read_cut(alloc: Global, name: &str, text: &[u8]) -> Result<Cut, Fault> {
    if text.is_empty() {
        return Ok(Cut {
            event: None,
            why: String::new(alloc),
        });
    }
    let line = match split_line(text) {
        Some((line, _)) => line,
        None => text,
    };
    match judged(line) {
        Some((event, why)) => Ok(Cut {
            event: if event == 0 { None } else { Some(event) },
            why: String::from_str(alloc, why)?,
        }),
        None => Err(refused_line(alloc, name, 1, line, Wrong::new(alloc, WRONG, ALLOWED))),
    }
}

// The event and the text of the line.
fn judged(line: &[u8]) -> Option<(u64, &str)> {
    let (field, rest) = split_field(line);
    let event = read_number(10, field)?;
    match str::from_utf8(rest?) {
        Ok(why) if !has_control(why.as_bytes()) => Some((event, why)),
        _ => None,
    }
}
