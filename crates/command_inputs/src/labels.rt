//! The labels file: what a person calls each event, as a recorder writes it.

use crate::buffering::buffered;
use crate::bytes::has_control;
use crate::fault::Fault;
use crate::reading::system_fault;
use crate::refused::{Wrong, refused_line, split_line};
use pmt_asked::Labels;
use pmt_text::fields::split_field;
use pmt_text::number::read_number;
use std::alloc::Global;
use std::io::{BufRead, Read};

// The most bytes of a line that are read, with its LF.
const MOST_BYTES: u64 = 1_048_576;

// Events of a trace have numbers up to this one.
const LAST_EVENT: u64 = 1_000_000;

const ENDS: &str = "each line ends with LF, the last one too; the file may have been cut off here";

const EVENT_OF_TRACE: &str =
    "a label is 'EVENT TEXT': a decimal number from 1 to 1000000 without leading zeros, a space and a text";

const EVENT: &str =
    "a label is 'EVENT TEXT': a decimal number from 1 without leading zeros, a space and a text";

const RISING: &str = "the labels stand by rising number of their events, one line for an event";

/// The labels of a file with this name, which the reader gives: lines `EVENT TEXT` by rising number of the event.
///
/// # Errors
/// A fault of the read, with the system's reason, or one that names the first faulty line and what is wrong there; `OutOfMemory`.
pub fn read_labels<R: Read + Drop>(alloc: Global, name: &str, reader: R) -> Result<Labels, Fault> {
    let mut labels = Labels::new(alloc);
    let mut reader = buffered(alloc, reader)?;
    let mut line = Vec::new(alloc);
    let mut before = 0;
    for number in 1..=u64::MAX {
        line.clear();
        read_line(alloc, name, &mut reader, &mut line)?;
        if line.is_empty() {
            break;
        }
        before = take_line(alloc, &mut labels, name, number, line.as_slice(), before)?;
    }
    Ok(labels)
}

// Reads the next line, with its LF. Nothing where there is none.
fn read_line<R: BufRead>(
    alloc: Global,
    name: &str,
    reader: &mut R,
    line: &mut Vec<u8>,
) -> Result<(), Fault> {
    match reader.by_ref().take(MOST_BYTES).read_until(b'\n', line) {
        Ok(_) => Ok(()),
        Err(error) => Err(system_fault(alloc, "cannot read", name, error)),
    }
}

// Adds the label of the line with this number, whose event comes after this one. The event.
fn take_line(
    alloc: Global,
    labels: &mut Labels,
    name: &str,
    number: u64,
    line: &[u8],
    before: u64,
) -> Result<u64, Fault> {
    let Some((text, _)) = split_line(line) else {
        return Err(refused_line(alloc, name, number, line, unended(alloc, line)));
    };
    match label_in(alloc, text, before, LAST_EVENT) {
        Ok((event, label)) => {
            labels.insert(alloc, event, label)?;
            Ok(event)
        }
        Err(wrong) => Err(refused_line(alloc, name, number, text, wrong)),
    }
}

// What is wrong with a line without LF.
fn unended(alloc: Global, line: &[u8]) -> Wrong {
    if (line.len() as u64) < MOST_BYTES {
        return Wrong::new(alloc, "the line does not end", ENDS);
    }
    let allowed = "a line of a labels file has at most 1048576 bytes, with its LF";
    Wrong::new(alloc, "the line is too long", allowed)
}

/// The event and the text of this line of a labels file, whose number, from 1, comes after this one. There may be any number of events.
///
/// # Errors
/// A fault that names the line and what is wrong there; `OutOfMemory`.
pub fn label_of<'a>(
    alloc: Global,
    name: &str,
    number: u64,
    line: &'a [u8],
    before: u64,
) -> Result<(u64, &'a str), Fault> {
    let Some((text, _)) = split_line(line) else {
        let wrong = Wrong::new(alloc, "the line does not end", ENDS);
        return Err(refused_line(alloc, name, number, line, wrong));
    };
    match label_in(alloc, text, before, u64::MAX) {
        Ok((event, label)) => Ok((event, label)),
        Err(wrong) => Err(refused_line(alloc, name, number, text, wrong)),
    }
}

// The event of a line, which comes after this one and is not greater than the last one, and its text; or what is wrong with them.
fn label_in(alloc: Global, line: &[u8], before: u64, last: u64) -> Result<(u64, &str), Wrong> {
    let (field, rest) = split_field(line);
    let event = read_number(10, field).unwrap_or(0);
    if event == 0 || event > last {
        let allowed = if last == LAST_EVENT {
            EVENT_OF_TRACE
        } else {
            EVENT
        };
        return Err(Wrong::of_field(alloc, "", field, "is no number of an event", allowed));
    }
    if event <= before {
        return Err(Wrong {
            what: format!(in alloc;
                "the number does not come after {before}, that of the line before"
            ),
            allowed: RISING,
        });
    }
    let bytes = rest.unwrap_or(b"");
    if bytes.is_empty() {
        let allowed = "a label is 'EVENT TEXT', as '12 list.c:57 insert'";
        return Err(Wrong::new(alloc, "the label has no text", allowed));
    }
    match str::from_utf8(bytes) {
        Ok(label) if !has_control(bytes) => Ok((event, label)),
        _ => Err(Wrong::new(
            alloc,
            "the text of the label has bytes that can not be shown",
            "a text is UTF-8 without control characters",
        )),
    }
}
