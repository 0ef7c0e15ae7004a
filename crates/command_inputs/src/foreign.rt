//! What a file is that is no trace and no script, by its first bytes, and what to do with it.

use crate::fault::Fault;
use crate::input::Input;
use crate::shell::shell_word;
use std::alloc::{AllocError, Global};

/// What a file is in place of a trace or a script.
#[derive(Clone, Copy)]
pub(crate) enum Foreign {
    Gzip,
    Zstd,
    Xz,
    Bzip2,
    // A text of UTF-8 that begins with a byte order mark.
    Marked,
    Utf16,
    // Machine code.
    Program,
    // What an interpreter runs.
    Interpreted,
    // A trace where a script is wanted.
    Trace,
    // No text.
    Binary,
}

impl Foreign {
    // What a person is told of it.
    fn what(self) -> &'static str {
        match self {
            Foreign::Gzip => "this is packed by gzip",
            Foreign::Zstd => "this is packed by zstd",
            Foreign::Xz => "this is packed by xz",
            Foreign::Bzip2 => "this is packed by bzip2",
            Foreign::Marked => "this begins with a byte order mark",
            Foreign::Utf16 => "this is a text in UTF-16",
            Foreign::Program => "this is a program",
            Foreign::Interpreted => "this is a program, by its first line",
            Foreign::Trace => "this is a trace, and no script",
            Foreign::Binary => "this is no text",
        }
    }

    // What to do with it, before the command that does it.
    fn advice(self) -> &'static str {
        match self {
            Foreign::Gzip | Foreign::Zstd | Foreign::Xz | Foreign::Bzip2 => {
                "it is read unpacked, from a pipe"
            }
            Foreign::Marked => "it is read without the mark",
            Foreign::Utf16 => "it is read as UTF-8",
            Foreign::Program | Foreign::Interpreted => "what it does is recorded by",
            Foreign::Trace => "it is judged by",
            Foreign::Binary => "a trace is made by",
        }
    }

    // What makes a trace or script of it, to which the file's name is given.
    fn filter(self) -> Option<&'static str> {
        match self {
            Foreign::Gzip => Some("zcat"),
            Foreign::Zstd => Some("zstdcat"),
            Foreign::Xz => Some("xzcat"),
            Foreign::Bzip2 => Some("bzcat"),
            Foreign::Marked => Some("tail -c +4"),
            Foreign::Utf16 => Some("iconv -f UTF-16 -t UTF-8"),
            Foreign::Program | Foreign::Interpreted | Foreign::Trace | Foreign::Binary => None,
        }
    }
}

// With what files begin that are no text, or not the one that is wanted.
const STARTS: &[(&[u8], Foreign)] = &[
    (b"\x1f\x8b", Foreign::Gzip),
    (b"\x28\xb5\x2f\xfd", Foreign::Zstd),
    (b"\xfd7zXZ", Foreign::Xz),
    (b"BZh", Foreign::Bzip2),
    (b"\xef\xbb\xbf", Foreign::Marked),
    (b"\xff\xfe", Foreign::Utf16),
    (b"\xfe\xff", Foreign::Utf16),
    (b"\x7fELF", Foreign::Program),
    (b"#!", Foreign::Interpreted),
];

/// What a file is whose first line this is; none where that is not known.
pub(crate) fn foreign_of(first: &[u8]) -> Option<Foreign> {
    for (start, foreign) in STARTS {
        if first.starts_with(start) {
            return Some(*foreign);
        }
    }
    if first.contains(&0) {
        return Some(Foreign::Binary);
    }
    None
}

/// The fault of an input that is this: `NAME:1: WHAT`, and a hint with the command that does what it wants.
pub(crate) fn foreign_fault(alloc: Global, input: Input<'_>, foreign: Foreign) -> Fault {
    Fault::refused(foreign_text(alloc, input, foreign))
}

fn foreign_text(alloc: Global, input: Input<'_>, foreign: Foreign) -> Result<String, AllocError> {
    let name = input.name();
    let what = foreign.what();
    let advice = foreign.advice();
    let command = command_for(alloc, input, foreign)?;
    let command = command.as_str();
    format!(in alloc; "{name}:1: {what}\nhint: {advice}: {command}\n")
}

// The command that does what such an input wants.
fn command_for(alloc: Global, input: Input<'_>, foreign: Foreign) -> Result<String, AllocError> {
    let file = shell_word(alloc, input.file.unwrap_or("FILE"))?;
    let file = file.as_str();
    let words = input.words;
    if let Some(filter) = foreign.filter() {
        return format!(in alloc; "{filter} {file} | pmtrim {words}");
    }
    match foreign {
        Foreign::Trace => format!(in alloc; "pmtrim check {file}"),
        Foreign::Binary => String::from_str(alloc, "pmtrim-record PROGRAM"),
        _ if file.contains('/') => format!(in alloc; "pmtrim-record {file}"),
        _ => format!(in alloc; "pmtrim-record ./{file}"),
    }
}
