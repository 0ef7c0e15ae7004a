//! The inputs of a command: named files and standard input, and what is told of one that is refused.

ghost use Rattle.std.specs.Prelude.{◌≡◌, ℕ, None, IfOk, IsOk};
ghost use Rattle.pmt_text.specs.Coming.{ComesWhole};
ghost use Rattle.pmt_asked.specs.Choosing.{label_of};
ghost use Rattle.pmt_report.specs.Runs.{coming_from_reader};

use crate::buffering::counted_reader;
use crate::diagnosis::diagnosed;
use crate::fault::Fault;
use crate::foreign::{Foreign, foreign_fault, foreign_of};
use crate::forms::Grammar;
use crate::input::Input;
use crate::labels::read_labels;
use crate::opener::{OpenError, Opener};
use crate::reading::{read_whole, system_fault};
use crate::reasons::untaken;
use crate::recalling::Recalls;
use crate::refused::{line_of_text, refused_line};
use pmt_asked::Labels;
use pmt_model::Trace;
use pmt_taking::take_trace;
use pmt_text::header::judge_header;
use pmt_text::{TextError, TextSource};
use std::alloc::Global;
use std::io::Read;

/// The trace of the file or of `reader`.
///
/// # Errors
/// The fault of the file, of the read, or of the first line that is refused; `OutOfMemory`.
pub fn trace_of<O: Opener, I: Read>(
    alloc: Global,
    input: Input<'_>,
    files: &O,
    reader: &mut I,
) -> Result<Trace, Fault>
    ensures { input.entry.file ≡ None → IfOk result (ComesWhole (coming_from_reader (I.remaining reader.old))) }
{
    match input.file {
        Some(name) => {
            let reader = opened(alloc, files, name)?;
            read_trace(alloc, input, reader)
        }
        None => read_trace(alloc, input, reader),
    }
}

// The trace that the reader gives.
fn read_trace<R: Read + Drop>(alloc: Global, input: Input<'_>, reader: R) -> Result<Trace, Fault>
    ensures { IfOk result (ComesWhole (coming_from_reader (R.remaining reader))) }
{
    let reader = counted_reader(alloc, reader, Recalls::LastLines)?;
    let mut source = TextSource::new(alloc, reader);
    match take_trace(alloc, &mut source) {
        Ok(trace) => Ok(trace),
        Err(error) => Err(untaken(alloc, input, error, source)),
    }
}

/// The labels of the named file; none, where none is named.
///
/// # Errors
/// The fault of the file, or that of its first faulty line; `OutOfMemory`.
pub fn labels_of<O: Opener>(alloc: Global, files: &O, name: Option<&str>) -> Result<Labels, Fault>
    ensures read { name.entry ≡ None → IsOk result }
    ensures none { name.entry ≡ None → IfOk result (λ labels. (event : ℕ) → label_of labels event ≡ None) }
{
    match name {
        Some(name) => {
            let reader = opened(alloc, files, name)?;
            read_labels(alloc, name, reader)
        }
        None => Ok(Labels::new(alloc)),
    }
}

/// The bytes of the named file.
///
/// # Errors
/// The fault of the file or of the read, which names it; `OutOfMemory`.
pub fn read_file<O: Opener>(alloc: Global, files: &O, name: &str) -> Result<Vec<u8>, Fault> {
    let reader = opened(alloc, files, name)?;
    read_whole(alloc, name, reader)
}

/// The reader of the named file.
///
/// # Errors
/// A fault that names the file and says why it can't be opened; `OutOfMemory`.
pub fn opened<O: Opener>(alloc: Global, files: &O, name: &str) -> Result<O::Reader, Fault> {
    match files.open(name) {
        Ok(reader) => Ok(reader),
        Err(error) => Err(open_fault(alloc, name, error)),
    }
}

/// The fault of a named file that was not opened.
pub fn open_fault(alloc: Global, name: &str, error: OpenError) -> Fault {
    match error {
        OpenError::System(error) => system_fault(alloc, "cannot open", name, error),
        OpenError::OutOfMemory => Fault::OutOfMemory,
    }
}

/// The fault of the input's line that is refused, where this text is the header and a piece of the input that has so many lines before it,
/// beside the header.
pub fn piece_fault(
    alloc: Global,
    input: Input<'_>,
    text: &[u8],
    before: u64,
    fault: TextError,
) -> Fault {
    let grammar = Grammar::of_trace(line_of_text(text, 1));
    let line = line_of_text(text, fault.line);
    let whole = TextError {
        line: fault.line.saturating_add(before),
        kind: fault.kind,
    };
    refused_text(alloc, input, &grammar, line, whole)
}

/// The fault of this line of the input, which was refused for this: what it is in place of a trace or a script, or else the place, the
/// text, what is wrong with it, and what is allowed there. `OutOfMemory` where memory was refused to it.
pub(crate) fn refused_text(
    alloc: Global,
    input: Input<'_>,
    grammar: &Grammar,
    line: &[u8],
    fault: TextError,
) -> Fault {
    if fault.line == 1 {
        if let Some(foreign) = foreign_to(grammar, line) {
            return foreign_fault(alloc, input, foreign);
        }
    }
    let wrong = diagnosed(alloc, grammar, line, fault.kind);
    refused_line(alloc, input.name(), fault.line, line, wrong)
}

// What an input with this first line is in place of what it is meant to be, if that is known.
fn foreign_to(grammar: &Grammar, first: &[u8]) -> Option<Foreign> {
    match grammar {
        Grammar::Script if judge_header(first).is_some() => Some(Foreign::Trace),
        _ => foreign_of(first),
    }
}

/// The fault of an input with more bytes than are judged. `OutOfMemory` where memory was refused to it.
pub(crate) fn too_long(alloc: Global, input: Input<'_>) -> Fault {
    let name = input.name();
    Fault::refused(format!(in alloc;
        "{name}: the trace is too long: it has more than 67108864 bytes\n"
    ))
}
