//! The trace that is explained.
ghost use Rattle.std.specs.Prelude.{◌≡◌, None, IfOk};
ghost use Rattle.pmt_text.specs.Coming.{ComesWhole};
ghost use Rattle.pmt_report.specs.Runs.{coming_from_reader};
ghost use Rattle.pmt_explain_run.specs.Sweeping.{IsSweptTrace};

use command_inputs::{
    Fault, Input, Opener, Recalling, Recalls, counted_reader, opened, untaken_fault,
};
use command_requests::{ExplainWords, Form};
use pmt_explain_run::{SweptTrace, swept_trace};
use pmt_text::TextSource;
use std::alloc::{AllocError, Global};
use std::io::Read;

/// A trace that was read and swept.
#[derive(Drop)]
pub(crate) struct Taken {
    pub(crate) swept: SweptTrace,
    /// Its text, where a page is to show it; else nothing.
    pub(crate) text: Vec<u8>,
}

/// The trace of the file or of `input`.
///
/// # Errors
/// The fault of the file, of the read, or of the first line that is refused; `OutOfMemory`.
pub(crate) fn taken_of<O: Opener, I: Read>(
    alloc: Global,
    files: &O,
    words: &ExplainWords<'_>,
    input: &mut I,
) -> Result<Taken, Fault>
    ensures right { IfOk result (λ taken. IsSweptTrace taken.swept) }
    ensures whole { words.now.file ≡ None → IfOk result (λ taken. ComesWhole (coming_from_reader (I.remaining input.old)) taken.swept.trace) }
{
    match words.file {
        Some(name) => {
            let reader = opened(alloc, files, name)?;
            take_reader(alloc, words, reader)
        }
        None => take_reader(alloc, words, input),
    }
}

// The trace that the reader gives.
fn take_reader<R: Read + Drop>(
    alloc: Global,
    words: &ExplainWords<'_>,
    reader: R,
) -> Result<Taken, Fault>
    ensures right { IfOk result (λ taken. IsSweptTrace taken.swept) }
    ensures whole { IfOk result (λ taken. ComesWhole (coming_from_reader (R.remaining reader)) taken.swept.trace) }
{
    let reader = counted_reader(alloc, reader, recalls_for(words.form))?;
    let mut source = TextSource::new(alloc, reader);
    let swept = swept_trace(alloc, &mut source);
    let reader = source.into_input().into_inner();
    match swept {
        Ok(swept) => {
            let text = shown_text(alloc, words.form, reader)?;
            Ok(Taken { swept, text })
        }
        Err(error) => {
            let input = Input::new("explain", words.file);
            Err(untaken_fault(alloc, input, error, reader.memory()))
        }
    }
}

// What is recalled of the trace for an answer of this form: of a page all of its text.
fn recalls_for(form: Form) -> Recalls {
    match form {
        Form::Text | Form::Json => Recalls::LastLines,
        Form::Page => Recalls::AllLines,
    }
}

// The text that the reader recalls, where an answer of this form shows it.
fn shown_text<R: Drop>(
    alloc: Global,
    form: Form,
    reader: Recalling<R>,
) -> Result<Vec<u8>, AllocError> {
    let (_, memory) = reader.into_parts();
    match memory {
        Some(memory) if matches!(form, Form::Page) => memory.into_text(),
        _ => Ok(Vec::new(alloc)),
    }
}
