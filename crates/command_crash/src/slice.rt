//! `slice`: the events that show a failed assertion or a lost store, as a trace.
ghost use Rattle.std.specs.Prelude.{◌≡◌, IfOk};

use command_inputs::{
    Fault, Input, Opener, Output, check_apart, labels_of, no_failure, trace_of, write_answer,
    write_outputs,
};
use command_requests::{SliceSubject, SliceWords};
use pmt_asked::Labels;
use pmt_explain::failure;
use pmt_model::{Selection, Trace};
use pmt_slices::{Slice, sliced, store_sliced};
use pmt_text::write::write_trace;
use std::alloc::{AllocError, Global};
use std::io::{Read, Write};

/// Writes the slice of the failed assertion or the lost store of the trace of the file or of `input`: to the named file, with the numbers and the labels of
/// its events beside it, or to `out`. The status is 0.
///
/// # Errors
/// The fault of the labels, of the trace, of an assertion that does not fail or a store that is safe in time, or of the write. Files that were written are removed.
pub fn run_slice<O: Opener, I: Read, W: Write>(
    alloc: Global,
    words: &SliceWords<'_>,
    files: &O,
    input: &mut I,
    out: &mut W,
) -> Result<u8, Fault>
    ensures { IfOk result (λ status. status ≡ 0) }
{
    let labels = labels_of(alloc, files, words.labels)?;
    let trace = trace_of(alloc, Input::new("slice", words.file), files, input)?;
    let slice = match words.subject {
        SliceSubject::Failure(number) => slice_of_failure(alloc, &trace, number)?,
        SliceSubject::Store(number) => slice_of_store(alloc, &trace, number)?,
    };
    let text = write_trace(alloc, &slice.trace)?;
    match words.out {
        Some(name) => write_beside(alloc, words, files, name, text, &slice.numbers, &labels)?,
        None => {
            write_answer(alloc, text.as_slice(), out)?;
        }
    }
    Ok(0)
}

// The slice of the assertion of this event, which fails.
fn slice_of_failure(alloc: Global, trace: &Trace, number: u64) -> Result<Slice, Fault> {
    if failure(alloc, trace, number)?.is_none() {
        return Err(no_failure(alloc, number));
    }
    match sliced(alloc, trace, number)? {
        Some(slice) => Ok(slice),
        None => Err(no_failure(alloc, number)),
    }
}

// The slice of the store of this event, which is never persisted, or late.
fn slice_of_store(alloc: Global, trace: &Trace, number: u64) -> Result<Slice, Fault> {
    match store_sliced(alloc, trace, number)? {
        Some(slice) => Ok(slice),
        None => {
            let message = format!(in alloc;
                "invalid value '{number}' for '--store <N>': event {number} is no store that is never persisted or late; explain --only never_persisted and --only late show those that are"
            );
            Err(Fault::usage_of(alloc, message))
        }
    }
}

// Writes the slice to the named file, and what tells of its events beside it.
fn write_beside<O: Opener>(
    alloc: Global,
    words: &SliceWords<'_>,
    files: &O,
    name: &str,
    text: Vec<u8>,
    numbers: &Selection,
    labels: &Labels,
) -> Result<(), Fault> {
    let mut outputs = Vec::with_capacity(alloc, 3)?;
    outputs.push(Output::new(alloc, name, "", text)?)?;
    let told = numbers_text(alloc, numbers)?;
    outputs.push(Output::new(alloc, name, ".numbers", told)?)?;
    if words.labels.is_some() {
        let named = labels_text(alloc, numbers, labels)?;
        outputs.push(Output::new(alloc, name, ".labels", named)?)?;
    }
    check_apart(alloc, files, outputs.as_slice(), words.file)?;
    check_apart(alloc, files, outputs.as_slice(), words.labels)?;
    write_outputs(alloc, files, outputs.as_slice())
}

// The number that each event of the slice has in the whole trace, a line each.
fn numbers_text(alloc: Global, numbers: &Selection) -> Result<Vec<u8>, AllocError> {
    let mut text = Vec::new(alloc);
    for (index, number) in numbers.numbers().iter().enumerate() {
        let own = index as u64 + 1;
        let line = format!(in alloc; "{own} {number}\n")?;
        text.extend_from_slice(line.as_bytes())?;
    }
    Ok(text)
}

// The labels of the events of the slice that have one, a line each.
fn labels_text(alloc: Global, numbers: &Selection, labels: &Labels) -> Result<Vec<u8>, AllocError> {
    let mut text = Vec::new(alloc);
    for (index, number) in numbers.numbers().iter().enumerate() {
        if let Some(label) = labels.get(*number) {
            let (own, label) = (index as u64 + 1, label.as_str());
            let line = format!(in alloc; "{own} {label}\n")?;
            text.extend_from_slice(line.as_bytes())?;
        }
    }
    Ok(text)
}
