//! What a person is told below a fault whose line is fixed: the file, the reason, and what to do.

ghost use Rattle.command_inputs.specs.Devices.{IsToldAs, fault_status, WritesFirst};

use crate::fault::Fault;
use crate::forms::Grammar;
use crate::input::Input;
use crate::inputs::{open_fault, refused_text, too_long};
use crate::opener::{OpenError, Opener};
use crate::reading::try_system_fault;
use crate::recalling::{Memory, Recalling, Recalls, counted, uncounted};
use crate::writing::write_whole;
use pmt_report::{RecordFault, RunError, run_error};
use pmt_taking::TakeError;
use pmt_text::{TextError, TextSource};
use std::alloc::{AllocError, Global};
use std::io::{self, Read, Write};

/// The fault, with the reason below its line where the devices recall it.
pub fn reasoned(
    alloc: Global,
    fault: Fault,
    input: Input<'_>,
    read: Option<&Memory>,
    written: Option<&Memory>,
) -> Fault
    ensures { IsToldAs (fault_status fault) (fault_status result) }
{
    match reason_of(alloc, &fault, input, read, written) {
        Ok(Some(reason)) => fault.with_reason(alloc, &reason),
        Ok(None) => fault,
        Err(_) => Fault::OutOfMemory,
    }
}

/// As `untaken_fault`, of the source of the events.
pub fn untaken<R: Read + Drop>(
    alloc: Global,
    input: Input<'_>,
    error: TakeError,
    source: TextSource<Recalling<R>>,
) -> Fault {
    let reader = source.into_input().into_inner();
    untaken_fault(alloc, input, error, reader.memory())
}

/// The fault of the input whose events were not taken for this, by what its reader recalls: of a refused line its place, its text, and what
/// is allowed there; of a read that failed the system's reason. `OutOfMemory` where memory is refused to it.
pub fn untaken_fault(
    alloc: Global,
    input: Input<'_>,
    error: TakeError,
    read: Option<&Memory>,
) -> Fault {
    let TakeError::Source(error) = error else {
        return Fault::OutOfMemory;
    };
    let fault = Fault::Run(run_error(error));
    match reason_of(alloc, &fault, input, read, None) {
        Ok(Some(reason)) => reason,
        Ok(None) => fault,
        Err(_) => Fault::OutOfMemory,
    }
}

// What is told below the line of this fault, if anything is.
fn reason_of(
    alloc: Global,
    fault: &Fault,
    input: Input<'_>,
    read: Option<&Memory>,
    written: Option<&Memory>,
) -> Result<Option<Fault>, AllocError> {
    match fault {
        Fault::Run(RunError::Text(error)) => refused(alloc, input, read, false, *error),
        Fault::Record(RecordFault::Line { script: _, error }) => {
            refused(alloc, input, read, true, *error)
        }
        Fault::Run(RunError::TooMany) | Fault::Record(RecordFault::TooLong { script: _ })
            if read.is_some() => { made(too_long(alloc, input)) }
        Fault::Run(RunError::Read) => failed(alloc, "cannot read", input.name(), read),
        Fault::File if read.is_some() => failed(alloc, "cannot read", input.name(), read),
        Fault::Run(RunError::Write { written: _ }) | Fault::File => {
            failed(alloc, "cannot write", "the answer", written)
        }
        _ => Ok(None),
    }
}

// What is told of the line of a trace or a script.
fn refused(
    alloc: Global,
    input: Input<'_>,
    read: Option<&Memory>,
    is_script: bool,
    error: TextError,
) -> Result<Option<Fault>, AllocError> {
    let Some(memory) = read else {
        return Ok(None);
    };
    let grammar = if is_script {
        Grammar::Script
    } else {
        Grammar::of_trace(memory.first_line())
    };
    let line = memory.line(error.line)?;
    made(refused_text(alloc, input, &grammar, line, error))
}

// The reason, where memory was there for it.
fn made(reason: Fault) -> Result<Option<Fault>, AllocError> {
    match reason {
        Fault::OutOfMemory => Err(AllocError),
        reason => Ok(Some(reason)),
    }
}

// What is told of a call that failed of the device of which this is recalled.
fn failed(
    alloc: Global,
    action: &str,
    what: &str,
    memory: Option<&Memory>,
) -> Result<Option<Fault>, AllocError> {
    match error_of(memory) {
        Some(error) => Ok(Some(try_system_fault(alloc, action, what, error)?)),
        None => Ok(None),
    }
}

fn error_of(memory: Option<&Memory>) -> Option<io::Error> {
    memory?.error
}

/// The reader of the named file.
///
/// # Errors
/// `File` where it can't be opened, with the reason below its line if one is asked for; `OutOfMemory`.
pub fn open_input<O: Opener>(
    alloc: Global,
    files: &O,
    name: &str,
    recalls: Recalls,
) -> Result<O::Reader, Fault> {
    match files.open(name) {
        Ok(reader) => Ok(reader),
        Err(error) => Err(not_opened(alloc, name, error, recalls)),
    }
}

fn not_opened(alloc: Global, name: &str, error: OpenError, recalls: Recalls) -> Fault {
    match open_fault(alloc, name, error) {
        Fault::OutOfMemory => Fault::OutOfMemory,
        reason if !matches!(recalls, Recalls::Nothing) => Fault::File.with_reason(alloc, &reason),
        _ => Fault::File,
    }
}

/// Writes the answer, and then flushes once.
///
/// # Errors
/// `File` where a write or the flush failed, with the reason below its line if one is asked for; the first bytes of the answer may be
/// out then. `OutOfMemory`.
pub fn write_output<W: Write>(
    alloc: Global,
    out: &mut W,
    answer: &[u8],
    recalls: Recalls,
) -> Result<(), Fault>
    ensures { WritesFirst (W.contents out.old) (W.contents out.new) answer.now result }
{
    let mut writer = counted(alloc, out, recalls);
    let written = write_whole(&mut writer, answer);
    let (out, memory) = uncounted(writer);
    // No effect at run time: a proof reads here what the writer holds.
    let _ = &*out;
    match written {
        Ok(()) => Ok(()),
        Err(fault) => {
            let output = Input::new("", None);
            Err(reasoned(alloc, fault, output, None, memory.as_ref()))
        }
    }
}
