//! The files that are written: all of them, or none.

ghost use Rattle.std.specs.Prelude.{◌≡◌, None, IfOk};
ghost use Rattle.command_inputs.specs.Devices.{Sends};

use crate::fault::Fault;
use crate::opener::{OpenError, Opener};
use crate::reading::system_fault;
use crate::writing::{Sent, write_answer, write_flushed};
use std::alloc::Global;
use std::io::Write;

/// A file that is written.
#[derive(Drop)]
pub struct Output {
    name: String,
    text: Vec<u8>,
}

impl Output {
    /// The file whose name ends so, with this text.
    ///
    /// # Errors
    /// `OutOfMemory`.
    pub fn new(alloc: Global, name: &str, ending: &str, text: Vec<u8>) -> Result<Self, Fault> {
        let name = format!(in alloc; "{name}{ending}")?;
        Ok(Output { name, text })
    }
}

/// Refuses to write over what is read.
///
/// # Errors
/// A usage fault where one of the files is the input; `OutOfMemory`.
pub fn check_apart<O: Opener>(
    alloc: Global,
    files: &O,
    outputs: &[Output],
    input: Option<&str>,
) -> Result<(), Fault> {
    let Some(input) = input else {
        return Ok(());
    };
    for output in outputs {
        let name = output.name.as_str();
        if files.is_same(name, input) {
            return Err(written_fault(alloc, name));
        }
    }
    Ok(())
}

// The fault of a file that is read and was to be written.
pub(crate) fn written_fault(alloc: Global, name: &str) -> Fault {
    let message = format!(in alloc; "'{name}' is read, and can not be written");
    Fault::usage_of(alloc, message)
}

/// Writes the answer to the named file, which is none of those that were read, or to `out` where none is named.
///
/// # Errors
/// A usage fault where the file was read; the fault of a write, and no file is left then; `OutOfMemory`.
pub fn write_named<O: Opener, W: Write>(
    alloc: Global,
    files: &O,
    name: Option<&str>,
    read: &[Option<&str>],
    answer: Vec<u8>,
    out: &mut W,
) -> Result<Sent, Fault>
    ensures { name.entry ≡ None → IfOk result (Sends (W.contents out.old) (W.contents out.new) answer.items) }
{
    let Some(name) = name else {
        return write_answer(alloc, answer.as_slice(), out);
    };
    let mut outputs = Vec::with_capacity(alloc, 1)?;
    outputs.push(Output::new(alloc, name, "", answer)?)?;
    for input in read {
        check_apart(alloc, files, outputs.as_slice(), *input)?;
    }
    write_outputs(alloc, files, outputs.as_slice())?;
    Ok(Sent::Whole)
}

/// Writes the files.
///
/// # Errors
/// The fault of the first one that can't be written; none of them is left then.
pub fn write_outputs<O: Opener>(alloc: Global, files: &O, outputs: &[Output]) -> Result<(), Fault> {
    for index in 0..outputs.len() {
        if let Err(fault) = write_output(alloc, files, &outputs[index]) {
            remove_all(files, &outputs[..index]);
            return Err(fault);
        }
    }
    Ok(())
}

// Writes the file; what was written in part is removed.
fn write_output<O: Opener>(alloc: Global, files: &O, output: &Output) -> Result<(), Fault> {
    let name = output.name.as_str();
    let mut file = created(alloc, files, name, "")?;
    match write_flushed(output.text.as_slice(), &mut file) {
        Ok(()) => Ok(()),
        Err(error) => {
            files.remove(name);
            Err(system_fault(alloc, "cannot write", name, error))
        }
    }
}

/// Writes the file with this name, which is not the other one, by `write`; what was written in part is removed.
///
/// # Errors
/// A fault that names the file and says why it can't be created, or that of `write`; `OutOfMemory`.
pub fn write_file<O: Opener, F: FnOnce(&mut O::Writer) -> Result<(), Fault>>(
    alloc: Global,
    files: &O,
    name: &str,
    other: &str,
    write: F,
) -> Result<(), Fault>
    requires { F.IsAlwaysCallable write }
{
    let mut file = created(alloc, files, name, other)?;
    let written = write(&mut file);
    if written.is_err() {
        files.remove(name);
    }
    written
}

// The writer of the file with this name, which is not the other one.
fn created<O: Opener>(
    alloc: Global,
    files: &O,
    name: &str,
    other: &str,
) -> Result<O::Writer, Fault> {
    match files.create(name, other) {
        Ok(file) => Ok(file),
        Err(OpenError::System(error)) => Err(system_fault(alloc, "cannot create", name, error)),
        Err(OpenError::OutOfMemory) => Err(Fault::OutOfMemory),
    }
}

/// Removes the files, those that are there.
pub fn remove_all<O: Opener>(files: &O, outputs: &[Output]) {
    for output in outputs {
        files.remove(output.name.as_str());
    }
}
