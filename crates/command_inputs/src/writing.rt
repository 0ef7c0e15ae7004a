//! Writing an answer whole.

ghost use Rattle.std.specs.Prelude.{◌-◌, ◌<◌, ◌^◌, IfOk, OnOk};
ghost use Rattle.std.specs.Io.KnownBytes.{Appends};
ghost use Rattle.pmt_text.specs.Counting.{failure_count, inner_device};
ghost use Rattle.command_inputs.specs.Devices.{Sends, WritesFirst};

use crate::fault::Fault;
use crate::reading::system_fault;
use pmt_text::{Counted, write_all_counted};
use std::alloc::Global;
use std::io::{self, ErrorKind, Write};

/// Writes the answer, and then flushes once.
///
/// # Errors
/// `File` where a write or the flush failed; the first bytes of the answer may be out then.
pub(crate) fn write_whole<W: Write>(writer: &mut Counted<W>, answer: &[u8]) -> Result<(), Fault>
    requires { failure_count writer.old < 2 ^ 64 - 1 }
    ensures { WritesFirst (W.contents (inner_device writer.old)) (W.contents (inner_device writer.new)) answer.now result }
{
    if write_all_counted(writer, answer).is_err() {
        return Err(Fault::File);
    }
    match writer.flush() {
        Ok(()) => Ok(()),
        Err(_) => Err(Fault::File),
    }
}

/// What became of an answer.
#[derive(Clone, Copy)]
pub enum Sent {
    /// It is out, whole.
    Whole,
    /// The reader of the pipe has gone, and wants no more: that is no fault.
    ReaderGone,
}

/// Writes the answer, and then flushes once.
///
/// # Errors
/// A fault that says why it was not written, where a write or the flush failed: the first bytes of the answer may be out then.
/// `OutOfMemory` where memory was refused to that fault.
pub fn write_answer<W: Write>(alloc: Global, answer: &[u8], out: &mut W) -> Result<Sent, Fault>
    ensures { IfOk result (Sends (W.contents out.old) (W.contents out.new) answer.now) }
{
    match write_flushed(answer, out) {
        Ok(()) => Ok(Sent::Whole),
        Err(error) if error.kind() == ErrorKind::BrokenPipe => Ok(Sent::ReaderGone),
        Err(error) => Err(system_fault(alloc, "cannot write", "the answer", error)),
    }
}

/// Writes the text, and then flushes once.
///
/// # Errors
/// The writer's own.
pub(crate) fn write_flushed<W: Write>(text: &[u8], out: &mut W) -> io::Result<()>
    ensures { OnOk result (Appends (W.contents out.old) (W.contents out.new) text.now) }
{
    out.write_all(text)?;
    out.flush()
}
