//! Devices that recall what a person is told of their faults.

ghost use Rattle.std.specs.Prelude.{◌≡◌};
ghost use Rattle.pmt_text.specs.Counting.{failure_count, inner_device};
ghost use Rattle.command_inputs.specs.Devices.{named_contents, recalled_device};

use crate::bytes::line_ends;
use crate::refused::line_of_text;
use memchr::memrchr;
use pmt_text::Counted;
use std::alloc::{AllocError, Global};
use std::io::{self, ErrorKind, Read, Write};

// So many bytes of a line are recalled that pieces before the last one have begun. A line that is right has fewer.
const BEGUN: usize = 256;

// So many bytes are recalled of the beginning: more than a header has.
const FIRST: usize = 32;

/// What a device recalls.
#[derive(Clone, Copy)]
pub enum Recalls {
    Nothing,
    /// Why a call failed.
    Errors,
    /// That, and the lines that were read last.
    LastLines,
    /// That, and all that was read.
    AllLines,
}

impl Recalls {
    /// All that is read, where anything is recalled: for what is judged only once all of it is read.
    pub fn whole(self) -> Self {
        match self {
            Recalls::Nothing => Recalls::Nothing,
            _ => Recalls::AllLines,
        }
    }
}

/// A reader or writer that recalls what it was made to.
#[derive(Drop)]
pub struct Recalling<D> {
    device: D,
    memory: Option<Memory>,
}

/// What is recalled of a device.
#[derive(Drop)]
pub struct Memory {
    recalls: Recalls,
    // The first bytes.
    first: Vec<u8>,
    // How many lines ended so far.
    ended: u64,
    // How many lines end before `last` begins.
    lines: u64,
    // What was read last, from the beginning of a line on.
    last: Vec<u8>,
    // Whether memory was refused to it, so that lines are missing.
    is_torn: bool,
    // Why the last call failed that did.
    pub(crate) error: Option<io::Error>,
}

impl<D> Recalling<D> {
    /// The device, which recalls this.
    pub fn new(alloc: Global, device: D, recalls: Recalls) -> Self
        ensures { recalled_device result ≡ device }
    {
        Recalling {
            device,
            memory: match recalls {
                Recalls::Nothing => None,
                _ => Some(Memory::new(alloc, recalls)),
            },
        }
    }

    /// What is recalled, if anything.
    pub fn memory(&self) -> Option<&Memory> {
        self.memory.as_ref()
    }

    /// The device, and what is recalled of it, if anything.
    pub fn into_parts(self) -> (D, Option<Memory>)
        ensures { result.0 ≡ recalled_device self }
    {
        let Recalling { device, memory } = self;
        (device, memory)
    }

    /// Why the last call failed that did, if that is recalled.
    pub fn error(&self) -> Option<io::Error> {
        self.memory()?.error
    }

    // Recalls why a call failed.
    fn recall_error(&mut self, error: io::Error)
        ensures { recalled_device self.new ≡ recalled_device self.old }
    {
        if let Some(memory) = &mut self.memory {
            memory.error = Some(error);
        }
    }
}

/// The device, which recalls this, and whose failures are counted.
pub fn counted<D>(alloc: Global, device: D, recalls: Recalls) -> Counted<Recalling<D>>
    ensures device { recalled_device (inner_device result) ≡ device }
    ensures failures { failure_count result ≡ 0 }
{
    Counted::new(Recalling::new(alloc, device, recalls))
}

/// The device, and what is recalled of it, if anything.
pub fn uncounted<D>(device: Counted<Recalling<D>>) -> (D, Option<Memory>)
    ensures { result.0 ≡ recalled_device (inner_device device) }
{
    device.into_inner().into_parts()
}

impl<R: Read> Read for Recalling<R> {
    ghost remaining = { λ r. R.remaining (recalled_device r) };

    fn read(&mut self, buf: &mut [u8]) -> io::Result<usize> {
        match self.device.read(buf) {
            Ok(count) => {
                if let Some(memory) = &mut self.memory {
                    memory.recall(&buf[..count]);
                }
                Ok(count)
            }
            Err(error) => {
                self.recall_error(error);
                Err(error)
            }
        }
    }
}

impl<W: Write> Write for Recalling<&mut W> {
    ghost contents = { λ w. named_contents (recalled_device w).ghost_name (W.contents (recalled_device w).now) };

    fn write(&mut self, buf: &[u8]) -> io::Result<usize> {
        match self.device.write(buf) {
            Ok(0) if !buf.is_empty() => {
                self.recall_error(io::Error::from(ErrorKind::WriteZero));
                Ok(0)
            }
            Ok(count) => Ok(count),
            Err(error) => {
                self.recall_error(error);
                Err(error)
            }
        }
    }

    fn flush(&mut self) -> io::Result<()> {
        match self.device.flush() {
            Ok(()) => Ok(()),
            Err(error) => {
                self.recall_error(error);
                Err(error)
            }
        }
    }
}

impl Memory {
    // Nothing.
    fn new(alloc: Global, recalls: Recalls) -> Self {
        Memory {
            recalls,
            first: Vec::new(alloc),
            ended: 0,
            lines: 0,
            last: Vec::new(alloc),
            is_torn: false,
            error: None,
        }
    }

    /// What was read last, or all that was read, where that is recalled.
    ///
    /// # Errors
    /// Where memory was refused to it.
    pub fn into_text(self) -> Result<Vec<u8>, AllocError> {
        if self.is_torn {
            return Err(AllocError);
        }
        Ok(self.last)
    }

    /// The first line, or its beginning.
    pub(crate) fn first_line(&self) -> &[u8] {
        line_of_text(self.first.as_slice(), 1)
    }

    /// The line with this number, or its beginning. It is among those that were read last.
    ///
    /// # Errors
    /// Where memory was refused to it.
    pub(crate) fn line(&self, number: u64) -> Result<&[u8], AllocError> {
        if self.is_torn {
            return Err(AllocError);
        }
        let place = number.saturating_sub(self.lines);
        Ok(line_of_text(self.last.as_slice(), place))
    }

    // Recalls what was read.
    fn recall(&mut self, piece: &[u8]) {
        let done = match self.recalls {
            Recalls::Nothing | Recalls::Errors => Ok(()),
            Recalls::LastLines => {
                self.lines = self.ended;
                keep_begun(&mut self.last);
                self.recall_piece(piece)
            }
            Recalls::AllLines => self.recall_piece(piece),
        };
        if done.is_err() {
            self.is_torn = true;
        }
    }

    // Recalls it behind what was read before.
    fn recall_piece(&mut self, piece: &[u8]) -> Result<(), AllocError> {
        self.ended = self.ended.saturating_add(line_ends(piece));
        if self.first.len() < FIRST {
            self.first.extend_from_slice(beginning(piece, FIRST))?;
        }
        self.last.extend_from_slice(piece)
    }
}

// The first bytes of the text, at most so many.
fn beginning(text: &[u8], most: usize) -> &[u8] {
    &text[..text.len().min(most)]
}

// Keeps of the text the beginning of its last line, which has no LF yet.
fn keep_begun(text: &mut Vec<u8>) {
    let size = text.len();
    let start = match memrchr(b'\n', text.as_slice()) {
        Some(end) => end + 1,
        None => 0,
    };
    let begun = (size - start).min(BEGUN);
    text.as_mut_slice().copy_within(start..start + begun, 0);
    text.truncate(begun);
}
