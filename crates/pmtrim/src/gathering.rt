//! An answer that is gathered, to be written to a file as a whole.
ghost use Rattle.std.specs.Prelude.{◌≡◌, [], Some};

use command_inputs::Fault;
use std::alloc::Global;
use std::io::{self, ErrorKind, Write};

/// An answer as it is written, in memory.
#[derive(Drop)]
pub struct Gathered {
    text: Vec<u8>,
    // Whether memory was refused to it.
    is_torn: bool,
}

impl Gathered {
    /// Nothing yet.
    pub fn new(alloc: Global) -> Self
        ensures { result.text.items ≡ [] }
    {
        Gathered {
            text: Vec::new(alloc),
            is_torn: false,
        }
    }

    /// The fault of the command that wrote it: if memory was refused here, no file failed.
    pub fn fault(&self, fault: Fault) -> Fault {
        if self.is_torn {
            Fault::OutOfMemory
        } else {
            fault
        }
    }

    /// What was written.
    pub fn into_text(self) -> Vec<u8>
        ensures { result ≡ self.text }
    {
        self.text
    }
}

impl Write for Gathered {
    ghost contents = { λ g. Some g.text.items };

    fn write(&mut self, buf: &[u8]) -> io::Result<usize> {
        match self.text.extend_from_slice(buf) {
            Ok(()) => Ok(buf.len()),
            Err(_) => {
                self.is_torn = true;
                Err(io::Error::from(ErrorKind::OutOfMemory))
            }
        }
    }

    fn flush(&mut self) -> io::Result<()> {
        Ok(())
    }
}
