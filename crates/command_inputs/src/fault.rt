//! The faults of the program: their lines and statuses.
ghost use Rattle.std.specs.Prelude.{◌≡◌, ◌≤◌};
ghost use Rattle.command_inputs.specs.Devices.{IsToldAs, fault_status};

use pmt_model::OutOfMemory;
use pmt_report::{RecordFault, RunError, fault_text};
use std::alloc::{AllocError, AllocFailed, Global};
use std::io::Write;

/// Why the program did not do what its words ask for.
#[derive(Drop)]
pub enum Fault {
    /// The words are wrong; the text says how, and ends with LF.
    Usage(String),
    /// The first word names no command; the text says so, and ends with LF.
    NoCommand(String),
    /// What the words ask for is not there; the text says why, and ends with LF.
    Absent(String),
    /// An input is refused; the text says where and why, and ends with LF.
    Refused(String),
    /// The system refused something; the text says what and why, and ends with LF.
    System(String),
    /// The run told this.
    Run(RunError),
    /// The scripts were not recorded.
    Record(RecordFault),
    /// A file can't be opened, or the answer can't be written.
    File,
    /// A growth was refused.
    OutOfMemory,
}

impl From<AllocError> for Fault {
    fn from(_error: AllocError) -> Fault {
        Fault::OutOfMemory
    }
}

impl<T: Drop> From<AllocFailed<T>> for Fault {
    fn from(_error: AllocFailed<T>) -> Fault {
        Fault::OutOfMemory
    }
}

impl Fault {
    /// A usage fault that says this; `OutOfMemory` where memory is refused to it.
    pub fn usage(alloc: Global, message: &str) -> Fault {
        let text = format!(in alloc; "error: {message}\n\nFor more information, try '--help'.\n");
        match text {
            Ok(text) => Fault::Usage(text),
            Err(_) => Fault::OutOfMemory,
        }
    }

    /// The same, of a message that was made for it.
    pub fn usage_of(alloc: Global, message: Result<String, OutOfMemory>) -> Fault {
        match message {
            Ok(message) => Fault::usage(alloc, message.as_str()),
            Err(_) => Fault::OutOfMemory,
        }
    }

    /// The fault of an input that is refused, which says this; `OutOfMemory` where memory was refused to it.
    pub fn refused(text: Result<String, OutOfMemory>) -> Fault {
        match text {
            Ok(text) => Fault::Refused(text),
            Err(_) => Fault::OutOfMemory,
        }
    }

    /// The exit status.
    pub fn status(&self) -> u8
        ensures status { result ≡ fault_status self.now }
        ensures few { result ≤ 6 }
    {
        match self {
            Fault::Usage(_) | Fault::NoCommand(_) | Fault::Absent(_) => 2,
            Fault::Refused(_) => 3,
            Fault::System(_) => 4,
            Fault::Run(error) => error.status(),
            Fault::Record(fault) => fault.status(),
            Fault::File => 4,
            Fault::OutOfMemory => 5,
        }
    }

    /// Writes what is wrong, and gives the exit status. A fault that can't be written leaves the status as it is.
    pub fn tell<W: Write>(self, alloc: Global, faults: &mut W) -> u8
        ensures status { IsToldAs (fault_status self) result }
        ensures few { result ≤ 6 }
    {
        match self.text(alloc) {
            Ok(text) => {
                let _ = faults.write_all(text.as_bytes());
                self.status()
            }
            Err(_) => {
                let _ = faults.write_all(b"out of memory\n");
                5
            }
        }
    }

    /// The fault that says what this one says and below it what the other one says, with the status of this one. Where memory is
    /// refused to that, it is `OutOfMemory`.
    pub fn with_reason(self, alloc: Global, reason: &Fault) -> Fault
        ensures { IsToldAs (fault_status self) (fault_status result) }
    {
        match self.text_with(alloc, reason) {
            Ok(text) => match self.status() {
                2 => Fault::Absent(text),
                3 => Fault::Refused(text),
                4 => Fault::System(text),
                _ => self,
            },
            Err(_) => Fault::OutOfMemory,
        }
    }

    // What this one says, and then what the other one says.
    fn text_with(&self, alloc: Global, reason: &Fault) -> Result<String, OutOfMemory> {
        let mut text = self.text(alloc)?;
        let below = reason.text(alloc)?;
        text.push_str(below.as_str())?;
        Ok(text)
    }

    // The lines that say what is wrong.
    fn text(&self, alloc: Global) -> Result<String, OutOfMemory> {
        match self {
            Fault::Usage(text)
            | Fault::NoCommand(text)
            | Fault::Absent(text)
            | Fault::Refused(text)
            | Fault::System(text) => text.clone(),
            Fault::Run(error) => ended(fault_text(alloc, error)),
            Fault::Record(fault) => ended(fault.line(alloc)),
            Fault::File => String::from_str(alloc, "file fault\n"),
            Fault::OutOfMemory => String::from_str(alloc, "out of memory\n"),
        }
    }
}

// The line with its LF.
fn ended(line: Result<String, OutOfMemory>) -> Result<String, OutOfMemory> {
    let mut line = line?;
    line.push_str("\n")?;
    Ok(line)
}

/// The usage fault of `--failure N` where event N is no assertion that a crash can violate.
pub fn no_failure(alloc: Global, number: u64) -> Fault {
    let message = format!(in alloc;
        "invalid value '{number}' for '--failure <N>': event {number} is no assertion that a crash can violate; explain --only failure shows those that are"
    );
    Fault::usage_of(alloc, message)
}
