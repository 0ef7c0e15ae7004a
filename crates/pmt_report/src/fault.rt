//! Why a run did not write its answer: the line that says so, and the status.
ghost use Rattle.std.specs.Prelude.{◌≡◌, IfOk, Some, string_bytes};
ghost use Rattle.pmt_report.specs.Faults.{fault_line, run_fault, run_status};

use pmt_model::OutOfMemory;
use pmt_text::{SourceError, TextError};
use std::alloc::Global;
use thiserror::Error;

/// Why a run did not write its answer. Its fault line is `fault_text`; what Display shows is for a programmer.
#[derive(Clone, Copy, Debug, PartialEq, Eq, Error)]
pub enum RunError {
    /// The number of workers is none of 1, 2, 4, 8 and 16.
    #[error("the number of workers is none of 1, 2, 4, 8 and 16")]
    BadWorkers,
    /// A line of the trace is faulty.
    #[error("{0}")]
    Text(TextError),
    /// More bytes come than are judged.
    #[error("the trace is too long")]
    TooMany,
    /// A read failed.
    #[error("a read failed")]
    Read,
    /// The place lies past the last event.
    #[error("the place lies past the last of {events} events")]
    PastEnd {
        /// How many events there are.
        events: u64,
    },
    /// A growth was refused.
    #[error("out of memory")]
    OutOfMemory,
    /// A write or the last flush failed.
    #[error("a write failed after {written} bytes")]
    Write {
        /// How many bytes of the answer are out: its first ones.
        written: u64,
    },
}

impl RunError {
    /// The exit status of a program that ends with it: 2 where a word asks for what there is not, 3 where the trace is refused, 4 where a
    /// device fails, 5 where memory is refused.
    pub fn status(&self) -> u8
        ensures { result ≡ run_status self.now }
    {
        match *self {
            RunError::BadWorkers => 2,
            RunError::PastEnd { events: _ } => 2,
            RunError::Text(_) => 3,
            RunError::TooMany => 3,
            RunError::Read => 4,
            RunError::Write { written: _ } => 4,
            RunError::OutOfMemory => 5,
        }
    }
}

/// The fault line of the error, without its LF.
///
/// # Errors
/// `OutOfMemory`.
pub fn fault_text(alloc: Global, error: &RunError) -> Result<String, OutOfMemory>
    ensures { IfOk result (λ text. string_bytes text ≡ fault_line error.now) }
{
    match *error {
        RunError::BadWorkers => String::from_str(alloc, "bad workers"),
        RunError::Text(fault) => line_fault(alloc, &fault),
        RunError::TooMany => String::from_str(alloc, "trace too long"),
        RunError::Read => String::from_str(alloc, "file fault"),
        RunError::PastEnd { events } => place_fault(alloc, events),
        RunError::OutOfMemory => String::from_str(alloc, "out of memory"),
        RunError::Write { written: _ } => String::from_str(alloc, "file fault"),
    }
}

// The fault line of a trace's line.
fn line_fault(alloc: Global, fault: &TextError) -> Result<String, OutOfMemory>
    ensures { IfOk result (λ text. string_bytes text ≡ fault_line (RunError.Text fault.now)) }
{
    let line = fault.line;
    let name = fault.kind.name();
    format!(in alloc; "trace line {line}: {name}")
}

// The fault line of a place past the last event.
fn place_fault(alloc: Global, events: u64) -> Result<String, OutOfMemory>
    ensures { IfOk result (λ text. string_bytes text ≡ fault_line (RunError.PastEnd events)) }
{
    format!(in alloc; "place past end {events}")
}

/// What a run tells where its source told this fault. A source that is fresh never answers that it failed before.
pub fn run_error(error: SourceError) -> RunError
    ensures { result ≡ run_fault error }
{
    match error {
        SourceError::Text(fault) => RunError::Text(fault),
        SourceError::TooMany => RunError::TooMany,
        SourceError::Read => RunError::Read,
        SourceError::OutOfMemory => RunError::OutOfMemory,
        SourceError::Failed => RunError::Read,
    }
}
