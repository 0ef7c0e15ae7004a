//! Why scripts were not recorded: the fault lines and statuses of `record`.
ghost use Rattle.std.specs.Prelude.{◌≡◌, IfOk, string_bytes};
ghost use Rattle.pmt_report.specs.Faults.{record_line, record_status};

use pmt_model::OutOfMemory;
use pmt_text::TextError;
use std::alloc::Global;

/// Why scripts were not recorded.
#[derive(Clone, Copy, Debug, PartialEq, Eq)]
pub enum RecordFault {
    /// A line of a script is faulty.
    Line {
        /// The number of the script, from 1.
        script: u64,
        error: TextError,
    },
    /// More bytes come of a script than are judged, and no complete line among those is faulty.
    TooLong {
        /// The number of the script, from 1.
        script: u64,
    },
    /// The scripts have more events than a trace can have.
    Full,
    /// What a recorder noted is not its part of the trace.
    Torn {
        /// The number of the recorder, from 0.
        recorder: u8,
    },
}

impl RecordFault {
    /// The exit status.
    pub fn status(&self) -> u8
        ensures { result ≡ record_status self.now }
    {
        match self {
            RecordFault::Line {
                script: _,
                error: _,
            } => 3,
            RecordFault::TooLong { script: _ } => 3,
            RecordFault::Full => 3,
            RecordFault::Torn { recorder: _ } => 6,
        }
    }

    /// The fault line, without its LF.
    ///
    /// # Errors
    /// `OutOfMemory`.
    pub fn line(&self, alloc: Global) -> Result<String, OutOfMemory>
        ensures { IfOk result (λ text. string_bytes text ≡ record_line self.now) }
    {
        match *self {
            RecordFault::Line { script, error } => line_fault(alloc, script, &error),
            RecordFault::TooLong { script } => format!(in alloc; "script {script} too long"),
            RecordFault::Full => String::from_str(alloc, "trace full"),
            RecordFault::Torn { recorder } => format!(in alloc; "torn recorder {recorder}"),
        }
    }
}

// The fault line of a script's line.
fn line_fault(alloc: Global, script: u64, error: &TextError) -> Result<String, OutOfMemory>
    ensures { IfOk result (λ text. string_bytes text ≡ record_line (RecordFault.Line script error.now)) }
{
    let line = error.line;
    let name = error.kind.name();
    format!(in alloc; "script {script} line {line}: {name}")
}
