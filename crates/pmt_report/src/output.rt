//! The answer of a run, written and flushed.
ghost use Rattle.std.specs.Prelude.{◌≡◌, ◌+◌, ◌-◌, ◌^◌, ◌<◌};
ghost use Rattle.pmt_text.specs.Counting.{inner_device, failure_count};
ghost use Rattle.pmt_report.specs.Runs.{WritesText, write_faults};

use crate::fault::RunError;
use pmt_text::{Counted, write_all_counted};
use std::io::Write;

// Writes the text, and then flushes once.
pub(crate) fn write_answer<W: Write>(writer: &mut Counted<W>, text: &[u8]) -> Result<(), RunError>
    requires { failure_count writer.old < 2 ^ 64 - 1 }
    ensures written { WritesText (W.contents (inner_device writer.old)) (W.contents (inner_device writer.new)) text.now result }
    ensures failures { failure_count writer.new ≡ failure_count writer.old + write_faults result }
{
    if let Err(fault) = write_all_counted(writer, text) {
        return Err(RunError::Write {
            written: fault.written,
        });
    }
    match writer.flush() {
        Ok(()) => Ok(()),
        Err(_) => Err(RunError::Write {
            written: text.len() as u64,
        }),
    }
}
