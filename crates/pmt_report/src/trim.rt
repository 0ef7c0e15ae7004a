//! The run that trims a trace.
ghost use Rattle.std.specs.Prelude.{◌≡◌, ◌+◌, ◌-◌, ◌^◌, ◌<◌, true, not};
ghost use Rattle.pmt_text.specs.Coming.{byte_limit};
ghost use Rattle.pmt_text.specs.Counting.{failure_count, inner_device};
ghost use Rattle.pmt_text.specs.ScriptInputs.{ReadsWithin};
ghost use Rattle.pmt_trimming.specs.Streaming.{IsTextOfTrimmed};
ghost use Rattle.pmt_analysis.specs.Analysing.{is_worker_count};
ghost use Rattle.pmt_report.specs.Runs.{IsAnalysisFault, Runs, coming_from_reader, run_read_faults, tells_workers, write_faults};

use crate::fault::{RunError, run_error};
use crate::output::write_answer;
use pmt_analysis::are_allowed;
use pmt_taking::TakeError;
use pmt_text::{Counted, TextSource};
use pmt_trimming::trimmed_text;
use std::alloc::Global;
use std::io::{Read, Write};
use std::thread::Threads;

/// Writes the trimmed trace of the trace whose text the reader gives. It is the same for every number of workers: one pass forward, in the
/// calling thread, takes less time than splitting the trace for them would. The reader is handed back.
///
/// # Errors
/// In this order: `BadWorkers` unless there are 1, 2, 4, 8 or 16, in which case nothing is read; `Text`, `TooMany` and `Read` as
/// the bytes come, `OutOfMemory`; nothing is written then. `Write` where a write or the last flush failed.
pub fn run_trim<T: Threads + Sync, R: Read, W: Write>(
    rt: &T,
    alloc: Global,
    workers: usize,
    reader: Counted<R>,
    writer: &mut Counted<W>,
) -> (Counted<R>, Result<(), RunError>)
    requires reads { failure_count reader < 2 ^ 64 - 1 }
    requires writes { failure_count writer.old < 2 ^ 64 - 1 }
    ensures workers { tells_workers result.1 ≡ not (is_worker_count workers) }
    ensures unread { tells_workers result.1 ≡ true → result.0 ≡ reader }
    ensures runs { Runs IsTextOfTrimmed IsAnalysisFault (coming_from_reader (R.remaining (inner_device reader))) (W.contents (inner_device writer.old)) (W.contents (inner_device writer.new)) result.1 }
    ensures within { ReadsWithin (byte_limit + 1) (R.remaining (inner_device reader)) (R.remaining (inner_device result.0)) }
    ensures read_failures { failure_count result.0 ≡ failure_count reader + run_read_faults result.1 }
    ensures write_failures { failure_count writer.new ≡ failure_count writer.old + write_faults result.1 }
{
    if !are_allowed(workers) {
        return (reader, Err(RunError::BadWorkers));
    }
    let mut source = TextSource::new(alloc, reader);
    let found = trimmed_text(alloc, &mut source);
    let reader = source.into_input();
    match found {
        Ok(text) => (reader, write_answer(writer, text.as_slice())),
        Err(TakeError::Source(fault)) => (reader, Err(run_error(fault))),
        Err(TakeError::OutOfMemory) => (reader, Err(RunError::OutOfMemory)),
    }
}
