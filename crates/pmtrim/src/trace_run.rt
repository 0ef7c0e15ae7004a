//! The runs over a trace: its report, the trimmed trace, its fronts.
ghost use Rattle.std.specs.Prelude.{◌≡◌, ◌≤◌, None, IfOk};
ghost use Rattle.pmt_report.specs.Runs.{coming_from_reader};
ghost use Rattle.pmtrim.specs.Commands.{EndsCheck, EndsFronts, EndsRun, EndsStream, EndsTrim, end_status, failed_status, stream_fault};

use crate::faults::run_fault;
use command_inputs::{
    Fault, Input, Opener, Recalls, counted, counted_reader, open_input, uncounted,
};
use command_requests::{Run, RunWords};
use pmt_report::{RunError, run_check, run_error, run_fronts, run_trim};
use pmt_text::TextSource;
use pmt_trimming::{StreamError, trim_stream};
use std::alloc::Global;
use std::io::{Read, Write};
use std::thread::Threads;

/// Makes the run over the trace of the file, or over that of `input` where none is named. The status of a check is 1 where an assertion
/// fails or a store is never persisted; else it is 0.
///
/// # Errors
/// The fault of the file or of the run, with the reason below its line if one is asked for; `OutOfMemory`.
pub fn run_trace<T: AllocGlobal + Threads + Sync, O: Opener, I: Read, W: Write>(
    rt: &T,
    words: RunWords<'_>,
    files: &O,
    input: &mut I,
    out: &mut W,
    recalls: Recalls,
) -> Result<u8, Fault>
    ensures few { IfOk result (λ status. status ≤ 1) }
    ensures ends { words.entry.file ≡ None → EndsRun words.entry.run (coming_from_reader (I.remaining input.old)) (W.contents out.old) (W.contents out.new) (end_status result) }
{
    match words.file {
        Some(name) => {
            let reader = open_input(rt.alloc(), files, name, recalls)?;
            run_reader(rt, words, reader, out, recalls)
        }
        None => run_reader(rt, words, input, out, recalls),
    }
}

// Makes the run over the trace that the reader gives.
fn run_reader<T: AllocGlobal + Threads + Sync, R: Read + Drop, W: Write>(
    rt: &T,
    words: RunWords<'_>,
    reader: R,
    out: &mut W,
    recalls: Recalls,
) -> Result<u8, Fault>
    ensures few { IfOk result (λ status. status ≤ 1) }
    ensures ends { EndsRun words.entry.run (coming_from_reader (R.remaining reader)) (W.contents out.old) (W.contents out.new) (end_status result) }
{
    match words.run {
        Run::Check => check_reader(rt, words, reader, out, recalls),
        Run::Trim => trim_reader(rt, words, reader, out, recalls),
        Run::Stream => stream_reader(rt.alloc(), words, reader, out, recalls),
        Run::Fronts(place) => fronts_reader(rt.alloc(), words, place, reader, out, recalls),
    }
}

// Writes the report.
fn check_reader<T: AllocGlobal + Threads + Sync, R: Read + Drop, W: Write>(
    rt: &T,
    words: RunWords<'_>,
    reader: R,
    out: &mut W,
    recalls: Recalls,
) -> Result<u8, Fault>
    ensures few { IfOk result (λ status. status ≤ 1) }
    ensures ends { EndsCheck (coming_from_reader (R.remaining reader)) (W.contents out.old) (W.contents out.new) (end_status result) }
{
    let alloc = rt.alloc();
    let reader = counted_reader(alloc, reader, recalls)?;
    let mut writer = counted(alloc, out, recalls);
    let (reader, done) = run_check(rt, alloc, words.workers, reader, &mut writer);
    let (out, written) = uncounted(writer);
    // No effect at run time: a proof reads here what the writer holds.
    let _ = &*out;
    match done {
        Ok(failed) => Ok(status_of(failed)),
        Err(error) => Err(run_fault(alloc, error, input_of(words), reader, written)),
    }
}

// Writes the trimmed trace.
fn trim_reader<T: AllocGlobal + Threads + Sync, R: Read + Drop, W: Write>(
    rt: &T,
    words: RunWords<'_>,
    reader: R,
    out: &mut W,
    recalls: Recalls,
) -> Result<u8, Fault>
    ensures few { IfOk result (λ status. status ≤ 1) }
    ensures ends { EndsTrim (coming_from_reader (R.remaining reader)) (W.contents out.old) (W.contents out.new) (end_status result) }
{
    let alloc = rt.alloc();
    let reader = counted_reader(alloc, reader, recalls)?;
    let mut writer = counted(alloc, out, recalls);
    let (reader, done) = run_trim(rt, alloc, words.workers, reader, &mut writer);
    let (out, written) = uncounted(writer);
    // No effect at run time: a proof reads here what the writer holds.
    let _ = &*out;
    match done {
        Ok(()) => Ok(0),
        Err(error) => Err(run_fault(alloc, error, input_of(words), reader, written)),
    }
}

// Writes the trimmed trace while it is read.
fn stream_reader<R: Read + Drop, W: Write>(
    alloc: Global,
    words: RunWords<'_>,
    reader: R,
    out: &mut W,
    recalls: Recalls,
) -> Result<u8, Fault>
    ensures few { IfOk result (λ status. status ≤ 1) }
    ensures ends { EndsStream (coming_from_reader (R.remaining reader)) (W.contents out.old) (W.contents out.new) (end_status result) }
{
    let reader = counted_reader(alloc, reader, recalls)?;
    let mut source = TextSource::new(alloc, reader);
    let mut writer = counted(alloc, out, recalls);
    let done = trim_stream(alloc, &mut source, &mut writer);
    let reader = source.into_input();
    let (out, written) = uncounted(writer);
    // No effect at run time: a proof reads here what the writer holds.
    let _ = &*out;
    match done {
        Ok(()) => Ok(0),
        Err(error) => Err(run_fault(alloc, run_error_of(error), input_of(words), reader, written)),
    }
}

// Writes the fronts at the place.
fn fronts_reader<R: Read + Drop, W: Write>(
    alloc: Global,
    words: RunWords<'_>,
    place: u64,
    reader: R,
    out: &mut W,
    recalls: Recalls,
) -> Result<u8, Fault>
    ensures few { IfOk result (λ status. status ≤ 1) }
    ensures ends { EndsFronts place (coming_from_reader (R.remaining reader)) (W.contents out.old) (W.contents out.new) (end_status result) }
{
    let reader = counted_reader(alloc, reader, recalls)?;
    let mut writer = counted(alloc, out, recalls);
    let (reader, done) = run_fronts(alloc, place, reader, &mut writer);
    let (out, written) = uncounted(writer);
    // No effect at run time: a proof reads here what the writer holds.
    let _ = &*out;
    match done {
        Ok(()) => Ok(0),
        Err(error) => Err(run_fault(alloc, error, input_of(words), reader, written)),
    }
}

// The status of a trace of which an assertion fails or a store is never persisted, or of another one.
fn status_of(failed: bool) -> u8
    ensures status { result ≡ failed_status failed }
    ensures few { result ≤ 1 }
{
    if failed { 1 } else { 0 }
}

// What a run tells in the place of the stream.
fn run_error_of(error: StreamError) -> RunError
    ensures { result ≡ stream_fault error }
{
    match error {
        StreamError::Source(fault) => run_error(fault),
        StreamError::OutOfMemory => RunError::OutOfMemory,
        StreamError::Write { written } => RunError::Write { written },
    }
}

// What is read for these words.
fn input_of(words: RunWords<'_>) -> Input<'_> {
    let command = match words.run {
        Run::Check => "check",
        Run::Trim | Run::Stream => "trim",
        Run::Fronts(_) => "fronts - PLACE",
    };
    Input::new(command, words.file)
}
