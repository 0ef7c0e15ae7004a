//! `stat`: figures of a trace.
ghost use Rattle.std.specs.Prelude.{◌≡◌, IfOk};

use crate::measured::measured_of;
use crate::text::people_text;
use command_inputs::{Fault, Opener, write_named};
use command_requests::StatWords;
use std::alloc::Global;
use std::io::{Read, Write};
use std::thread::Threads;

/// Measures the trace of the file or of `input`, and writes its figures to the file that is named, or to `out`. The
/// labels are read first.
///
/// # Errors
/// The fault of the labels, of the trace, or of the write: the first of them.
pub fn run_stat<T: Threads + Sync, O: Opener, I: Read, W: Write>(
    rt: &T,
    alloc: Global,
    words: &StatWords<'_>,
    files: &O,
    input: &mut I,
    out: &mut W,
) -> Result<u8, Fault>
    ensures { IfOk result (λ status. status ≡ 0) }
{
    let own = measured_of(rt, alloc, words, files, input)?;
    let answer = people_text(alloc, &own)?;
    let read = [words.file, words.labels];
    write_named(alloc, files, words.out, &read, answer, out)?;
    Ok(0)
}
