//! `image --list`: the crashes near each place.
ghost use Rattle.std.specs.Prelude.{◌≡◌, IfOk};

use command_inputs::{Fault, Input, Opener, system_fault, trace_of, write_file};
use command_requests::{ListWords, has_place};
use pmt_image::{LineStores, Walk, is_turn, push_crash};
use pmt_model::Trace;
use pmt_report::RunError;
use std::alloc::Global;
use std::io::{self, ErrorKind, Read, Write};

/// The text is written in pieces of at least so many bytes.
const PIECE: usize = 1 << 16;

// What writes the list.
#[derive(Drop)]
struct Lister<'a, W: Write> {
    out: &'a mut W,
    // What a person calls it.
    output: &'a str,
    text: Vec<u8>,
    line_size: u64,
    // Whether it is a pipe whose reader has gone: nothing more is wanted.
    is_left: bool,
}

/// Writes the crashes near each place of the trace of the file or of `input`, a line each, place by place. The status is 0.
///
/// # Errors
/// The fault of the trace, of a place past its end, or of the write; the first lines may be out after one of the write, or of memory.
pub fn run_list<O: Opener, I: Read, W: Write>(
    alloc: Global,
    words: &ListWords<'_>,
    files: &O,
    input: &mut I,
    out: &mut W,
) -> Result<u8, Fault>
    ensures { IfOk result (λ status. status ≡ 0) }
{
    let trace = trace_of(alloc, Input::new("image --list", words.file), files, input)?;
    judge_places(&trace, words)?;
    match words.out {
        Some(name) => write_file(alloc, files, name, words.file.unwrap_or(""), |file| {
            list(alloc, &trace, words, name, file)
        })?,
        None => list(alloc, &trace, words, "the answer", out)?,
    }
    Ok(0)
}

// That no place lies past the end.
fn judge_places(trace: &Trace, words: &ListWords<'_>) -> Result<(), Fault> {
    let events = trace.len() as u64;
    if words.places.iter().any(|range| range.last > events) {
        return Err(Fault::Run(RunError::PastEnd { events }));
    }
    Ok(())
}

// Writes the crashes near each place of the trace to `out`, which a person calls so.
fn list<W: Write>(
    alloc: Global,
    trace: &Trace,
    words: &ListWords<'_>,
    output: &str,
    out: &mut W,
) -> Result<(), Fault> {
    let mut lister = Lister {
        out,
        output,
        text: Vec::new(alloc),
        line_size: trace.format().line_size(),
        is_left: false,
    };
    list_places(alloc, trace, words, &mut lister)?;
    write_text(alloc, &mut lister)?;
    flush(alloc, &mut lister)
}

// Lists the crashes near each place that is asked for.
fn list_places<W: Write>(
    alloc: Global,
    trace: &Trace,
    words: &ListWords<'_>,
    lister: &mut Lister<'_, W>,
) -> Result<(), Fault> {
    let mut walk = Walk::new(alloc, trace)?;
    for place in 0..=trace.len() as u64 {
        if lister.is_left {
            break;
        }
        if is_asked(trace, words, place) {
            list_place(alloc, &mut walk, lister, place, words.off)?;
        }
    }
    Ok(())
}

// Whether the crashes at the place are asked for.
fn is_asked(trace: &Trace, words: &ListWords<'_>, place: u64) -> bool {
    if words.places.is_empty() {
        is_turn(trace, place)
    } else {
        has_place(words.places.as_slice(), place)
    }
}

// Lists the crashes near the place.
fn list_place<W: Write>(
    alloc: Global,
    walk: &mut Walk,
    lister: &mut Lister<'_, W>,
    place: u64,
    off: u64,
) -> Result<(), Fault> {
    let crashes = walk.near_crashes(alloc, place, off)?;
    for lines in &crashes.off_fronts {
        list_crash(alloc, lister, place, false, lines.as_slice())?;
    }
    for lines in &crashes.off_counts {
        list_crash(alloc, lister, place, true, lines.as_slice())?;
    }
    Ok(())
}

// Lists the crash.
fn list_crash<W: Write>(
    alloc: Global,
    lister: &mut Lister<'_, W>,
    place: u64,
    all: bool,
    lines: &[LineStores],
) -> Result<(), Fault> {
    push_crash(&mut lister.text, lister.line_size, place, all, lines)?;
    if lister.text.len() >= PIECE {
        write_text(alloc, lister)?;
    }
    Ok(())
}

// Writes the text so far.
fn write_text<W: Write>(alloc: Global, lister: &mut Lister<'_, W>) -> Result<(), Fault> {
    let done = lister.out.write_all(lister.text.as_slice());
    lister.text.clear();
    judge_write(alloc, lister, done)
}

// Flushes once.
fn flush<W: Write>(alloc: Global, lister: &mut Lister<'_, W>) -> Result<(), Fault> {
    let done = lister.out.flush();
    judge_write(alloc, lister, done)
}

// The fault of a call of the writer, but that a pipe's reader has gone.
fn judge_write<W: Write>(
    alloc: Global,
    lister: &mut Lister<'_, W>,
    done: io::Result<()>,
) -> Result<(), Fault> {
    match done {
        Ok(()) => Ok(()),
        Err(error) if error.kind() == ErrorKind::BrokenPipe => {
            lister.is_left = true;
            Ok(())
        }
        Err(error) => Err(system_fault(alloc, "cannot write", lister.output, error)),
    }
}
