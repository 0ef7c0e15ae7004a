//! `parts`: a trace of any length, cut into parts while it is read.
ghost use Rattle.std.specs.Prelude.{◌≡◌, List, [], None, OnOk, IfOk};
ghost use Rattle.pmt_parts.specs.declared.part.Part.{Part};
ghost use Rattle.pmt_parts.specs.Runs.{IsCutText};
ghost use Rattle.command_parts.specs.Counting.{IsCounted, IsLongText};

use crate::files::Written;
use crate::labels::PartLabels;
use crate::reading::part_fault;
use crate::writing::{Beside, PartFiles};
use command_inputs::{Fault, Opener, cut_of, opened, read_standing, write_answer};
use command_requests::PartsWords;
use pmt_parts::{Stop, give_parts};
use std::alloc::Global;
use std::io::{Read, Write};

/// Writes the parts of the trace of the file or of `input`, each as soon as it is complete, and then a line that counts them to `out`. The
/// status is 0. Where that is answered, `input` has just the text of a trace of any length, if no file is named.
///
/// # Errors
/// The fault of a file, of the first line of the trace or the labels that is refused, of a write, or of a carry that passes half a part.
/// The parts before it stand then, and the fault names them; of a part that was written in part no file is left.
pub fn run_parts<O, I, W>(
    alloc: Global,
    words: &PartsWords<'_>,
    files: &O,
    input: &mut I,
    out: &mut W,
) -> Result<u8, Fault>
where
    O: Opener,
    I: Read,
    W: Write,
    ensures status { IfOk result (λ status. status ≡ 0) }
    ensures text { words.now.file ≡ None → OnOk result (IsLongText (I.remaining input.old)) }
{
    let beside = beside_whole(alloc, words, files)?;
    let mut taker = PartFiles::new(words, files, beside);
    match cut_input(alloc, words, files, input, &mut taker) {
        Ok(()) => {}
        Err(fault) => return Err(taker.written.standing(alloc, words, fault)),
    }
    let text = taker.written.counts(alloc)?;
    write_answer(alloc, text.as_bytes(), out)?;
    Ok(0)
}

// What stands beside the whole trace.
fn beside_whole<'a, O: Opener>(
    alloc: Global,
    words: &PartsWords<'a>,
    files: &O,
) -> Result<Beside<'a, O::Reader>, Fault> {
    let labels = PartLabels::open(alloc, files, words.labels)?;
    let cut = cut_of(alloc, files, words.file)?;
    let missing = missing_of(alloc, files, words.file)?;
    Ok(Beside {
        labels,
        cut,
        missing,
    })
}

// What the recorder saw and did not note, if the file FILE.missing stands beside that of the trace.
fn missing_of<O: Opener>(
    alloc: Global,
    files: &O,
    file: Option<&str>,
) -> Result<Option<Vec<u8>>, Fault> {
    let Some(file) = file else {
        return Ok(None);
    };
    let name = format!(in alloc; "{file}.missing")?;
    read_standing(alloc, files, name.as_str())
}

// Cuts the trace of the file, or of `input` where none is named.
fn cut_input<O: Opener, I: Read>(
    alloc: Global,
    words: &PartsWords<'_>,
    files: &O,
    input: &mut I,
    taker: &mut PartFiles<'_, O, O::Reader>,
) -> Result<(), Fault>
    ensures { words.now.file ≡ None → OnOk result (IsLongText (I.remaining input.old)) }
{
    match words.file {
        Some(name) => {
            let reader = opened(alloc, files, name)?;
            cut_reader(alloc, words, reader, taker)
        }
        None => cut_reader(alloc, words, input, taker),
    }
}

// Cuts the trace that the reader gives. What was written counts all its parts.
fn cut_reader<O: Opener, L: Read + Drop, R: Read + Drop>(
    alloc: Global,
    words: &PartsWords<'_>,
    reader: R,
    taker: &mut PartFiles<'_, O, L>,
) -> Result<(), Fault>
    ensures { OnOk result ((parts : List Part) × IsCutText words.now.ignored.items words.now.overlap (R.remaining reader) parts × (IsCounted [] taker.old.written → IsCounted parts taker.new.written)) }
{
    match give_parts(
        alloc,
        reader,
        words.events,
        words.overlap,
        words.ignored.as_slice(),
        taker,
    ) {
        Ok(()) => Ok(()),
        Err(Stop::Taker(fault)) => Err(fault),
        Err(Stop::Text(error)) => Err(part_fault(alloc, words, error)),
    }
}
