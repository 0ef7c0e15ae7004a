//! The files of parts.
ghost use Rattle.std.specs.Prelude.{◌≡◌, IfOk};

use crate::ending::cut_text;
use crate::stale::{remove_beside, remove_later};
use crate::told::part_text;
use crate::writing::Beside;
use command_inputs::{Fault, Opener, Output, check_apart, write_outputs};
use command_requests::PartsWords;
use pmt_parts::{Part, set_aside};
use pmt_text::write_trace;
use std::alloc::{AllocError, Global};
use std::io::Read;

/// Which part is written.
#[derive(Clone, Copy)]
pub(crate) struct Turn {
    /// Its number, from 1.
    pub(crate) number: u64,
    /// Whether no event comes after it.
    pub(crate) is_last: bool,
}

/// What was written by now.
#[derive(Clone, Copy, Default)]
pub(crate) struct Written {
    /// How many parts.
    pub(crate) parts: u64,
    // how many events they answer for
    events: u64,
    // how many assertions they set aside
    aside: u64,
}

impl Written {
    /// The line that counts what was written.
    ///
    /// # Errors
    /// `OutOfMemory`.
    pub(crate) fn counts(self, alloc: Global) -> Result<String, AllocError> {
        let Written {
            parts,
            events,
            aside,
        } = self;
        format!(in alloc; "parts {parts} events {events} aside {aside}\n")
    }

    /// The fault that says what this one says, and which parts stand, if any.
    pub(crate) fn standing(self, alloc: Global, words: &PartsWords<'_>, fault: Fault) -> Fault {
        if self.parts == 0 {
            return fault;
        }
        match self.standing_text(alloc, words) {
            Ok(text) => fault.with_reason(alloc, &Fault::Absent(text)),
            Err(_) => Fault::OutOfMemory,
        }
    }

    // Which parts stand.
    fn standing_text(self, alloc: Global, words: &PartsWords<'_>) -> Result<String, AllocError> {
        let first = part_name(alloc, words.out, 1)?;
        let first = first.as_str();
        let events = self.events;
        if self.parts == 1 {
            return format!(in alloc; "{first} stands, which answers for events 1 to {events}\n");
        }
        let last = part_name(alloc, words.out, self.parts)?;
        let last = last.as_str();
        format!(in alloc; "{first} to {last} stand, which answer for events 1 to {events}\n")
    }
}

/// Writes the part, its labels if a file of labels is named, and what tells of it, and counts it. What an earlier run left beside it is
/// removed, and before the first part its later parts are, so that parts of two runs never stand together.
///
/// # Errors
/// A usage fault where one of the files is read; the fault of a write, and none of them is left then; `OutOfMemory`.
pub(crate) fn write_part<O: Opener, R: Read + Drop>(
    alloc: Global,
    words: &PartsWords<'_>,
    files: &O,
    beside: &Beside<'_, R>,
    part: &Part,
    turn: &Turn,
    written: Written,
) -> Result<Written, Fault>
    ensures { IfOk result (λ now. (now.parts ≡ turn.now.number) × (now.events ≡ part.now.end)) }
{
    let aside = set_aside(alloc, part)?;
    let name = part_name(alloc, words.out, turn.number)?;
    let name = name.as_str();
    let mut outputs = Vec::with_capacity(alloc, 5)?;
    let trace = write_trace(alloc, &part.trace)?;
    outputs.push(Output::new(alloc, name, "", trace)?)?;
    let told = part_text(alloc, words, part, turn, aside.as_slice())?;
    outputs.push(Output::new(alloc, name, ".part", told)?)?;
    if beside.labels.is_named() {
        let named = beside.labels.text(alloc, part.numbers.as_slice())?;
        outputs.push(Output::new(alloc, name, ".labels", named)?)?;
    }
    if let Some(text) = cut_text(alloc, part, turn, beside.cut.as_ref())? {
        outputs.push(Output::new(alloc, name, ".cut", text)?)?;
    }
    if let Some(missing) = &beside.missing {
        let mut text = Vec::new(alloc);
        text.extend_from_slice(missing.as_slice())?;
        outputs.push(Output::new(alloc, name, ".missing", text)?)?;
    }
    check_outputs(alloc, words, files, outputs.as_slice())?;
    remove_beside(alloc, words, files, name, turn.number)?;
    if turn.number == 1 {
        remove_later(alloc, words, files, turn.number)?;
    }
    write_outputs(alloc, files, outputs.as_slice())?;
    Ok(Written {
        parts: turn.number,
        events: part.end,
        aside: written.aside.saturating_add(aside.len() as u64),
    })
}

/// Refuses to write or remove what is read.
///
/// # Errors
/// A usage fault where one of the files is; `OutOfMemory`.
pub(crate) fn check_outputs<O: Opener>(
    alloc: Global,
    words: &PartsWords<'_>,
    files: &O,
    outputs: &[Output],
) -> Result<(), Fault> {
    check_apart(alloc, files, outputs, words.file)?;
    check_apart(alloc, files, outputs, words.labels)
}

/// The name of the part with this number.
///
/// # Errors
/// `OutOfMemory`.
pub(crate) fn part_name(alloc: Global, prefix: &str, number: u64) -> Result<String, AllocError> {
    format!(in alloc; "{prefix}.{number:04}.trace")
}
