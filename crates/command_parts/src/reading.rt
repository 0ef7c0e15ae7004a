//! The faults of a text that is read as the events of parts.

use command_inputs::{Fault, Input, piece_fault, system_fault};
use command_requests::PartsWords;
use pmt_parts::{PartError, PieceError, Refusal};
use pmt_text::TextKind;
use std::alloc::Global;

// How many bytes a part is read of at once; a line that ends behind them is not read to its end.
const MOST_BYTES: usize = 67_108_864;

/// The fault of the trace of which no more parts are made for this.
pub(crate) fn part_fault(alloc: Global, words: &PartsWords<'_>, error: PartError) -> Fault {
    let input = input_of(words);
    match error {
        PartError::Read(error) => system_fault(alloc, "cannot read", input.name(), error),
        PartError::Refused(refusal) => refused(alloc, input, &refusal),
        PartError::TooMany => too_many(alloc, input.name()),
        PartError::OutOfMemory => Fault::OutOfMemory,
    }
}

/// The fault of the input with this name, of which no lines were given for this.
pub(crate) fn piece_error(alloc: Global, name: &str, error: PieceError) -> Fault {
    match error {
        PieceError::Read(error) => system_fault(alloc, "cannot read", name, error),
        PieceError::OutOfMemory => Fault::OutOfMemory,
    }
}

// The fault of a line that is refused, or that is longer than the text of a part may be.
fn refused(alloc: Global, input: Input<'_>, refusal: &Refusal) -> Fault {
    let Refusal {
        text,
        before,
        fault,
    } = refusal;
    match fault.kind {
        TextKind::Truncated if text.len() > MOST_BYTES => {
            too_long(alloc, input.name(), fault.line.saturating_add(*before))
        }
        _ => piece_fault(alloc, input, text.as_slice(), *before, *fault),
    }
}

// The fault of a line that is longer than the text of a part may be.
fn too_long(alloc: Global, name: &str, line: u64) -> Fault {
    Fault::refused(format!(in alloc;
        "{name}:{line}: the line is too long: the text of a part has at most 67108864 bytes\n"
    ))
}

// The fault of events that have no number.
fn too_many(alloc: Global, name: &str) -> Fault {
    Fault::refused(format!(in alloc;
        "{name}: the trace is too long: it has more than 18446744073709551615 events\n"
    ))
}

// What is read for these words.
pub(crate) fn input_of<'a>(words: &PartsWords<'a>) -> Input<'a> {
    Input::new("parts", words.file)
}
