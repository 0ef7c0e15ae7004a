//! Reading the events of a part from a text of any length.
ghost use Rattle.std.specs.Prelude.{◌≡◌, List, [], ℕ, IfOk, IfErr, OnOk};
ghost use Rattle.pmt_asked.specs.declared.ignoring.ByteRange.{ByteRange};
ghost use Rattle.pmt_text.specs.Spelling.{spelling};
ghost use Rattle.pmt_parts.specs.Reading.{coming};
ghost use Rattle.pmt_parts.specs.Runs.{Extends, IsCutSoFar, ReadsOn, KeepsTo, IsRefusedBehind, IsRefusedPast, IsRefusedText, RefusedAs};

use crate::taker::{PartError, Refusal};
use crate::{Part, Pieces};
use pmt_model::Trace;
use pmt_text::{ReadError, push_header, read_trace};
use std::alloc::Global;
use std::io::Read;

// The first part: the header and the first events, as many as a part has.
pub(crate) fn first_part<R: Read>(
    alloc: Global,
    pieces: &mut Pieces<R>,
    most: u64,
) -> Result<Part, PartError>
    ensures few { IfOk result (KeepsTo most) }
    ensures cut { IfOk result (λ part. (ranges : List ByteRange) (overlap : ℕ) → IsCutSoFar ranges overlap (coming R.remaining pieces.old) (coming R.remaining pieces.new) [] part) }
    ensures refused { IfErr result (RefusedAs (IsRefusedBehind [] (coming R.remaining pieces.old) 0)) }
{
    let mut text = Vec::new(alloc);
    pieces.add_to(&mut text, most.saturating_add(1))?;
    let block = events_of(alloc, text, 0)?;
    let mut part = Part::new(alloc, block.format());
    extend(&mut part, &block)?;
    Ok(part)
}

// Adds the next events to the part, as many as it has room for.
pub(crate) fn read_on<R: Read>(
    alloc: Global,
    pieces: &mut Pieces<R>,
    most: u64,
    part: &mut Part,
) -> Result<(), PartError>
    ensures read { OnOk result (ReadsOn most (coming R.remaining pieces.old) (coming R.remaining pieces.new) part.old part.new) }
    ensures refused { IfErr result (RefusedAs (IsRefusedPast part.old (coming R.remaining pieces.old))) }
{
    let mut text = Vec::new(alloc);
    push_header(&mut text, part.trace.format())?;
    let room = most.saturating_sub(part.trace.len() as u64);
    pieces.add_to(&mut text, room)?;
    let block = events_of(alloc, text, part.end)?;
    extend(part, &block)
}

// The events of this text, the header and lines that so many events stand before.
fn events_of(alloc: Global, text: Vec<u8>, before: u64) -> Result<Trace, PartError>
    ensures spelled { IfOk result (λ block. text.items ≡ spelling block) }
    ensures refused { IfErr result (RefusedAs (IsRefusedText text.items before)) }
{
    match read_trace(alloc, text.as_slice()) {
        Ok(block) => Ok(block),
        Err(ReadError::OutOfMemory) => Err(PartError::OutOfMemory),
        Err(ReadError::Text(fault)) => Err(PartError::Refused(Refusal {
            text,
            before,
            fault,
        })),
    }
}

// Adds the events to the part.
fn extend(part: &mut Part, block: &Trace) -> Result<(), PartError>
    ensures extends { OnOk result (Extends part.old block.now part.new) }
    ensures refused { IfErr result (RefusedAs (λ _. ⊥)) }
{
    if !part.takes(block) {
        return Err(PartError::TooMany);
    }
    part.extend(block)?;
    Ok(())
}
