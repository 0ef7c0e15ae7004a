//! The run from the first part of a text to its last.
ghost use Rattle.std.specs.Prelude.{◌≡◌, List, [], ◌∷◌, ◌++◌, ℕ, Option, true, false, IfOk, IfErr, OnOk};
ghost use Rattle.std.specs.List.{AllByRecursion};
ghost use Rattle.std.specs.Io.KnownBytes.{IsAtEnd, Keeps};
ghost use Rattle.pmt_parts.specs.declared.part.Part.{Part};
ghost use Rattle.pmt_parts.specs.Reading.{coming};
ghost use Rattle.pmt_parts.specs.Runs.{IsCutText, KeepsTo, IsCutSoFar, IsRefusedAfter, IsRefusedPast, RefusedAs, StopsAs};

use crate::part::next_part;
use crate::reading::{first_part, read_on};
use crate::taker::{PartError, PartTaker, Stop};
use crate::{Part, Pieces};
use pmt_asked::ByteRange;
use std::alloc::Global;
use std::io::Read;

/// Gives the parts of the reader's text to the taker, each as soon as it is whole. A part has `most` events at most; where as many stand
/// before those that it would answer for, it answers for none. It begins `overlap` events before those that it answers for, or where the part
/// before it begins; stores all of whose bytes lie in the ranges are not carried.
///
/// # Errors
/// `Taker` with the taker's own fault. `Text` for a failed read, for the first line that is refused, for more events than are counted, or for
/// want of memory: the taker has the parts before it then.
pub fn give_parts<R: Read + Drop, S: PartTaker>(
    alloc: Global,
    input: R,
    most: u64,
    overlap: u64,
    ignored: &[ByteRange],
    taker: &mut S,
) -> Result<(), Stop<S::Fault>>
    ensures all { OnOk result ((parts : List Part) × IsCutText ignored.now overlap (R.remaining input) parts × (S.took [] false taker.old → S.took parts true taker.new) × AllByRecursion (KeepsTo most) parts) }
    ensures stops { IfErr result (StopsAs (λ e. (parts : List Part) × (S.took [] false taker.old → S.took parts false taker.new) × RefusedAs (IsRefusedAfter ignored.now overlap (R.remaining input) parts) e)) }
{
    let mut pieces = Pieces::new(input);
    let mut part = match first_part(alloc, &mut pieces, most) {
        Ok(part) => part,
        Err(error) => return Err(Stop::Text(error)),
    };
    for _ in 0..u64::MAX {
        if hand_on(alloc, &mut pieces, &part, taker)? {
            return Ok(());
        }
        part = part_after(alloc, &mut pieces, &part, most, overlap, ignored, taker)?;
    }
    Err(Stop::Text(PartError::TooMany))
}

// Gives the part to the taker, and says whether it is the last one.
fn hand_on<R: Read, S: PartTaker>(
    alloc: Global,
    pieces: &mut Pieces<R>,
    part: &Part,
    taker: &mut S,
) -> Result<bool, Stop<S::Fault>>
    ensures kept { OnOk result (Keeps (coming R.remaining pieces.old) (coming R.remaining pieces.new)) }
    ensures end { IfOk result (λ is_last. is_last ≡ true → IsAtEnd (coming R.remaining pieces.new)) }
    ensures stops { IfErr result (StopsAs (λ e. RefusedAs (λ _. ⊥) e × ((parts : List Part) → S.took parts false taker.old → S.took parts false taker.new))) }
    ensures took { IfOk result (λ is_last. (parts : List Part) → S.took parts false taker.old → S.took (parts ++ part.now ∷ []) is_last taker.new) }
{
    let is_last = match pieces.is_at_end() {
        Ok(is_last) => is_last,
        Err(error) => return Err(Stop::Text(PartError::from(error))),
    };
    match taker.take(alloc, part, is_last) {
        Ok(()) => Ok(is_last),
        Err(fault) => Err(Stop::Taker(fault)),
    }
}

// The part after this one.
fn part_after<R: Read, S: PartTaker>(
    alloc: Global,
    pieces: &mut Pieces<R>,
    part: &Part,
    most: u64,
    overlap: u64,
    ignored: &[ByteRange],
    taker: &mut S,
) -> Result<Part, Stop<S::Fault>>
    ensures part { IfOk result (λ next. (old : Option (List ℕ)) (parts : List Part) → IsCutSoFar ignored.now overlap old (coming R.remaining pieces.old) parts part.now → IsCutSoFar ignored.now overlap old (coming R.remaining pieces.new) (parts ++ part.now ∷ []) next) }
    ensures few { IfOk result (KeepsTo most) }
    ensures took { OnOk result ((parts : List Part) → S.took parts false taker.old → S.took parts false taker.new) }
    ensures stops { IfErr result (StopsAs (λ e. RefusedAs (IsRefusedPast part.now (coming R.remaining pieces.old)) e × ((parts : List Part) → S.took parts false taker.old → S.took parts false taker.new))) }
{
    let mut next = match next_part(alloc, part, overlap, ignored) {
        Ok(next) => next,
        Err(_) => return Err(Stop::Text(PartError::OutOfMemory)),
    };
    if let Err(fault) = taker.begin(alloc, &next) {
        return Err(Stop::Taker(fault));
    }
    match read_on(alloc, pieces, most, &mut next) {
        Ok(()) => Ok(next),
        Err(error) => Err(Stop::Text(error)),
    }
}
