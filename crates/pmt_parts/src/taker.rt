//! What takes the parts of a text, and why no more of them are made.
ghost use Rattle.std.specs.Prelude.{List, [], ◌∷◌, ◌++◌, Bool, false, OnOk};
ghost use Rattle.pmt_parts.specs.declared.part.Part.{Part};
ghost use Rattle.pmt_parts.specs.Runs.{RefusedAs};

use crate::{Part, PieceError};
use pmt_text::TextError;
use std::alloc::{AllocError, Global};
use std::io;

/// What takes the parts of a text one by one.
pub trait PartTaker {
    // What it may be once it has taken these parts, and was told of the last of them whether it is the last one; false before the first.
    ghost took: { List Part → Bool → Self → Type 0 };

    /// Why it goes no further.
    type Fault: Drop;

    /// Takes the next part, and whether it is the last one.
    ///
    /// # Errors
    /// Its own fault, which ends the run.
    fn take(&mut self, alloc: Global, part: &Part, is_last: bool) -> Result<(), Self::Fault>
        ensures { OnOk result ((parts : List Part) → took parts false self.old → took (parts ++ part.now ∷ []) is_last self.new) };

    /// Looks at the next part while it has no more than what is carried and the events before those that it answers for.
    ///
    /// # Errors
    /// Its own fault, which ends the run.
    fn begin(&mut self, alloc: Global, next: &Part) -> Result<(), Self::Fault>
        ensures { OnOk result ((parts : List Part) → took parts false self.old → took parts false self.new) };
}

/// Why a run ends before its text does.
#[derive(Drop)]
pub enum Stop<F> {
    /// The taker's own fault.
    Taker(F),
    /// No more parts are made of the text.
    Text(PartError),
}

/// Why no more parts are made of a text.
#[derive(Drop)]
pub enum PartError {
    /// The reader's own fault.
    Read(io::Error),
    /// A line is refused.
    Refused(Refusal),
    /// It has more than 18,446,744,073,709,551,615 events.
    TooMany,
    /// Memory was refused.
    OutOfMemory,
}

/// A piece of a text that is refused.
#[derive(Drop)]
pub struct Refusal {
    /// The header of the text, and the lines of the piece.
    pub text: Vec<u8>,
    /// How many events stand before the piece.
    pub before: u64,
    /// What is refused, where this text stands alone.
    pub fault: TextError,
}

impl From<PieceError> for PartError {
    ghost from_gives = { λ _ error. RefusedAs (λ _. ⊥) error };

    fn from(error: PieceError) -> Self {
        match error {
            PieceError::Read(error) => PartError::Read(error),
            PieceError::OutOfMemory => PartError::OutOfMemory,
        }
    }
}

impl From<AllocError> for PartError {
    ghost from_gives = { λ _ error. RefusedAs (λ _. ⊥) error };

    fn from(_refused: AllocError) -> Self {
        PartError::OutOfMemory
    }
}
