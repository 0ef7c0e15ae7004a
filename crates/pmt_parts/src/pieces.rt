//! The lines of a text of any length, piece by piece.
ghost use Rattle.std.specs.Prelude.{◌≡◌, ℕ, List, ◌+◌, ◌≤◌, ◌<◌, ◌++◌, length, take, IfOk, OnOk, true, false};
ghost use Rattle.std.specs.Io.KnownBytes.{Consumes, IsAtEnd, Keeps};
ghost use Rattle.pmt_parts.specs.Cutting.{IsFront, IsPiece};

use std::alloc::{AllocError, Global};
use std::io::{self, Read};

// The most bytes of a piece that is given though its lines are fewer: so that a line without end is not read whole.
const MOST_BYTES: usize = 67_108_864;

// How many bytes are asked for at once.
const READ_SIZE: usize = 4096;

/// Why no piece was given.
#[derive(Clone, Copy)]
pub enum PieceError {
    /// The reader's own fault.
    Read(io::Error),
    /// Memory was refused.
    OutOfMemory,
}

impl From<AllocError> for PieceError {
    fn from(_refused: AllocError) -> Self {
        PieceError::OutOfMemory
    }
}

/// The lines of a reader, given some at a time. Each byte is given once, in order.
#[derive(Drop)]
pub struct Pieces<R> {
    input: R,
    bytes: [u8; READ_SIZE],
    start: usize,
    end: usize,
    ghost ordered: { start ≤ end },
    ghost within: { end ≤ 4096 },
}

impl<R: Read> Pieces<R> {
    ghost use Rattle.pmt_parts.specs.Reading.{coming, held};

    /// The lines of this reader.
    pub fn new(input: R) -> Self
        ensures { coming R.remaining result ≡ R.remaining input }
    {
        Pieces {
            input,
            bytes: [0; READ_SIZE],
            start: 0,
            end: 0,
        }
    }

    /// Adds the next lines to the text, at most so many, with their LF: fewer where no more bytes come, of which the last line may have no
    /// LF, or where they have more than 67,108,864 bytes.
    ///
    /// # Errors
    /// `Read` with the reader's fault, `OutOfMemory`. Some of the lines may be added then.
    pub fn add_to(&mut self, text: &mut Vec<u8>, most: u64) -> Result<(), PieceError>
        ensures { OnOk result ((piece : List ℕ) × (text.new.items ≡ text.old.items ++ piece) × IsPiece (coming R.remaining self.old) most piece (coming R.remaining self.new)) }
    {
        let start = text.len();
        let mut left = most;
        while left > 0 && text.len() - start <= MOST_BYTES {
            if !self.fill()? {
                return Ok(());
            }
            left -= self.take_lines(text, left)?;
        }
        Ok(())
    }

    /// Whether no more bytes come.
    ///
    /// # Errors
    /// `Read` with the reader's fault.
    pub fn is_at_end(&mut self) -> Result<bool, PieceError>
        ensures kept { OnOk result (Keeps (coming R.remaining self.old) (coming R.remaining self.new)) }
        ensures end { IfOk result (λ over. over ≡ true → IsAtEnd (coming R.remaining self.new)) }
    {
        let is_filled = self.fill()?;
        Ok(!is_filled)
    }

    // Reads on if nothing is held. False where no more bytes come.
    fn fill(&mut self) -> Result<bool, PieceError>
        ensures kept { OnOk result (Keeps (coming R.remaining self.old) (coming R.remaining self.new)) }
        ensures some { IfOk result (λ filled. filled ≡ true → 0 < length (held self.new)) }
        ensures end { IfOk result (λ filled. filled ≡ false → IsAtEnd (coming R.remaining self.new)) }
    {
        if self.start < self.end {
            return Ok(true);
        }
        match read_front(&mut self.input, &mut self.bytes) {
            Ok(count) => {
                self.start = 0;
                self.end = count;
                Ok(count > 0)
            }
            Err(error) => Err(PieceError::Read(error)),
        }
    }

    // Moves the lines at the front of what is held to the piece, at most so many, and gives how many end.
    fn take_lines(&mut self, piece: &mut Vec<u8>, most: u64) -> Result<u64, PieceError>
        requires { 0 < most }
        ensures taken { IfOk result (λ lines. (front : List ℕ) × IsFront most (held self.old) front lines × (piece.new.items ≡ piece.old.items ++ front) × (held self.old ≡ front ++ held self.new)) }
        ensures input { self.new.input ≡ self.old.input }
    {
        let found = front_of(&self.bytes[self.start..self.end], most);
        let stop = self.start + found.len;
        piece.extend_from_slice(&self.bytes[self.start..stop])?;
        self.start = stop;
        Ok(found.lines)
    }
}

// Makes one read into the front of the bytes.
fn read_front<R: Read>(input: &mut R, bytes: &mut [u8]) -> io::Result<usize>
    requires { 0 < length bytes.old }
    ensures within { IfOk result (λ n. n ≤ length bytes.new) }
    ensures bytes { IfOk result (λ n. Consumes (R.remaining input.old) (R.remaining input.new) (take n bytes.new)) }
    ensures end { IfOk result (λ n. n ≡ 0 → IsAtEnd (R.remaining input.new)) }
{
    input.read(bytes)
}

/// The lines at the front of some bytes.
#[derive(Clone, Copy)]
pub(crate) struct Front {
    /// How many bytes they have.
    pub(crate) len: usize,
    /// How many of them end.
    pub(crate) lines: u64,
}

// The front with the first so many lines; all the bytes, where fewer end.
fn front_of(bytes: &[u8], most: u64) -> Front
    requires { 0 < most }
    ensures within { result.len ≤ length bytes.now }
    ensures front { IsFront most bytes.now (take result.len bytes.now) result.lines }
{
    let mut lines = 0;
    for index in 0..bytes.len() {
        if bytes[index] == b'\n' {
            lines += 1;
            if lines == most {
                return Front {
                    len: index + 1,
                    lines,
                };
            }
        }
    }
    Front {
        len: bytes.len(),
        lines,
    }
}
