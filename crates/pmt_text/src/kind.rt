//! Why a text is refused.
ghost use Rattle.std.specs.Prelude.{◌≡◌};
ghost use Rattle.pmt_text.specs.Judging.{name_of};

use std::fmt;
use thiserror::Error;

/// Why a line of a text is refused: the first check that fails there.
#[derive(Clone, Copy, Debug, PartialEq, Eq)]
pub enum TextKind {
    /// The line has no LF.
    Truncated,
    /// Line 1 is not the header of a format.
    BadHeader,
    /// The first field is none of the words of the format.
    BadWord,
    /// The number of fields is wrong, or a field is not spelled rightly.
    BadField,
    /// A field is spelled rightly and out of its range.
    OutOfRange,
    /// A store does not lie inside one aligned word of 8 bytes.
    CrossesWord,
    /// A million events stand before this one.
    TooManyEvents,
}

impl TextKind {
    /// The name of the kind, as it stands in a fault line.
    pub fn name(self) -> &'static str
        ensures { result.now ≡ name_of self }
    {
        match self {
            TextKind::Truncated => "truncated",
            TextKind::BadHeader => "bad-header",
            TextKind::BadWord => "bad-word",
            TextKind::BadField => "bad-field",
            TextKind::OutOfRange => "out-of-range",
            TextKind::CrossesWord => "crosses-word",
            TextKind::TooManyEvents => "too-many-events",
        }
    }
}

// Shown by its name.
impl fmt::Display for TextKind {
    fn fmt<W: fmt::Write>(&self, f: &mut fmt::Formatter<W>) -> fmt::Result {
        f.write_str(self.name())
    }
}

impl std::error::Error for TextKind {}

/// The first faulty line of a text, and the first check that fails there. Lines are numbered from 1; the header is line 1.
#[derive(Clone, Copy, Debug, PartialEq, Eq, Error)]
#[error("line {line}: {kind}")]
pub struct TextError {
    pub line: u64,
    pub kind: TextKind,
}

/// Why a text in memory was not read.
#[derive(Clone, Copy, Debug, PartialEq, Eq, Error)]
pub enum ReadError {
    #[error("{0}")]
    Text(TextError),
    #[error("out of memory")]
    OutOfMemory,
}

/// Why a source of events gives no more.
#[derive(Clone, Copy, Debug, PartialEq, Eq, Error)]
pub enum SourceError {
    /// A line of its text is faulty.
    #[error("{0}")]
    Text(TextError),
    /// More bytes come than are judged.
    #[error("the text is too long")]
    TooMany,
    /// A read failed.
    #[error("a read failed")]
    Read,
    /// A growth was refused.
    #[error("out of memory")]
    OutOfMemory,
    /// The source told a fault before.
    #[error("the source failed before")]
    Failed,
}
