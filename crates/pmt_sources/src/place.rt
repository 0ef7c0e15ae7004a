//! The places of source files that words name.
ghost use Rattle.std.specs.Prelude.{ℕ, List, Decides, MatchOption};
ghost use Rattle.pmt_sources.specs.Places.{AreSame, IsPlace};

use pmt_text::number::read_number;

// The greatest number of a line.
const MOST_LINE: u64 = 9_999_999;

/// A line of a source file.
#[derive(Clone, Copy)]
pub struct SourcePlace<'a> {
    /// The file, as a label names it.
    pub file: &'a str,
    /// The line's number, from 1.
    pub line: u64,
}

/// The file and the line that the word names, as `list.c:57`.
pub fn place_of(word: &str) -> Option<SourcePlace<'_>>
    ensures { MatchOption result ((file : List ℕ) (line : ℕ) → ¬ IsPlace word.now file line) (λ place. IsPlace word.now place.file.now place.line) }
{
    let Some((file, digits)) = word.rsplit_once(':') else {
        return None;
    };
    let Some(line) = read_number(10, digits.as_bytes()) else {
        return None;
    };
    if file.is_empty() || line == 0 || line > MOST_LINE {
        return None;
    }
    Some(SourcePlace { file, line })
}

// Whether both are one line of one file.
pub(crate) fn is_same(one: SourcePlace<'_>, other: SourcePlace<'_>) -> bool
    ensures { Decides result (AreSame one.entry other.entry) }
{
    one.line == other.line && one.file == other.file
}
