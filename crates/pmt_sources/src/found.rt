//! Lines of source files that were read.
ghost use Rattle.std.specs.Prelude.{MatchOption};
ghost use Rattle.pmt_sources.specs.Places.{IsFirstAt, NoLineAt};

use crate::place::{SourcePlace, is_same};

/// A line of a source file, as it is shown.
#[derive(Drop)]
pub struct SourceLine<'a> {
    /// Which one.
    pub place: SourcePlace<'a>,
    /// What stands there.
    pub text: String,
}

/// What was read of source files.
#[derive(Drop)]
pub struct Sources<'a> {
    /// The lines that are there.
    pub lines: Vec<SourceLine<'a>>,
    /// Why others are not, a note for each file that was not read, and for each line that a file lacks.
    pub notes: Vec<String>,
}

/// The line of this place, if it is one of these; of two, the first.
pub fn found_line<'b, 'a>(
    lines: &'b [SourceLine<'a>],
    place: SourcePlace<'_>,
) -> Option<&'b SourceLine<'a>>
    ensures { MatchOption result (NoLineAt place.entry lines.now) (λ line. IsFirstAt place.entry lines.now line.now) }
{
    for line in lines {
        if is_same(line.place, place) {
            return Some(line);
        }
    }
    None
}
