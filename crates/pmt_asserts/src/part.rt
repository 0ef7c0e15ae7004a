//! The part of a range that lies in one line.
ghost use Rattle.std.specs.Prelude.{◌≡◌, ℕ, ◌<◌, ◌≤◌, ◌^◌, ◌↔◌};
ghost use Rattle.pmt_laws.specs.Prelude.{line_of, InSpan};

use pmt_model::{Format, Range};

// The addresses from `low` on, below `high`.
#[derive(Clone, Copy, Debug, PartialEq, Eq)]
pub(crate) struct Part {
    pub(crate) low: u64,
    pub(crate) high: u64,
}

// The bytes of the range that lie in the line.
pub(crate) fn part_of(format: Format, range: Range, line: u64) -> Part
    requires { line < 2 ^ 48 }
    ensures { (b : ℕ) → ((result.low ≤ b) × (b < result.high)) ↔ (InSpan range b × (line_of format b ≡ line)) }
{
    let size = format.line_size();
    let first = range.addr().get();
    let end = first + range.len();
    Part {
        low: first.max(line * size),
        high: end.min(line * size + size),
    }
}
