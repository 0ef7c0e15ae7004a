//! A range, line by line.
ghost use Rattle.std.specs.Prelude.{◌≡◌, ℕ, ◌<◌, ◌≤◌, ◌/◌, ◌^◌, ◌&&◌, nat_le};
ghost use Rattle.pmt_model.specs.Values.{Layout, Span};
ghost use Rattle.pmt_tables.specs.Slots.{AreBytesOf, IsSpanned};

use pmt_model::{Format, Range};

/// A range of bytes, with the first and the last line that it meets: it meets all lines from the one to the other.
#[derive(Clone, Copy)]
pub struct Spanned {
    /// The first line.
    pub first: u64,
    /// The last line.
    pub last: u64,
    // Where the range begins in the first line, where it ends in the last one, and how many bytes a line has.
    low: u32,
    high: u32,
    size: u32,
}

/// Bytes of a line, by how far they lie from its first one: from `low` up to the one before `high`.
#[derive(Clone, Copy)]
pub struct LineBytes {
    pub low: u32,
    pub high: u32,
}

impl Spanned {
    /// The range, in lines of this format.
    pub fn new(format: Format, range: Range) -> Self
        ensures { IsSpanned format range result }
    {
        let size = format.line_size();
        let from = range.addr().get();
        let to = from + range.len();
        let first = line_number(size, from);
        let last = line_number(size, to - 1);
        Spanned {
            first,
            last,
            low: (from - first * size) as u32,
            high: (to - last * size) as u32,
            size: size as u32,
        }
    }

    /// The bytes of the range that are of this line, one of those that it meets.
    #[inline(always)]
    pub fn bytes(&self, line: u64) -> LineBytes
        requires { (f : Layout) × (A : Span) × IsSpanned f A self.now × (self.now.first ≤ line) × (line ≤ self.now.last) }
        ensures { (f : Layout) (A : Span) → IsSpanned f A self.now → self.now.first ≤ line → line ≤ self.now.last → AreBytesOf f A line result }
    {
        LineBytes {
            low: if line == self.first { self.low } else { 0 },
            high: if line == self.last {
                self.high
            } else {
                self.size
            },
        }
    }

    /// Whether the range meets the line.
    #[inline(always)]
    pub fn meets(&self, line: u64) -> bool
        ensures { result ≡ (nat_le self.now.first line && nat_le line self.now.last) }
    {
        self.first <= line && line <= self.last
    }
}

// The line of the address, where a line has so many bytes: by a shift where their number is known when this is compiled.
fn line_number(size: u64, addr: u64) -> u64
    requires { 0 < size }
    ensures { result ≡ addr / size }
{
    match size {
        32 => addr / 32,
        64 => addr / 64,
        128 => addr / 128,
        256 => addr / 256,
        _ => addr / size,
    }
}
