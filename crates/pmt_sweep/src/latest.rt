//! The lines with the greatest numbers.
ghost use Rattle.std.specs.Prelude.{◌≡◌, ℕ, Option, ◌==◌, ◌&&◌, ◌||◌, not, nat_le};
ghost use Rattle.pmt_sweep.specs.Judged.{IsLatest, IsLatestBut, Tells, none_told, no_place};

use pmt_tables::Spanned;

// Of lines that each have a number the greatest number with its line, and the greatest of all other lines: 0 where there is none.
#[derive(Clone, Copy)]
pub(crate) struct Latest {
    pub(crate) line: u64,
    pub(crate) first: u32,
    pub(crate) second: u32,
}

impl Latest {
    // That of no line.
    pub(crate) fn none() -> Self
        ensures { IsLatest none_told result }
    {
        Latest {
            line: u64::MAX,
            first: 0,
            second: 0,
        }
    }

    // One more line, with its number.
    #[inline(always)]
    pub(crate) fn add(&mut self, line: u64, number: u32)
        ensures { (old new : ℕ → Option ℕ) → Tells old new line number → IsLatest old self.old → IsLatest new self.new }
    {
        if number > self.first {
            self.second = self.first;
            self.first = number;
            self.line = line;
        } else if number > self.second {
            self.second = number;
        }
    }

    // The greatest number of the lines but this one; 0 where there is none.
    #[inline(always)]
    pub(crate) fn of_others(&self, line: u64) -> u32
        ensures { (told : ℕ → Option ℕ) → IsLatest told self.now → IsLatestBut told line result }
    {
        if line == self.line {
            self.second
        } else {
            self.first
        }
    }
    // Whether beside each line of the range there is another line with the number `u32::MAX`.
    #[inline(always)]
    pub(crate) fn is_pending_apart(&self, lines: &Spanned) -> bool
        ensures { result ≡ ((self.now.first == no_place) && ((self.now.second == no_place) || not (nat_le lines.now.first self.now.line && nat_le self.now.line lines.now.last))) }
    {
        self.first == u32::MAX && (self.second == u32::MAX || !lines.meets(self.line))
    }
}
