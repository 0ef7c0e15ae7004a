//! What is known of lines and of stores, to be read.
ghost use Rattle.std.specs.Prelude.{◌≡◌, ℕ, ◌^◌, ◌<◌, ◌≤◌, ◌⊎◌, length, max, slice_index, IfSome};
ghost use Rattle.pmt_model.specs.Traces.{Recording, history, lines_of};
ghost use Rattle.pmt_tables.specs.Slots.{IsFound};
ghost use Rattle.pmt_rows.specs.Known.{row_after};
ghost use Rattle.pmt_safety.specs.Safety.{safe_store_at};
ghost use Rattle.pmt_tables.specs.Lasts.{IsLeastAbove, IsNewest};
ghost use Rattle.pmt_sweep.specs.Known.{IsKnownOf, IsLineAt, last_in_line};

use crate::known::Known;
use crate::line_words::part_of_word;
use pmt_model::Format;
use pmt_rows::Row;

impl Known {
    /// The format of the trace.
    #[inline(always)]
    pub fn format(&self) -> Format
        ensures { result ≡ self.now.format }
    {
        self.format
    }

    /// The slot of the line, if some event has stored or flushed it.
    #[inline(always)]
    pub fn find(&self, line: u64) -> Option<usize>
        ensures small { IfSome result (λ slot. slot < 2 ^ 32) }
        ensures found { (T : Recording) (n : ℕ) → IsKnownOf T n self.now → IsFound line (lines_of (history T n)) result }
    {
        self.rows.slots().find(line)
    }

    /// The row of the line at this slot.
    #[inline(always)]
    pub fn row(&self, slot: usize) -> Row
        requires { (T : Recording) × (n : ℕ) × (l : ℕ) × IsLineAt T n l slot self.now }
        ensures { (T : Recording) (n l : ℕ) → IsLineAt T n l slot self.now → result ≡ row_after (λ m. safe_store_at T m n) (history T n) l }
    {
        self.rows.row(slot)
    }

    /// The newest of the last stores to the bytes from `low` up to the one before `high` of the line at this slot, by their distance from
    /// its first byte: its number, or 0 where there is none. One step where these are all bytes of the line, else one a word.
    #[inline(always)]
    pub fn newest(&self, slot: usize, low: u32, high: u32) -> u32
        requires line { (T : Recording) × (n : ℕ) × (l : ℕ) × IsLineAt T n l slot self.now }
        requires small { slot < 2 ^ 32 }
        requires some { low < high }
        requires within { high ≤ self.now.format.line_size }
        ensures { (T : Recording) (n l : ℕ) → IsLineAt T n l slot self.now → IsNewest low high (last_in_line T n l) result }
    {
        if high - low == self.format.line_size() as u32 {
            return self.rows.row(slot).last_store;
        }
        self.newest_by_words(slot, low, high)
    }

    // The same, by the bytes of each word.
    #[inline(never)]
    fn newest_by_words(&self, slot: usize, low: u32, high: u32) -> u32
        requires line { (T : Recording) × (n : ℕ) × (l : ℕ) × IsLineAt T n l slot self.now }
        requires small { slot < 2 ^ 32 }
        requires some { low < high }
        requires within { high ≤ self.now.format.line_size }
        ensures { (T : Recording) (n l : ℕ) → IsLineAt T n l slot self.now → IsNewest low high (last_in_line T n l) result }
    {
        let first = slot * self.words_of_line;
        let mut newest = 0;
        for word in low as usize / 8..(high as usize - 1) / 8 + 1 {
            let part = part_of_word(word, low, high);
            let found = self.words.newest(first + word, part.low, part.high);
            newest = newer(newest, found);
        }
        newest
    }

    /// The oldest of the last stores to the bytes from `low` up to the one before `high` of the line at this slot, by their distance from
    /// its first byte: its number, or 0 where there is none. One step a word.
    #[inline(never)]
    pub fn oldest(&self, slot: usize, low: u32, high: u32) -> u32
        requires line { (T : Recording) × (n : ℕ) × (l : ℕ) × IsLineAt T n l slot self.now }
        requires small { slot < 2 ^ 32 }
        requires some { low < high }
        requires within { high ≤ self.now.format.line_size }
        ensures { (T : Recording) (n l : ℕ) → IsLineAt T n l slot self.now → IsLeastAbove 0 low high (last_in_line T n l) result }
    {
        let first = slot * self.words_of_line;
        let mut oldest = 0;
        for word in low as usize / 8..(high as usize - 1) / 8 + 1 {
            let part = part_of_word(word, low, high);
            let found = self.words.oldest(first + word, part.low, part.high);
            oldest = older(oldest, found);
        }
        oldest
    }

    // The same, of all bytes of the line.
    #[inline(always)]
    pub(crate) fn oldest_of_line(&self, slot: usize) -> u32
        requires line { (T : Recording) × (n : ℕ) × (l : ℕ) × IsLineAt T n l slot self.now }
        requires small { slot < 2 ^ 32 }
        ensures { (T : Recording) (n l : ℕ) → IsLineAt T n l slot self.now → IsLeastAbove 0 0 self.now.format.line_size (last_in_line T n l) result }
    {
        let first = slot * self.words_of_line;
        let mut oldest = 0;
        for word in 0..self.words_of_line {
            oldest = older(oldest, self.words.oldest_of_all(first + word));
        }
        oldest
    }

    /// The entry of the event with this number: of a store that is safe the place from which it is, of another store the one before it to
    /// its line.
    #[inline(always)]
    pub fn entry(&self, number: u32) -> u32
        requires { number < length self.now.links }
        ensures { result ≡ slice_index self.now.links number }
    {
        self.links.of(number)
    }
}

// The greater of two numbers.
#[inline(always)]
fn newer(one: u32, other: u32) -> u32
    ensures { result ≡ max one other }
{
    if one < other { other } else { one }
}

// The lesser of two numbers, of which each may be 0, for none.
#[inline(always)]
fn older(one: u32, other: u32) -> u32
    ensures either { (result ≡ one) ⊎ (result ≡ other) }
    ensures first { 0 < one → (0 < result) × (result ≤ one) }
    ensures second { 0 < other → (0 < result) × (result ≤ other) }
{
    if other != 0 && (one == 0 || other < one) {
        other
    } else {
        one
    }
}
