//! The words of lines, by the slots of the lines.
ghost use Rattle.std.specs.Prelude.{◌≡◌, ◌+◌, ◌*◌, ◌<◌, ◌≤◌};
ghost use Rattle.pmt_model.specs.Values.{line_of as line_in};
ghost use Rattle.pmt_tables.specs.Lasts.{WritesIn};
ghost use Rattle.pmt_sweep.specs.Known.{word_address};
ghost use Rattle.pmt_sweep.specs.Judged.{IsPartOfWord};

use pmt_model::{Format, WordStore};

// Some bytes of one of the words of a line.
#[derive(Clone, Copy)]
pub(crate) struct WordBytes {
    pub(crate) word: usize,
    pub(crate) low: u32,
    pub(crate) high: u32,
}

// The bytes that the store writes, which is one to this line.
#[inline(always)]
pub(crate) fn bytes_of(format: Format, line: u64, store: &WordStore) -> WordBytes
    requires { line ≡ line_in format store.now.addr }
    ensures some { result.low < result.high }
    ensures eight { result.high ≤ 8 }
    ensures word { result.word * 8 + 8 ≤ format.line_size }
    ensures writes { WritesIn (word_address format.line_size line result.word) store.now result.low result.high }
{
    let addr = store.addr().get();
    let low = (addr % 8) as u32;
    WordBytes {
        word: ((addr - line * format.line_size()) / 8) as usize,
        low,
        high: low + store.bytes().len() as u32,
    }
}

// The bytes of a line from `low` up to the one before `high` that are of this word, which has some of them.
#[inline(always)]
pub(crate) fn part_of_word(word: usize, low: u32, high: u32) -> WordBytes
    requires from { low < word * 8 + 8 }
    requires to { word * 8 < high }
    requires some { low < high }
    ensures { IsPartOfWord word low high result }
{
    let start = word as u32 * 8;
    WordBytes {
        word,
        low: low.saturating_sub(start),
        high: (high - start).min(8),
    }
}
