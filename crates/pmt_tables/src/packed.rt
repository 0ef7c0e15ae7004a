//! A word of which one store wrote all that is known, in one number.
ghost use Rattle.std.specs.Prelude.{◌≡◌, ◌<◌, ◌≤◌, ◌^◌, ◌/◌, ◌%◌, ◌&&◌, nat_le, nat_lt};
ghost use Rattle.pmt_tables.specs.Lasts.{number_of as store_of, low_of as first_of, high_of as end_of, first_table, is_covered, IsWhole, last_by, IsLeastAbove, IsNewest};

// A word of which nothing is known: no byte from 8 on stands before 0.
pub(crate) const NONE: u32 = 0x80;

// A word from here on has a table.
pub(crate) const FIRST_TABLE: u32 = 0x8000_0000;

// The word whose bytes from `low` up to `high` the store wrote.
#[inline(always)]
pub(crate) fn packed(number: u32, low: u32, high: u32) -> u32
    requires small { number < 2 ^ 23 }
    requires first { low ≤ 8 }
    requires last { high ≤ 8 }
    ensures store { store_of result ≡ number }
    ensures first { first_of result ≡ low }
    ensures last { end_of result ≡ high }
    ensures whole { result < first_table }
{
    number * 256 + low * 16 + high
}

// The store.
#[inline(always)]
pub(crate) fn number_of(word: u32) -> u32
    ensures { result ≡ store_of word }
{
    word / 256
}

// The first byte that it wrote.
#[inline(always)]
pub(crate) fn low_of(word: u32) -> u32
    ensures { result ≡ first_of word }
{
    word / 16 % 16
}

// The byte after the last one that it wrote.
#[inline(always)]
pub(crate) fn high_of(word: u32) -> u32
    ensures { result ≡ end_of word }
{
    word % 16
}

// Whether these bytes are all that are known of a word without a table.
#[inline(always)]
pub(crate) fn covers(word: u32, low: u32, high: u32) -> bool
    ensures { result ≡ is_covered word low high }
{
    word < FIRST_TABLE && low <= low_of(word) && high_of(word) <= high
}

// The store, where it wrote one of these bytes, else 0.
pub(crate) fn number_in(word: u32, low: u32, high: u32) -> u32
    requires some { low < high }
    requires whole { IsWhole word }
    ensures newest { IsNewest low high (last_by word) result }
    ensures oldest { IsLeastAbove 0 low high (last_by word) result }
{
    if high_of(word) <= low {
        return 0;
    }
    if high <= low_of(word) {
        return 0;
    }
    number_of(word)
}
