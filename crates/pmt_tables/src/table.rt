//! A table of the last store to each byte of a word.
ghost use Rattle.std.specs.Prelude.{◌≡◌, ℕ, ◌==◌, ◌<◌, ◌≤◌, ◌&&◌, ◌||◌, if◌then◌else◌, nat_lt, true, length, slice_index, OnOk};
ghost use Rattle.pmt_tables.specs.Lasts.{AddsOverwritten, IsLeastAbove, IsNewest, is_in, high_of as end_of, is_covered, IsWhole, last_by};

use crate::packed::{high_of, low_of, number_of};
use crate::words::Overwrite;
use pmt_model::OutOfMemory;

/// Of each byte the number of the last store to it, or 0.
#[derive(Clone, Copy)]
pub(crate) struct Table {
    pub(crate) numbers: [u32; 8],
}

// The table of a word that has none.
pub(crate) fn table_of(word: u32) -> Table
    requires { end_of word ≤ 8 }
    ensures eight { length result.numbers ≡ 8 }
    ensures each { (k : ℕ) → k < 8 → slice_index result.numbers k ≡ last_by word k }
{
    let mut table = Table { numbers: [0; 8] };
    write(&mut table, low_of(word), high_of(word), number_of(word));
    table
}

// The store writes these bytes.
pub(crate) fn write(table: &mut Table, low: u32, high: u32, number: u32)
    requires within { high ≤ 8 }
    requires eight { length table.old.numbers ≡ 8 }
    ensures eight { length table.new.numbers ≡ 8 }
    ensures each { (k : ℕ) → k < 8 → slice_index table.new.numbers k ≡ (if is_in low high k then number else slice_index table.old.numbers k) }
{
    for k in low..high {
        table.numbers[k as usize] = number;
    }
}

// The greatest number of these bytes.
#[inline(never)]
pub(crate) fn newest(table: &Table, low: u32, high: u32) -> u32
    requires some { low ≤ high }
    requires within { high ≤ 8 }
    requires eight { length table.now.numbers ≡ 8 }
    ensures { IsNewest low high (λ k. slice_index table.now.numbers k) result }
{
    let mut number = 0;
    for k in low..high {
        let other = table.numbers[k as usize];
        if other > number {
            number = other;
        }
    }
    number
}

// Whether another number above a bound is less than the least one so far, or the first one.
fn is_less(other: u32, number: u32, above: u32) -> bool
    ensures { result ≡ (nat_lt above other && ((number == 0) || nat_lt other number)) }
{
    other > above && (number == 0 || other < number)
}

// The least number of these bytes above a bound, or 0.
pub(crate) fn least_above(table: &Table, low: u32, high: u32, above: u32) -> u32
    requires some { low ≤ high }
    requires within { high ≤ 8 }
    requires eight { length table.now.numbers ≡ 8 }
    ensures { IsLeastAbove above low high (λ k. slice_index table.now.numbers k) result }
{
    let mut number = 0;
    for k in low..high {
        let other = table.numbers[k as usize];
        if is_less(other, number, above) {
            number = other;
        }
    }
    number
}

// The least number of these bytes that is not 0, or 0.
#[inline(never)]
pub(crate) fn oldest(table: &Table, low: u32, high: u32) -> u32
    requires some { low ≤ high }
    requires within { high ≤ 8 }
    requires eight { length table.now.numbers ≡ 8 }
    ensures { IsLeastAbove 0 low high (λ k. slice_index table.now.numbers k) result }
{
    least_above(table, low, high, 0)
}

// Adds what the later store overwrites of these bytes: at most eight stores, each found by one look at the bytes.
pub(crate) fn push_overwritten(
    over: &mut Vec<Overwrite>,
    table: &Table,
    low: u32,
    high: u32,
    flush: u32,
    later: u32,
) -> Result<(), OutOfMemory>
    requires some { low ≤ high }
    requires within { high ≤ 8 }
    requires eight { length table.now.numbers ≡ 8 }
    ensures { OnOk result (AddsOverwritten flush later low high (λ k. slice_index table.now.numbers k) over.old.items over.new.items) }
{
    let mut earlier = least_above(table, low, high, flush);
    while earlier != 0 {
        over.push(Overwrite { earlier, later })?;
        earlier = least_above(table, low, high, earlier);
    }
    Ok(())
}

// Adds what the later store overwrites of a word without a table, of which it writes all that is known.
#[inline(always)]
pub(crate) fn push_whole(
    over: &mut Vec<Overwrite>,
    word: u32,
    low: u32,
    high: u32,
    flush: u32,
    later: u32,
) -> Result<(), OutOfMemory>
    requires covered { is_covered word low high ≡ true }
    requires whole { IsWhole word }
    ensures { OnOk result (AddsOverwritten flush later low high (last_by word) over.old.items over.new.items) }
{
    let earlier = number_of(word);
    if earlier > flush {
        over.push(Overwrite { earlier, later })?;
    }
    Ok(())
}
