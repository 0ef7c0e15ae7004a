//! The words of all lines, each by its slot.
ghost use Rattle.std.specs.Prelude.{◌≡◌, ℕ, [], ◌+◌, ◌<◌, ◌≤◌, ◌^◌, if◌then◌else◌, length, slice_index, nat_lt, IfOk, OnOk, OnErr};
ghost use Rattle.pmt_tables.specs.Lasts.{AddsOverwritten, IsLeastAbove, IsNewest, last_at, with_store, AreWords, first_table, last_in};

use crate::packed::{FIRST_TABLE, NONE, covers, number_in, number_of, packed};
use crate::table::{
    Table, least_above, newest, oldest, push_overwritten, push_whole, table_of, write,
};
use pmt_model::OutOfMemory;
use std::alloc::{AllocError, Global};
use std::marker::Model;

/// The earlier store is the last one to a byte of the later one, by their numbers.
#[derive(Clone, Copy)]
pub struct Overwrite {
    /// The store that is overwritten.
    pub earlier: u32,
    /// The store that overwrites it.
    pub later: u32,
}

/// Words of eight bytes, and of each byte the last store to it: 4 bytes a word, and 32 more once two stores share one.
#[derive(Drop)]
pub struct Words {
    words: Vec<u32>,
    tables: Vec<Table>,
}

impl Model for Words {
    ghost use Rattle.std.specs.Prelude.{ℕ, List};
    ghost use Rattle.pmt_tables.specs.Lasts.{AreWords, all_bytes};

    ghost Value = { List (List ℕ) };

    ghost view = { λ w. all_bytes w.words.items w.tables.items };

    ghost invariant = { λ w. AreWords w.words.items w.tables.items };
}

impl Words {
    /// No words.
    pub fn new(alloc: Global) -> Self
        ensures { result ≡ [] }
    {
        Words {
            words: Vec::new(alloc),
            tables: Vec::new(alloc),
        }
    }

    /// So many words more, to which no store has come.
    ///
    /// # Errors
    /// Where memory was refused, or there would be too many to count. All words stay as they were.
    #[inline(always)]
    pub fn add_many(&mut self, many: usize) -> Result<(), OutOfMemory>
        ensures many { OnOk result (length self.new ≡ length self.old + many) }
        ensures none { OnOk result ((i k : ℕ) → length self.old ≤ i → i < length self.new → k < 8 → last_at self.new i k ≡ 0) }
        ensures others { (i k : ℕ) → i < length self.old → k < 8 → last_at self.new i k ≡ last_at self.old i k }
        ensures same { OnErr result (length self.new ≡ length self.old) }
    {
        let Some(count) = self.words.len().checked_add(many) else {
            return Err(AllocError);
        };
        self.words.resize(count, NONE)?;
        Ok(())
    }

    /// A store to bytes of a word, from `low` up to `high`, below 2^23 by its number: what it overwrites that comes after the last flush of
    /// the line is added. One step, or where the word has several stores at most nine looks at its bytes.
    ///
    /// # Errors
    /// Where memory was refused. What stands of this word then, and what was added, is not told.
    #[inline(always)]
    pub fn store(
        &mut self,
        word: usize,
        low: u32,
        high: u32,
        number: u32,
        flush: u32,
        over: &mut Vec<Overwrite>,
    ) -> Result<(), OutOfMemory>
        requires within { word < length self.old }
        requires some { low < high }
        requires eight { high ≤ 8 }
        requires small { number < 2 ^ 23 }
        ensures many { length self.new ≡ length self.old }
        ensures stored { OnOk result ((i k : ℕ) → i < length self.old → k < 8 → last_at self.new i k ≡ with_store word low high number (last_at self.old) i k) }
        ensures over { OnOk result (AddsOverwritten flush number low high (last_at self.old word) over.old.items over.new.items) }
    {
        let old = self.words[word];
        if !covers(old, low, high) {
            return self.store_in_table(word, low, high, number, flush, over);
        }
        push_whole(over, old, low, high, flush, number)?;
        self.words[word] = packed(number, low, high);
        Ok(())
    }

    // As `store`, where the word has or gets a table.
    #[inline(never)]
    fn store_in_table(
        &mut self,
        word: usize,
        low: u32,
        high: u32,
        number: u32,
        flush: u32,
        over: &mut Vec<Overwrite>,
    ) -> Result<(), OutOfMemory>
        requires within { word < length self.old }
        requires some { low < high }
        requires eight { high ≤ 8 }
        ensures many { length self.new ≡ length self.old }
        ensures stored { OnOk result ((i k : ℕ) → i < length self.old → k < 8 → last_at self.new i k ≡ with_store word low high number (last_at self.old) i k) }
        ensures over { OnOk result (AddsOverwritten flush number low high (last_at self.old word) over.old.items over.new.items) }
    {
        let at = split(&mut self.words, &mut self.tables, word)?;
        push_overwritten(over, &self.tables[at], low, high, flush, number)?;
        write(&mut self.tables[at], low, high, number);
        Ok(())
    }

    /// The newest of the last stores to these bytes of a word, or 0 where there is none.
    pub fn newest(&self, word: usize, low: u32, high: u32) -> u32
        requires within { word < length self.now }
        requires some { low < high }
        requires eight { high ≤ 8 }
        ensures { IsNewest low high (last_at self.now word) result }
    {
        let known = self.words[word];
        if known >= FIRST_TABLE {
            return newest(&self.tables[(known - FIRST_TABLE) as usize], low, high);
        }
        number_in(known, low, high)
    }

    /// The oldest of the last stores to these bytes of a word, or 0 where there is none.
    pub fn oldest(&self, word: usize, low: u32, high: u32) -> u32
        requires within { word < length self.now }
        requires some { low < high }
        requires eight { high ≤ 8 }
        ensures { IsLeastAbove 0 low high (last_at self.now word) result }
    {
        let known = self.words[word];
        if known >= FIRST_TABLE {
            return oldest(&self.tables[(known - FIRST_TABLE) as usize], low, high);
        }
        number_in(known, low, high)
    }

    /// The oldest of the last stores to all bytes of a word, or 0 where there is none.
    #[inline(always)]
    pub fn oldest_of_all(&self, word: usize) -> u32
        requires within { word < length self.now }
        ensures { IsLeastAbove 0 0 8 (last_at self.now word) result }
    {
        let known = self.words[word];
        if known >= FIRST_TABLE {
            return least_above(&self.tables[(known - FIRST_TABLE) as usize], 0, 8, 0);
        }
        number_of(known)
    }
}

// Where the table of the word stands, which is made if it has none.
fn split(words: &mut Vec<u32>, tables: &mut Vec<Table>, word: usize) -> Result<usize, OutOfMemory>
    requires within { word < length words.old.items }
    requires are { AreWords words.old.items tables.old.items }
    ensures are { AreWords words.new.items tables.new.items }
    ensures many { length words.new.items ≡ length words.old.items }
    ensures same { (i k : ℕ) → i < length words.old.items → k < 8 → last_in words.new.items tables.new.items i k ≡ last_in words.old.items tables.old.items i k }
    ensures here { IfOk result (λ at. slice_index words.new.items word ≡ first_table + at) }
{
    let old = words[word];
    if old >= FIRST_TABLE {
        return Ok((old - FIRST_TABLE) as usize);
    }
    let at = tables.len();
    if at >= FIRST_TABLE as usize {
        return Err(AllocError);
    }
    tables.push(table_of(old))?;
    words[word] = FIRST_TABLE + at as u32;
    Ok(at)
}
