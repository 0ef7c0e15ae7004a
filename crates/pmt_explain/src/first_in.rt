//! The first one of the last stores to bytes of a range that is wanted.

ghost use Rattle.std.specs.Prelude.{◌≡◌, ℕ, ◌+◌, ◌*◌, ◌%◌, ◌^◌, ◌<◌, ◌≤◌, true, length};
ghost use Rattle.pmt_tables.specs.Slots.{IsSlotOf};
ghost use Rattle.pmt_tables.specs.Lasts.{last_at, last_number};
ghost use Rattle.pmt_explain.specs.LastStores.{AreBlocks};
ghost use Rattle.pmt_explain.specs.Writers.{Knows};
ghost use Rattle.pmt_explain.specs.Crashes.{GoesOn, IsBlockIn, IsSearch, IsWordIn, range_of, Anywhere, IsFirstIn, IsWithin, Wants};
ghost use Rattle.pmt_explain.specs.Following.{AreSafePlaces};

use crate::LastWriters;
use crate::wanted::{Wanted, bound_of, comes_after, earlier, is_wanted};
use pmt_model::{Range, Trace};
use pmt_reasons::ByteStore;
use pmt_tables::Words;

/// What is searched for: a wanted store, the last one to one of the bytes from `low` to `high`.
#[derive(Clone, Copy)]
pub(crate) struct Search<'a> {
    pub(crate) trace: &'a Trace,
    pub(crate) safe: &'a [u64],
    pub(crate) wanted: Wanted,
    pub(crate) low: u64,
    pub(crate) high: u64,
    // whether each block lies in one line
    pub(crate) whole: bool,
}

// Of the last stores to bytes of the range the first one that is wanted, with its first byte.
//
// It takes a look-up for each block of 64 bytes. Where its first store comes before the first one so far and its last one is wanted, it
// takes a look at each word, and at each byte of a word that has a store before the first one so far.
pub(crate) fn first_in(
    writers: &LastWriters,
    trace: &Trace,
    safe: &[u64],
    wanted: Wanted,
    range: Range,
) -> Option<ByteStore>
    requires safe { AreSafePlaces trace.now safe.now }
    requires within { IsWithin trace.now wanted }
    requires blocks { AreBlocks writers.now.blocks }
    ensures { (i : ℕ) → Knows trace.now i range writers.now → IsFirstIn trace.now i range (Wants trace.now wanted) Anywhere result }
{
    let low = range.addr().get();
    let high = low + range.len();
    let search = Search {
        trace,
        safe,
        wanted,
        low,
        high,
        whole: trace.format().line_size() >= 64,
    };
    let mut first = None;
    for block in low / 64..(high - 1) / 64 + 1 {
        first = first_with_block(&search, writers, block, first);
    }
    first
}

// The first one so far, with the bytes of this block.
#[inline(always)]
fn first_with_block(
    search: &Search<'_>,
    writers: &LastWriters,
    block: u64,
    first: Option<ByteStore>,
) -> Option<ByteStore>
    requires search { IsSearch search.now }
    requires blocks { AreBlocks writers.now.blocks }
    requires below { block * 64 < search.now.high }
    ensures { (i : ℕ) → Knows search.now.trace.now i (range_of search.now) writers.now → GoesOn search.now i (block * 64) (block * 64 + 64) first result }
{
    match writers.place_of(block) {
        None => first,
        Some(place) => first_at_place(search, writers, block, place, first),
    }
}

// The same, where this is its place.
#[inline(always)]
fn first_at_place(
    search: &Search<'_>,
    writers: &LastWriters,
    block: u64,
    place: usize,
    first: Option<ByteStore>,
) -> Option<ByteStore>
    requires search { IsSearch search.now }
    requires blocks { AreBlocks writers.now.blocks }
    requires below { block * 64 < search.now.high }
    requires small { place < 2 ^ 32 }
    requires place { IsSlotOf block place writers.now.blocks.places }
    ensures { (i : ℕ) → Knows search.now.trace.now i (range_of search.now) writers.now → GoesOn search.now i (block * 64) (block * 64 + 64) first result }
{
    if comes_after(writers.first_store(place), bound_of(first)) {
        return first;
    }
    if is_past(search, writers.last_store(place)) {
        return first;
    }
    first_with_words(search, writers.words(), block, place, first)
}

// Whether the last store to a block that lies in one line is not wanted, so that none is.
fn is_past(search: &Search<'_>, last: u32) -> bool
    requires { IsSearch search.now }
    ensures { result ≡ true → (search.now.whole ≡ true) × ¬ Wants search.now.trace.now search.now.wanted last }
{
    search.whole && !is_wanted(search.trace, search.safe, search.wanted, last as u64)
}

// The same, where its words stand at this place.
#[inline(always)]
fn first_with_words(
    search: &Search<'_>,
    words: &Words,
    block: u64,
    place: usize,
    first: Option<ByteStore>,
) -> Option<ByteStore>
    requires search { IsSearch search.now }
    requires below { block * 64 < search.now.high }
    requires small { place < 2 ^ 32 }
    requires within { place * 8 + 8 ≤ length words.now }
    ensures { (i : ℕ) → IsBlockIn search.now i words.now place block → GoesOn search.now i (block * 64) (block * 64 + 64) first result }
{
    let start = (search.low / 8).max(block * 8);
    let end = ((search.high - 1) / 8 + 1).min(block * 8 + 8);
    let mut earliest = first;
    let mut bound = bound_of(first);
    for word in start..end {
        let index = place * 8 + (word % 8) as usize;
        if comes_after(words.oldest_of_all(index), bound) {
            continue;
        }
        earliest = first_with_part(search, words, word, index, earliest);
        bound = bound_of(earliest);
    }
    earliest
}

// The same of one word, by its bytes that lie in the range.
#[inline(never)]
fn first_with_part(
    search: &Search<'_>,
    words: &Words,
    word: u64,
    index: usize,
    first: Option<ByteStore>,
) -> Option<ByteStore>
    requires search { IsSearch search.now }
    requires from { search.now.low < word * 8 + 8 }
    requires below { word * 8 < search.now.high }
    requires within { index < length words.now }
    ensures { (i : ℕ) → IsWordIn search.now i words.now index word → GoesOn search.now i (word * 8) (word * 8 + 8) first result }
{
    let start = search.low.max(word * 8);
    let end = search.high.min(word * 8 + 8);
    if has_none(
        search,
        words,
        index,
        (start % 8) as u32,
        (end - start) as u32,
    ) {
        return first;
    }
    let mut earliest = first;
    for byte in start..end {
        earliest = first_with_byte(search, words, index, byte, earliest);
    }
    earliest
}

// Whether no store is the last one to these bytes of the word, or one to all that are written, and it is not wanted.
fn has_none(search: &Search<'_>, words: &Words, index: usize, from: u32, many: u32) -> bool
    requires search { IsSearch search.now }
    requires within { index < length words.now }
    requires some { 0 < many }
    requires eight { from + many ≤ 8 }
    ensures { result ≡ true → (k : ℕ) → from ≤ k → k < from + many → 0 < last_at words.now index k → ¬ Wants search.now.trace.now search.now.wanted (last_at words.now index k) }
{
    let oldest = words.oldest(index, from, from + many);
    let newest = words.newest(index, from, from + many);
    oldest == newest && !is_wanted(search.trace, search.safe, search.wanted, oldest as u64)
}

// The first one so far, with this byte.
fn first_with_byte(
    search: &Search<'_>,
    words: &Words,
    index: usize,
    byte: u64,
    first: Option<ByteStore>,
) -> Option<ByteStore>
    requires search { IsSearch search.now }
    requires from { search.now.low ≤ byte }
    requires below { byte < search.now.high }
    requires within { index < length words.now }
    ensures { (i : ℕ) → last_at words.now index (byte % 8) ≡ last_number search.now.trace.now i byte → GoesOn search.now i byte (byte + 1) first result }
{
    let at = (byte % 8) as u32;
    let store = words.newest(index, at, at + 1);
    if store == 0 {
        return first;
    }
    let found = ByteStore {
        store: store as u64,
        byte,
    };
    earlier(search.trace, search.safe, search.wanted, first, found)
}
