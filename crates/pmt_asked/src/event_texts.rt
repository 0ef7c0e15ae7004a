//! Texts of events.
ghost use Rattle.std.specs.Prelude.{◌≡◌, ◌≢◌, ◌+◌, ◌<◌, ◌≤◌, ℕ, true, length, IfOk, OnOk, OnErr, None, Some, [], option_map, slice_get, string_bytes, unwrap_or};
ghost use Rattle.pmt_asked.specs.Texts.{number_at, text_at, told_at};

use pmt_model::OutOfMemory;
use std::alloc::{AllocError, Global};
use std::collections::HashMap;
use std::hash::{BuildHasher, BuildHasherDefault, FoldHasher};
use std::marker::Model;

/// Texts of events, each kept once, and 4 bytes of each event up to the last one that has a text.
#[derive(Drop)]
pub(crate) struct EventTexts {
    // The texts, in the order in which they came.
    texts: Vec<String>,
    // Where a text with this hash stands. Nothing is promised of it.
    places: HashMap<u64, u32>,
    // Of each event from 0 on the number of its text: one more than its place among them; 0 where it has none.
    numbers: Vec<u32>,
}

impl Model for EventTexts {
    ghost use Rattle.std.specs.Prelude.{ℕ, List, Option, string_bytes};
    ghost use Rattle.pmt_asked.specs.Texts.{AreNumbers, all_told};

    ghost Value = { List (Option (List ℕ)) };

    ghost view = { λ t. all_told (λ s. string_bytes s) t.texts.items t.numbers.items };

    ghost invariant = { λ t. AreNumbers t.texts.items t.numbers.items };
}

impl EventTexts {
    // No event has a text.
    pub(crate) fn new(alloc: Global) -> Self
        ensures { result ≡ [] }
    {
        EventTexts {
            texts: Vec::new(alloc),
            places: HashMap::new(alloc),
            numbers: Vec::new(alloc),
        }
    }

    // Whether no event has a text.
    pub(crate) fn is_empty(&self) -> bool
        ensures { result ≡ true → (event : ℕ) → unwrap_or (slice_get self.now event) None ≡ None }
    {
        self.texts.as_slice().is_empty()
    }

    // Gives the event the text, in the place of one that it has.
    pub(crate) fn insert(
        &mut self,
        alloc: Global,
        event: u64,
        text: &str,
    ) -> Result<(), OutOfMemory>
        ensures ok { OnOk result (unwrap_or (slice_get self.new event) None ≡ Some text.now) }
        ensures others { OnOk result ((other : ℕ) → other ≢ event → unwrap_or (slice_get self.new other) None ≡ unwrap_or (slice_get self.old other) None) }
        ensures err { OnErr result ((other : ℕ) → unwrap_or (slice_get self.new other) None ≡ unwrap_or (slice_get self.old other) None) }
    {
        make_room(&mut self.numbers, event)?;
        let number = number_of(alloc, &mut self.texts, &mut self.places, text)?;
        self.numbers[event as usize] = number;
        Ok(())
    }

    // The text of the event.
    pub(crate) fn get(&self, event: u64) -> Option<&String>
        ensures { option_map (λ text. string_bytes text.now) result ≡ unwrap_or (slice_get self.now event) None }
    {
        let number = *self.numbers.get(event as usize)?;
        let place = number.checked_sub(1)?;
        self.texts.get(place as usize)
    }
}

// Makes room for the number of the event.
fn make_room(numbers: &mut Vec<u32>, event: u64) -> Result<(), OutOfMemory>
    ensures room { OnOk result (event < length numbers.new.items) }
    ensures same { (n : ℕ) → number_at numbers.new.items n ≡ number_at numbers.old.items n }
{
    let Some(size) = (event as usize).checked_add(1) else {
        return Err(AllocError);
    };
    if numbers.len() < size {
        numbers.resize(size, 0)?;
    }
    Ok(())
}

// The number of the text, which is put last where it is new.
fn number_of(
    alloc: Global,
    texts: &mut Vec<String>,
    places: &mut HashMap<u64, u32>,
    text: &str,
) -> Result<u32, OutOfMemory>
    ensures told { IfOk result (λ number. told_at (λ s. string_bytes s) texts.new.items number ≡ Some text.now) }
    ensures within { IfOk result (λ number. number ≤ length texts.new.items) }
    ensures more { length texts.old.items ≤ length texts.new.items }
    ensures same { (number : ℕ) → number ≤ length texts.old.items → text_at texts.new.items number ≡ text_at texts.old.items number }
{
    let next = texts.len();
    if next >= u32::MAX as usize {
        return Err(AllocError);
    }
    let hash = BuildHasherDefault::<FoldHasher>::new().hash_one(text);
    let place = *places.entry(hash)?.or_insert(next as u32);
    if is_at(texts.as_slice(), place as usize, text) {
        return Ok(place + 1);
    }
    texts.push(String::from_str(alloc, text)?)?;
    Ok(next as u32 + 1)
}

// Whether the text stands there.
fn is_at(texts: &[String], place: usize, text: &str) -> bool
    ensures { result ≡ true → (place < length texts.now) × (told_at (λ s. string_bytes s) texts.now (place + 1) ≡ Some text.now) }
{
    match texts.get(place) {
        Some(known) => known.as_str() == text,
        None => false,
    }
}
