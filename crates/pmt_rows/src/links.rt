//! The entries of events, and a walk over those of one line.
ghost use Rattle.std.specs.Prelude.{◌≡◌, ℕ, ◌<◌, List, [], ◌∷◌, ◌++◌, length, slice_index, IfOk, OnOk, OnErr};
ghost use Rattle.pmt_rows.specs.Known.{IsChain, with_place};

use pmt_model::OutOfMemory;
use std::alloc::Global;
use std::marker::Model;

/// Of each event by its number an entry, beside one at 0: 4 bytes an event. What they tell of a trace is `AreLinked`.
#[derive(Drop)]
pub struct Links {
    entries: Vec<u32>,
}

impl Model for Links {
    ghost use Rattle.std.specs.Prelude.{ℕ, List};

    ghost Value = { List ℕ };

    ghost view = { λ links. links.entries.items };
}

impl Links {
    /// Those of no event: the entry at 0 alone.
    ///
    /// # Errors
    /// Where memory was refused.
    pub fn new(alloc: Global) -> Result<Self, OutOfMemory>
        ensures { IfOk result (λ links. links ≡ 0 ∷ []) }
    {
        let mut entries = Vec::new(alloc);
        entries.push(0)?;
        Ok(Links { entries })
    }

    /// How many entries there are: the number of the next event.
    pub fn len(&self) -> usize
        ensures { result ≡ length self.now }
    {
        self.entries.len()
    }

    /// The entry of the next event.
    ///
    /// # Errors
    /// Where memory was refused. All entries stay as they were.
    #[inline(always)]
    pub fn push(&mut self, entry: u32) -> Result<(), OutOfMemory>
        ensures added { OnOk result (self.new ≡ self.old ++ entry ∷ []) }
        ensures same { OnErr result (self.new ≡ self.old) }
    {
        self.entries.push(entry)?;
        Ok(())
    }

    /// The entry of the event with this number.
    #[inline(always)]
    pub fn of(&self, number: u32) -> u32
        requires { number < length self.now }
        ensures { result ≡ slice_index self.now number }
    {
        let at = number as usize;
        self.entries[at]
    }

    /// The last safe store of a line rises from `safe` to `last`: the entries of the stores that it passes become the place. Each store
    /// is passed once, so all raises together take one step a store.
    #[inline(always)]
    pub fn raise(&mut self, last: u32, safe: u32, place: u32)
        requires { (stores : List ℕ) × IsChain self.old safe last stores }
        ensures { (stores : List ℕ) → IsChain self.old safe last stores → self.new ≡ with_place self.old stores place }
    {
        let mut number = last;
        while number > safe {
            let before = self.entries[number as usize];
            self.entries[number as usize] = place;
            number = before;
        }
    }

    /// The entries by number, from that at 0 on.
    pub fn into_entries(self) -> Vec<u32>
        ensures { result.items ≡ self }
    {
        let Links { entries } = self;
        entries
    }
}
