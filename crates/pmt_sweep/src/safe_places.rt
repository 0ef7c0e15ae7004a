//! From which place on each store of a trace is safe.
ghost use Rattle.std.specs.Prelude.{◌≡◌, ℕ, ◌<◌, length, slice_index};
ghost use Rattle.pmt_laws.specs.Prelude.{Stores, Recording, IsAct, Written};
ghost use Rattle.pmt_sweep.specs.Entries.{AreSafePlaces, IsSafePlace, place_in};

use crate::entry::tells_lost;
use std::marker::Model;

/// Of each store of a trace the place from which it is safe: every run that comes so far has it persisted. 4 bytes an event.
#[derive(Drop)]
pub struct SafePlaces {
    // By the numbers of events, beside one at 0.
    entries: Vec<u32>,
}

impl Model for SafePlaces {
    ghost use Rattle.std.specs.Prelude.{ℕ, List};

    ghost Value = { List ℕ };

    ghost view = { λ safe. safe.entries.items };
}

impl SafePlaces {
    pub(crate) fn new(entries: Vec<u32>) -> Self
        ensures { result ≡ entries.items }
    {
        SafePlaces { entries }
    }

    /// The place from which the store with this number is safe, the moment after so many events; none where some run of the whole trace ends
    /// without the store. Of an event that is no store nothing is told.
    pub fn of(&self, number: u32) -> Option<u32>
        requires { number < length self.now }
        ensures told { result ≡ place_in (slice_index self.now number) }
        ensures safe { (T : Recording) (l : ℕ) (w : Written) → AreSafePlaces T self.now → IsAct T number (Stores l w) → IsSafePlace T l number result }
    {
        let entry = self.entries[number as usize];
        if tells_lost(entry) { None } else { Some(entry) }
    }
}
