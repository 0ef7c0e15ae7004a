//! Of each thread, where the lines stand that it has flushed since its last fence.
ghost use Rattle.std.specs.Prelude.{◌≡◌, ℕ, [], length, slice_set, IfOk, OnOk};
ghost use Rattle.pmt_lines.specs.Jobs.{places_of, with_place};

use pmt_model::OutOfMemory;
use std::alloc::Global;
use std::marker::Model;

// Of each thread the places of the lines that it has flushed since its last fence. A place may stand there more than once.
#[derive(Debug, Drop)]
pub(crate) struct OpenFlushes {
    places: Vec<Vec<usize>>,
}

impl Model for OpenFlushes {
    ghost use Rattle.std.specs.Prelude.{◌≡◌, ℕ, List, length, map};

    ghost Value = { List (List ℕ) };

    ghost view = { λ o. map (λ v. v.items) o.places.items };

    ghost invariant = { λ o. length o.places.items ≡ 256 };
}

impl OpenFlushes {
    // None yet, of all 256 threads.
    pub(crate) fn new(alloc: Global) -> Result<Self, OutOfMemory>
        ensures threads { IfOk result (λ o. length o ≡ 256) }
        ensures empty { IfOk result (λ o. (t : ℕ) → places_of t o ≡ []) }
    {
        let mut places = Vec::new(alloc);
        for _thread in 0..256usize {
            places.push(Vec::new(alloc))?;
        }
        Ok(OpenFlushes { places })
    }

    // The places of the thread.
    pub(crate) fn of(&self, thread: u8) -> &[usize]
        ensures { result.now ≡ places_of thread self.now }
    {
        self.places[thread as usize].as_slice()
    }

    // Adds a place to those of the thread.
    pub(crate) fn add(&mut self, thread: u8, place: usize) -> Result<(), OutOfMemory>
        ensures { OnOk result (self.new ≡ with_place thread place self.old) }
    {
        self.places[thread as usize].push(place)?;
        Ok(())
    }

    // Forgets the places of the thread.
    pub(crate) fn clear(&mut self, thread: u8)
        ensures { self.new ≡ slice_set self.old thread [] }
    {
        self.places[thread as usize].clear();
    }
}
