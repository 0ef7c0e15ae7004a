//! Of each line the oldest of the last stores to its bytes, as far as it was asked.
ghost use Rattle.std.specs.Prelude.{◌≡◌, ℕ, ◌+◌, ◌<◌, ◌≤◌, ◌^◌, [], length, max};
ghost use Rattle.pmt_model.specs.Traces.{Recording};
ghost use Rattle.pmt_tables.specs.Lasts.{IsLeastAbove};
ghost use Rattle.pmt_sweep.specs.Judged.{AreOldestOf, IsKeptAt};
ghost use Rattle.pmt_sweep.specs.Known.{IsLineAt, last_in_line};

use crate::known::Known;
use std::alloc::Global;

// The oldest of the last stores to the bytes of a line, as it is while this is the last store to the line; 0 where there is none.
#[derive(Clone, Copy)]
pub(crate) struct OldestStore {
    pub(crate) last_store: u32,
    pub(crate) oldest: u32,
}

const NONE: OldestStore = OldestStore {
    last_store: 0,
    oldest: 0,
};

/// Of lines, by their slots, the oldest of the last stores to all their bytes: found at most once after each store to a line. It takes 8
/// bytes for each line up to the last one of which it was asked.
#[derive(Drop)]
pub struct OldestStores {
    pub(crate) found: Vec<OldestStore>,
}

impl OldestStores {
    /// None is found yet.
    pub fn new(alloc: Global) -> Self
        ensures { result.found.items ≡ [] }
    {
        OldestStores {
            found: Vec::new(alloc),
        }
    }

    // The oldest of the last stores to the bytes of the line at this slot: its number, or 0 where there is none.
    #[inline(always)]
    pub(crate) fn of(&mut self, known: &Known, slot: usize) -> u32
        requires small { slot < 2 ^ 32 }
        requires line { (T : Recording) × (n : ℕ) × (l : ℕ) × IsLineAt T n l slot known.now }
        ensures oldest { (T : Recording) (n l : ℕ) → IsLineAt T n l slot known.now → AreOldestOf T n self.old.found.items → IsLeastAbove 0 0 T.format.line_size (last_in_line T n l) result }
        ensures kept { (T : Recording) (n l : ℕ) → IsLineAt T n l slot known.now → AreOldestOf T n self.old.found.items → AreOldestOf T n self.new.found.items }
    {
        let last_store = known.row(slot).last_store;
        if let Some(found) = self.found.get(slot) {
            if found.last_store == last_store {
                return found.oldest;
            }
        }
        let oldest = known.oldest_of_line(slot);
        self.keep(slot, OldestStore { last_store, oldest });
        oldest
    }

    // Keeps what was found of the line at this slot. Where memory is refused it is found again.
    fn keep(&mut self, slot: usize, found: OldestStore)
        requires { slot < 2 ^ 32 }
        ensures few { length self.new.found.items ≤ max (length self.old.found.items) (slot + 1) }
        ensures each { (p : ℕ) → IsKeptAt slot found self.old.found.items self.new.found.items p }
    {
        if self.found.len() <= slot && self.found.resize(slot + 1, NONE).is_err() {
            return;
        }
        self.found[slot] = found;
    }
}
