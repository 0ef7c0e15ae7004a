//! Events that are chosen, by a flag each.

ghost use Rattle.std.specs.Prelude.{◌≡◌, ℕ, ◌+◌, ◌<◌, ◌≤◌, ◌⊎◌, ◌↔◌, length, IfOk};
ghost use Rattle.pmt_slices.specs.Slices.{IsChosen, Chooses, IsOfStore};

use crate::coming::Coming;
use pmt_model::OutOfMemory;
use std::alloc::Global;

// A flag for each of the first events, the last one being the only one that is chosen.
pub(crate) fn only(alloc: Global, number: u64) -> Result<Vec<bool>, OutOfMemory>
    requires { 1 ≤ number }
    ensures size { IfOk result (λ chosen. length chosen.items ≡ number) }
    ensures just { IfOk result (λ chosen. (k : ℕ) → IsChosen chosen.items k ↔ (k ≡ number)) }
{
    let mut chosen = vec![in alloc; false; number as usize]?;
    choose(chosen.as_mut_slice(), number);
    Ok(chosen)
}

// A flag for each of the first events, none of which is chosen.
pub(crate) fn nothing(alloc: Global, count: usize) -> Result<Vec<bool>, OutOfMemory>
    ensures size { IfOk result (λ chosen. length chosen.items ≡ count) }
    ensures none { IfOk result (λ chosen. (k : ℕ) → IsChosen chosen.items k → ⊥) }
{
    Ok(vec![in alloc; false; count]?)
}

// Chooses the event with this number, if it has a flag.
pub(crate) fn choose(chosen: &mut [bool], number: u64)
    ensures size { length chosen.new ≡ length chosen.old }
    ensures stays { (k : ℕ) → IsChosen chosen.old k → IsChosen chosen.new k }
    ensures own { 1 ≤ number → number ≤ length chosen.old → IsChosen chosen.new number }
    ensures just { (k : ℕ) → IsChosen chosen.new k → IsChosen chosen.old k ⊎ (k ≡ number) }
{
    if number == 0 {
        return;
    }
    let place = number as usize - 1;
    if place < chosen.len() {
        chosen[place] = true;
    }
}

// Chooses the store with this number, and what tells of it, where this comes after it.
pub(crate) fn choose_store(chosen: &mut [bool], number: u64, coming: Coming)
    ensures { Chooses (IsOfStore number coming (length chosen.old)) chosen.old chosen.new }
{
    choose(chosen, number);
    choose(chosen, coming.flush);
    if coming.safe <= chosen.len() as u64 {
        choose(chosen, coming.safe);
        choose(chosen, coming.cover);
    }
    if coming.fence <= coming.safe && coming.flush <= chosen.len() as u64 {
        choose(chosen, coming.fence);
    }
}
