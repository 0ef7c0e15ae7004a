//! Where the rows of places stand.

ghost use Rattle.std.specs.Prelude.{◌≡◌, ◌==◌, ℕ, nat_eq, replicate, if◌then◌else◌, unwrap_or, IfOk, OnOk};
ghost use Rattle.std.specs.HashMap.{get};
ghost use Rattle.pmt_causes.specs.declared.failure_keys.Origin.{Origin};
ghost use Rattle.pmt_fates.specs.Places.{label_number as label_number_in, place_number, row_place, same_place};

use pmt_causes::Origin;
use pmt_model::OutOfMemory;
use std::alloc::Global;
use std::collections::HashMap;

/// Where the rows of some places stand: one more than the index, and 0 of a place without row.
#[derive(Drop)]
pub(crate) struct RowPlaces {
    // Of each thread.
    pub(crate) threads: [usize; 256],
    // Of each label up to a number.
    pub(crate) labels: Vec<usize>,
    // Of the labels past that.
    pub(crate) rest: HashMap<u64, usize>,
}

impl RowPlaces {
    // No place yet, where events have these labels. Those that are numbers of these events are looked up by an index.
    pub(crate) fn new(alloc: Global, labels: &[Option<u64>]) -> Result<Self, OutOfMemory>
        ensures { IfOk result (λ places. (p : Origin) → place_number places p ≡ 0) }
    {
        let numbers = vec![in alloc; 0usize; labels.len().saturating_add(1)]?;
        Ok(no_places(alloc, numbers))
    }

    // Where the row of the place stands.
    #[inline(always)]
    pub(crate) fn get(&self, place: Origin) -> Option<usize>
        ensures { result ≡ row_place self.now place }
    {
        self.number(place).checked_sub(1)
    }

    // One more than that, or 0.
    #[inline(always)]
    fn number(&self, place: Origin) -> usize
        ensures { result ≡ place_number self.now place }
    {
        match place {
            Origin::Label(label) => self.label_number(label),
            Origin::Thread(thread) => self.threads[thread as usize],
        }
    }

    // The same of a label.
    #[inline(always)]
    fn label_number(&self, label: u64) -> usize
        ensures { result ≡ label_number_in self.now label }
    {
        match self.labels.get(label as usize) {
            Some(number) => *number,
            None => self.rest.get(&label).copied().unwrap_or(0),
        }
    }

    // Sets this number of the place.
    pub(crate) fn set(&mut self, place: Origin, number: usize) -> Result<(), OutOfMemory>
        ensures { OnOk result ((q : Origin) → place_number self.new q ≡ (if same_place place q then number else place_number self.old q)) }
    {
        match place {
            Origin::Label(label) => self.set_label(label, number),
            Origin::Thread(thread) => {
                self.threads[thread as usize] = number;
                Ok(())
            }
        }
    }

    // The same of a label.
    fn set_label(&mut self, label: u64, number: usize) -> Result<(), OutOfMemory>
        ensures threads { OnOk result (self.new.threads ≡ self.old.threads) }
        ensures labels { OnOk result ((l : ℕ) → label_number_in self.new l ≡ (if label == l then number else label_number_in self.old l)) }
    {
        if label < self.labels.len() as u64 {
            self.labels[label as usize] = number;
            return Ok(());
        }
        self.rest.insert(label, number)?;
        Ok(())
    }
}

// No place, where none of these labels is one.
fn no_places(alloc: Global, labels: Vec<usize>) -> RowPlaces
    ensures threads { result.threads ≡ replicate 256 0 }
    ensures labels { result.labels.items ≡ labels.items }
    ensures rest { (l : ℕ) → unwrap_or (get nat_eq result.rest l) 0 ≡ 0 }
{
    RowPlaces {
        threads: [0; 256],
        labels,
        rest: HashMap::new(alloc),
    }
}
