//! The crashes near each of some places.
ghost use Rattle.std.specs.Prelude.{◌≡◌, ◌≤◌, ◌++◌, ℕ, min, nat_lt, length, IfOk, OnOk};
ghost use Rattle.pmt_laws.specs.Prelude.{filter, Recording};
ghost use Rattle.pmt_image.specs.Crashes.{AreNear, left_by_all};
ghost use Rattle.pmt_image.specs.Spans.{IsAt, IsWalkOf};

use crate::near::{NearCrashes, near_choices};
use crate::open::open_lines;
use crate::spans::{StoreSpan, store_spans};
use pmt_model::{OutOfMemory, Trace};
use std::alloc::Global;

/// A walk over the places of a trace, for the crashes near each of them.
///
/// It holds 24 bytes for each event, and twice those of the stores that a crash can lose where it is. From place to place it looks at
/// the events between them and at those stores; a step back begins anew.
#[derive(Drop)]
pub struct Walk {
    // the span of each event
    spans: Vec<StoreSpan>,
    // the place where it is
    place: usize,
    // the stores by then that a crash there can lose, in order
    exposed: Vec<StoreSpan>,
}

impl Walk {
    /// A walk over the trace.
    ///
    /// # Errors
    /// Where memory was refused.
    pub fn new(alloc: Global, trace: &Trace) -> Result<Self, OutOfMemory>
        ensures { IfOk result (IsWalkOf trace.now) }
    {
        let spans = store_spans(alloc, trace)?;
        Ok(Walk {
            spans,
            place: 0,
            exposed: Vec::new(alloc),
        })
    }

    /// All crashes after the first `place` events that leave each cache line but at most `most` the stores that no crash can lose, and
    /// all that leave each but at most `most` all its stores so far. A crash may leave each of them, and no two leave the same
    /// numbers. A place past the last event counts as that of the last event.
    ///
    /// All are held at once. Where n lines have s stores each that a crash can lose, there are some (n * s) ^ `most`.
    ///
    /// # Errors
    /// Where memory was refused. What the walk holds then is not told.
    pub fn near_crashes(
        &mut self,
        alloc: Global,
        place: u64,
        most: u64,
    ) -> Result<NearCrashes, OutOfMemory>
        ensures crashes { (T : Recording) → IsWalkOf T self.old → IfOk result (λ crashes. AreNear T place most (left_by_all T place crashes)) }
        ensures walk { (T : Recording) → IsWalkOf T self.old → OnOk result (IsWalkOf T self.new) }
    {
        self.go_to(place)?;
        let lines = open_lines(alloc, self.exposed.as_slice())?;
        let crashes = near_choices(alloc, lines.as_slice(), most)?;
        Ok(crashes)
    }

    // Goes to the place, or to the last one.
    fn go_to(&mut self, place: u64) -> Result<(), OutOfMemory>
        ensures spans { self.new.spans ≡ self.old.spans }
        ensures place { OnOk result (self.new.place ≡ min place (length self.old.spans.items)) }
        ensures there { IsAt self.old → OnOk result (IsAt self.new) }
    {
        let end = place.min(self.spans.len() as u64) as usize;
        self.begin_before(end);
        self.exposed
            .extend_from_slice(&self.spans[self.place..end])?;
        keep_exposed(&mut self.exposed, end as u64);
        self.place = end;
        Ok(())
    }

    // Begins anew, where the place lies before this one.
    fn begin_before(&mut self, place: usize)
        ensures spans { self.new.spans ≡ self.old.spans }
        ensures before { self.new.place ≤ place }
        ensures there { IsAt self.old → IsAt self.new }
    {
        if place < self.place {
            self.exposed.clear();
            self.place = 0;
        }
    }
}

// Keeps the stores that a crash at the place can lose.
fn keep_exposed(stores: &mut Vec<StoreSpan>, place: u64)
    ensures { stores.new.items ≡ filter (λ x. nat_lt place x.safe) stores.old.items }
{
    stores.retain(|store| place < store.safe);
}
