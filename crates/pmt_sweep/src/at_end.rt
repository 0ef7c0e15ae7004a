//! The end of a trace.
ghost use Rattle.std.specs.Prelude.{◌≡◌, length, IfOk};
ghost use Rattle.pmt_model.specs.Traces.{Recording, history, lines_of};
ghost use Rattle.pmt_sweep.specs.Known.{IsKnownOf};
ghost use Rattle.pmt_sweep.specs.Found.{AreKnownLate};
ghost use Rattle.pmt_sweep.specs.Entries.{AreSafePlaces};

use crate::ends::Ends;
use crate::known::Known;
use crate::lost::lost_stores;
use crate::marking::mark_lost;
use crate::noted::Noted;
use crate::safe_places::SafePlaces;
use pmt_model::OutOfMemory;
use std::alloc::Global;

/// What is known of a trace once it has ended.
#[derive(Drop)]
pub struct Ended {
    /// How many lines are stored or flushed.
    pub lines: usize,
    /// The stores that are never persisted, in report order.
    pub lost: Vec<Noted>,
    /// From which place on each other store is safe.
    pub safe: SafePlaces,
}

impl Ended {
    /// The end of a trace of which this is known after its last event. It takes a step for each line, and for each event from
    /// the first store on that is never persisted, and no memory but that of the findings.
    ///
    /// # Errors
    /// Where memory was refused.
    pub fn of(alloc: Global, known: Known) -> Result<Self, OutOfMemory>
        requires { (T : Recording) × IsKnownOf T (length T.events) known }
        ensures lines { IfOk result (λ end. (T : Recording) → IsKnownOf T (length T.events) known → end.lines ≡ length (lines_of (history T (length T.events)))) }
        ensures lost { IfOk result (λ end. (T : Recording) → IsKnownOf T (length T.events) known → AreKnownLate T end.lost.items) }
        ensures safe { IfOk result (λ end. (T : Recording) → IsKnownOf T (length T.events) known → AreSafePlaces T end.safe) }
    {
        let Ends { rows, mut entries } = known.into_ends();
        let before = mark_lost(&rows, entries.as_mut_slice());
        let lost = lost_stores(alloc, entries.as_slice(), before)?;
        Ok(Ended {
            lines: rows.len(),
            lost,
            safe: SafePlaces::new(entries),
        })
    }
}
