//! The verdict of an event.
ghost use Rattle.std.specs.Prelude.{◌≡◌, ℕ, Some};
ghost use Rattle.pmt_laws.specs.Prelude.{Event, Recording, event};
ghost use Rattle.pmt_sweep.specs.Known.{IsKnownOf};
ghost use Rattle.pmt_sweep.specs.Judged.{AreOldestOf};
ghost use Rattle.pmt_sweep.specs.Found.{IsVerdictAt};

use crate::known::Known;
use crate::oldest::OldestStores;
use crate::order::is_ordered;
use crate::persist::is_persisted;
use pmt_model::{Op, Verdict};

/// The verdict of the event with this number and op, by what is known after it; none where it is no assertion. What it finds of lines is
/// kept in `oldest`.
pub fn verdict(known: &Known, oldest: &mut OldestStores, number: u64, op: Op) -> Option<Verdict>
    requires { (T : Recording) × IsKnownOf T number known.now }
    ensures tells { (T : Recording) (e : Event) → IsKnownOf T number known.now → AreOldestOf T number oldest.old.found.items → event T number ≡ Some e → e.op ≡ op → IsVerdictAt T number result }
    ensures kept { (T : Recording) → IsKnownOf T number known.now → AreOldestOf T number oldest.old.found.items → AreOldestOf T number oldest.new.found.items }
{
    match op {
        Op::IsPersist(range) => Some(Verdict {
            event: number,
            ordered: false,
            pass: is_persisted(known, range),
        }),
        Op::IsOrderedBefore(first, second) => Some(Verdict {
            event: number,
            ordered: true,
            pass: is_ordered(known, oldest, first, second),
        }),
        Op::Store(_) | Op::Clwb(_) | Op::ClflushOpt(_) | Op::Clflush(_) | Op::Sfence | Op::Mfence =>
            None,
    }
}
