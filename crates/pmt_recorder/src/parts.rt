//! The parts of a session's ledger: each tape holds one, and the session those that are left over.

ghost use Rattle.std.specs.Prelude.{◌≡◌, ℕ, ◌+◌, ◌-◌, ◌<◌, ◌≤◌, length};
ghost use Rattle.pmt_recorder.specs.Strips.{total_length};

use crate::roll::Roll;
use crate::tape::Tape;
use std::marker::PhantomData;
use std::sync::ledger;
use std::sync::ledger::Share;

// The ledger of a session has 256 parts.
#[derive(Drop)]
pub(crate) struct Whole<L: Roll> {
    roll: PhantomData<L>,
    ghost whole: { L.parts ≡ 256 },
}

// The parts that no tape holds. They lie under a lock of their own in the session, since a share may go to another thread and may
// not be shared.
#[derive(Drop)]
pub(crate) struct Rest<L: Roll> {
    share: Share<L>,
    ghost left: { share.parts + L.tapes ≡ 256 },
    ghost none: { share.amount ≡ 0 },
}

impl<L: Roll> Whole<L> {
    // Tells that the ledger has 256 parts.
    pub(crate) fn new() -> Self
        requires { L.parts ≡ 256 }
    {
        Whole { roll: PhantomData }
    }
}

impl<L: Roll> Rest<L> {
    // What is left over, once each tape has its part.
    pub(crate) fn new(share: Share<L>) -> Self
        requires left { share.parts + L.tapes ≡ 256 }
        requires none { share.amount ≡ 0 }
    {
        Rest { share }
    }
}

// The tapes and the parts that were seen have no more than the ledger's total, and just that where they are all parts: so many events
// stand in the tapes. Each tape's part is joined with those before it, and given back.
fn audit_from<L: Roll>(count: &mut ledger::Book<L>, seen: &mut Share<L>, tapes: &mut [Tape<L>])
    requires { seen.old.parts ≡ 0 → seen.old.amount ≡ 0 }
    ensures most { total_length tapes.old + seen.old.amount ≤ count.old.total }
    ensures all { seen.old.parts + length tapes.old ≡ L.parts → total_length tapes.old + seen.old.amount ≡ count.old.total }
    ensures same { count.new.total ≡ count.old.total }
    ensures seen { (seen.new.parts ≡ seen.old.parts) × (seen.new.amount ≡ seen.old.amount) }
    ensures tapes { tapes.new ≡ tapes.old }
{
    match tapes.split_first_mut() {
        None => count.audit(seen),
        Some((tape, others)) => {
            let len = tape.entries.len() as u64;
            tape.share.give(seen, 1, len);
            audit_from(count, seen, others);
            seen.give(&mut tape.share, 1, len);
        }
    }
}

// The tapes have no more entries than the ledger has counted, and just as many where they are as many as the session's.
pub(crate) fn audit<L: Roll>(
    count: &mut ledger::Book<L>,
    whole: &Whole<L>,
    rest: &mut Rest<L>,
    tapes: &mut [Tape<L>],
)
    ensures most { total_length tapes.old ≤ count.old.total }
    ensures all { length tapes.old ≡ L.tapes → total_length tapes.old ≡ count.old.total }
    ensures same { count.new.total ≡ count.old.total }
    ensures tapes { tapes.new ≡ tapes.old }
{
    let _ = &whole.roll;
    audit_from(count, &mut rest.share, tapes);
}
