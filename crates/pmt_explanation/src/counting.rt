//! How many events of each kind and threads there are.
ghost use Rattle.std.specs.Prelude.{◌≡◌, ◌+◌, ◌^◌, ◌<◌, ◌≤◌, Bool, cond, count_by};
ghost use Rattle.pmt_causes.specs.Late.{is_fence as fences_in, is_flush as flushes_in, is_store as stores_in};
ghost use Rattle.pmt_explanation.specs.Summing.{AreCounts, is_reason_of_fence as drops_fence, per_cent as share_of};

use pmt_model::{Event, Op};
use pmt_reasons::Reason;

// How many events of each kind there are, and how many threads have made one.
#[derive(Clone, Copy)]
pub(crate) struct Counts {
    pub(crate) stores: usize,
    // clwb, clflushopt and clflush
    pub(crate) flushes: usize,
    pub(crate) fences: usize,
    pub(crate) threads: usize,
}

impl Counts {
    // Counts an event with this op, without a branch, since the kind of the next one can't be foreseen.
    fn add(&mut self, op: Op)
        requires { self.old.stores + self.old.flushes + self.old.fences < 2 ^ 63 }
        ensures stores { self.new.stores ≡ self.old.stores + cond (stores_in op) 1 0 }
        ensures flushes { self.new.flushes ≡ self.old.flushes + cond (flushes_in op) 1 0 }
        ensures fences { self.new.fences ≡ self.old.fences + cond (fences_in op) 1 0 }
        ensures one { self.new.stores + self.new.flushes + self.new.fences ≤ self.old.stores + self.old.flushes + self.old.fences + 1 }
    {
        self.stores += is_store(&op) as usize;
        self.flushes += is_flush(&op) as usize;
        self.fences += is_fence(&op) as usize;
    }
}

fn is_store(op: &Op) -> bool
    ensures { result ≡ stores_in op.now }
{
    matches!(op, Op::Store(_))
}

fn is_flush(op: &Op) -> bool
    ensures { result ≡ flushes_in op.now }
{
    matches!(op, Op::Clwb(_) | Op::ClflushOpt(_) | Op::Clflush(_))
}

fn is_fence(op: &Op) -> bool
    ensures { result ≡ fences_in op.now }
{
    matches!(op, Op::Sfence | Op::Mfence)
}

// The counts of these events, in one pass.
pub(crate) fn counts_of(events: &[Event]) -> Counts
    ensures { AreCounts events.now result }
{
    let mut counts = Counts {
        stores: 0,
        flushes: 0,
        fences: 0,
        threads: 0,
    };
    let mut seen = [false; 256];
    for event in events {
        seen[event.thread as usize] = true;
        counts.add(event.op);
    }
    counts.threads = count_seen(&seen);
    counts
}

// How many are true.
fn count_seen(seen: &[bool; 256]) -> usize
    ensures { result ≡ count_by (λ (is_seen : Bool). is_seen) seen.now }
{
    seen.iter().filter(|is_seen| **is_seen).count()
}

// Whether it is a fence that is dropped for this reason.
pub(crate) fn is_reason_of_fence(reason: Reason) -> bool
    ensures { result ≡ drops_fence reason }
{
    match reason {
        Reason::Empty => true,
        Reason::Useless => true,
        Reason::Safe => false,
        Reason::Unfenced => false,
        Reason::Repeated { by: _ } => false,
        Reason::Overtaken { by: _ } => false,
    }
}

/// The whole per cent that the part is of the whole, rounded down; 0 of nothing.
pub fn per_cent(part: u64, whole: u64) -> u64
    ensures { result ≡ share_of part whole }
{
    if whole == 0 {
        return 0;
    }
    part.min(whole).saturating_mul(100) / whole
}
