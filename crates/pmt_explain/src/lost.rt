//! Which last stores a crash loses.

ghost use Rattle.std.specs.Prelude.{◌≡◌, ◌-◌, ◌≤◌, ◌↔◌, ℕ, length, slice_index, IsTrue, MatchOption};
ghost use Rattle.pmt_laws.specs.Prelude.{Written, Stores, IsAct};
ghost use Rattle.pmt_reasons.specs.Failures.{IsLost};
ghost use Rattle.pmt_explain.specs.Following.{AreSafePlaces, loses as loses_at};

use pmt_model::{Op, Trace, line_of};

// The line of the store with this number.
pub(crate) fn line_of_store(trace: &Trace, store: u64) -> Option<u64>
    ensures { MatchOption result ((l : ℕ) (w : Written) → ¬ IsAct trace.now store (Stores l w)) (λ l. (w : Written) × IsAct trace.now store (Stores l w)) }
{
    let op = trace.get(store)?.op;
    match op {
        Op::Store(written) => Some(line_of(trace.format(), written.addr())),
        _ => None,
    }
}

// Whether the crash at the place, with all stores to the full line, loses this store to the line.
fn loses(safe: &[u64], place: u64, full: Option<u64>, line: u64, store: u64) -> bool
    requires first { 1 ≤ store }
    requires within { store ≤ length safe.now }
    ensures { result ≡ loses_at place full line store (slice_index safe.now (store - 1)) }
{
    if full == Some(line) {
        return place < store;
    }
    place < safe[store as usize - 1]
}

// Whether that crash loses the store.
pub(crate) fn is_lost(
    trace: &Trace,
    safe: &[u64],
    place: u64,
    full: Option<u64>,
    store: u64,
) -> bool
    requires safe { AreSafePlaces trace.now safe.now }
    requires place { place ≤ length trace.now.events }
    ensures { IsTrue result ↔ IsLost trace.now place full store }
{
    match line_of_store(trace, store) {
        None => false,
        Some(line) => loses(safe, place, full, line, store),
    }
}
