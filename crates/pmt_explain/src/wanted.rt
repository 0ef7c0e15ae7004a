//! Which of the last stores to bytes are wanted, and which of two comes first.

ghost use Rattle.std.specs.Prelude.{◌≡◌, ◌==◌, ◌||◌, ◌<◌, ◌^◌, ◌↔◌, IsTrue, nat_lt};
ghost use Rattle.pmt_explain.specs.Crashes.{comes_before, store_bound, Picks, IsWithin, Wants};
ghost use Rattle.pmt_explain.specs.Following.{AreSafePlaces};

use crate::lost::{is_lost, line_of_store};
use pmt_model::Trace;
use pmt_reasons::ByteStore;

/// Which stores are wanted.
#[derive(Clone, Copy)]
pub(crate) enum Wanted {
    /// Those that the crash at the place loses, with all stores to the full line.
    Lost { place: u64, full: Option<u64> },
    /// Those to another line than this one.
    Off { line: Option<u64> },
}

// Whether the store is wanted.
#[inline(always)]
pub(crate) fn is_wanted(trace: &Trace, safe: &[u64], wanted: Wanted, store: u64) -> bool
    requires safe { AreSafePlaces trace.now safe.now }
    requires within { IsWithin trace.now wanted }
    ensures { IsTrue result ↔ Wants trace.now wanted store }
{
    match wanted {
        Wanted::Lost { place, full } => is_lost(trace, safe, place, full, store),
        Wanted::Off { line } => match line_of_store(trace, store) {
            None => false,
            Some(own) => line != Some(own),
        },
    }
}

// Whether the byte of a store comes before the first one so far.
fn comes_first(found: ByteStore, first: Option<ByteStore>) -> bool
    ensures { result ≡ comes_before found first }
{
    match first {
        None => true,
        Some(other) => {
            found.store < other.store || (found.store == other.store && found.byte < other.byte)
        }
    }
}

// The store of the first one so far, or the greatest number where there is none.
#[inline(always)]
pub(crate) fn bound_of(first: Option<ByteStore>) -> u64
    ensures { result ≡ store_bound first }
{
    match first {
        None => u64::MAX,
        Some(found) => found.store,
    }
}

// Whether there is no store, which is 0, or it comes after this one.
#[inline(always)]
pub(crate) fn comes_after(store: u32, bound: u64) -> bool
    ensures after { result ≡ ((store == 0) || nat_lt bound store) }
    ensures small { store < 2 ^ 32 }
{
    store == 0 || bound < store as u64
}

// The first wanted one so far, with one more to be judged.
pub(crate) fn earlier(
    trace: &Trace,
    safe: &[u64],
    wanted: Wanted,
    first: Option<ByteStore>,
    found: ByteStore,
) -> Option<ByteStore>
    requires safe { AreSafePlaces trace.now safe.now }
    requires within { IsWithin trace.now wanted }
    ensures { Picks (Wants trace.now wanted found.store) first found result }
{
    if comes_first(found, first) && is_wanted(trace, safe, wanted, found.store) {
        return Some(found);
    }
    first
}
