//! A fence, which decides the flushes that wait for it.
ghost use Rattle.std.specs.Prelude.{◌≡◌, ℕ, suc, ◌<◌, ◌≤◌, List, length, nat_lt, slice_index_or, All};
ghost use Rattle.pmt_model.specs.Traces.{Recording};
ghost use Rattle.pmt_tables.specs.Flags.{MarksThese};
ghost use Rattle.pmt_rows.specs.Waiting.{raise_all, raise_one, waits, AreAtFence, IsAtFence, IsRaisable, raisers, some_raises, waits_all};

use crate::{Links, OpenFlush, Rows};

/// A fence, the event with this number, by the thread whose open flushes these are: whether the last safe store of a line rises. The rows
/// and the entries of stores tell that, and of the flags, one for each event, those of the flushes that raise a line are set. It takes a
/// step for each flush, and one for each store that it makes safe.
pub fn fence(
    rows: &mut Rows,
    links: &mut Links,
    flushes: &[OpenFlush],
    number: u32,
    kept: &mut [bool],
) -> bool
    requires flagged { All (λ f. (1 ≤ f.number) × (f.number ≤ length kept.old)) flushes.now }
    requires known { (T : Recording) × (lines : List ℕ) × (n : ℕ) × (safe : ℕ → ℕ) × AreAtFence T lines n number safe rows.old links.old flushes.now }
    ensures raised { (T : Recording) (lines : List ℕ) (n : ℕ) (safe : ℕ → ℕ) → AreAtFence T lines n number safe rows.old links.old flushes.now → IsAtFence T lines n (raise_all (waits_all lines flushes.now) safe) rows.new links.new }
    ensures tells { (T : Recording) (lines : List ℕ) (n : ℕ) (safe : ℕ → ℕ) → AreAtFence T lines n number safe rows.old links.old flushes.now → result ≡ some_raises (waits_all lines flushes.now) safe }
    ensures flags { (T : Recording) (lines : List ℕ) (n : ℕ) (safe : ℕ → ℕ) → AreAtFence T lines n number safe rows.old links.old flushes.now → MarksThese kept.old (raisers (waits_all lines flushes.now) safe) kept.new }
{
    let mut rises = false;
    for index in (0..flushes.len()).rev() {
        let flush = flushes[index];
        if raise(rows, links, flush, number) {
            kept[flush.number as usize - 1] = true;
            rises = true;
        }
    }
    rises
}

// One of the flushes: whether the last safe store of its line rises to the store that it marks.
#[inline(always)]
fn raise(rows: &mut Rows, links: &mut Links, flush: OpenFlush, number: u32) -> bool
    requires { (T : Recording) × (lines : List ℕ) × (n : ℕ) × (safe : ℕ → ℕ) × IsAtFence T lines n safe rows.old links.old × IsRaisable T lines n flush × (number ≡ suc n) }
    ensures raised { (T : Recording) (lines : List ℕ) (n : ℕ) (safe : ℕ → ℕ) → IsAtFence T lines n safe rows.old links.old → IsRaisable T lines n flush → number ≡ suc n → IsAtFence T lines n (raise_one (waits lines flush) safe) rows.new links.new }
    ensures tells { (T : Recording) (lines : List ℕ) (n : ℕ) (safe : ℕ → ℕ) → IsAtFence T lines n safe rows.old links.old → IsRaisable T lines n flush → result ≡ nat_lt (safe (slice_index_or lines flush.slot 0)) flush.store }
{
    let safe = rows.raise(flush.slot as usize, flush.store);
    if flush.store <= safe {
        return false;
    }
    links.raise(flush.store, safe, number);
    true
}
