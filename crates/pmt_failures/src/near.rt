//! Bytes that one of the few last events writes.
ghost use Rattle.std.specs.Prelude.{◌≡◌, ◌≤◌, length, true, IsTrue};
ghost use Rattle.pmt_laws.specs.Prelude.{list_any, range_with_len, history};
ghost use Rattle.pmt_explain.specs.LastStores.{written_by};
ghost use Rattle.pmt_failures.specs.Showing.{is_written};

use pmt_model::{Op, Range, Trace};

// How many events are looked at.
const NEAR: usize = 32;

// From how many events on it takes less time to look at a few of them than to note what they write.
const FEW: usize = 64;

/// Whether one of the few last of the first `count` events is seen to write a byte of the range. None is looked at where all but a few
/// of them, `noted`, are noted already.
pub(crate) fn is_written_near(trace: &Trace, noted: usize, count: usize, range: Range) -> bool
    requires { count ≤ length trace.now.events }
    ensures { IsTrue result → list_any (is_written (history trace.now count)) (range_with_len range.addr range.len) ≡ true }
{
    if count.saturating_sub(noted) < FEW {
        return false;
    }
    let events = trace.events();
    for index in (count.saturating_sub(NEAR)..count).rev() {
        let event = events[index];
        if writes_any(event.op, range) {
            return true;
        }
    }
    false
}

// Whether the op writes a byte of the range.
fn writes_any(op: Op, range: Range) -> bool
    ensures { IsTrue result → list_any (written_by op) (range_with_len range.addr range.len) ≡ true }
{
    match op {
        Op::Store(store) => {
            let first = store.addr().get();
            let start = range.addr().get();
            first < start + range.len() && start < first + store.bytes().len() as u64
        }
        Op::Clwb(_)
        | Op::ClflushOpt(_)
        | Op::Clflush(_)
        | Op::Sfence
        | Op::Mfence
        | Op::IsPersist(_)
        | Op::IsOrderedBefore(_, _) => false,
    }
}
