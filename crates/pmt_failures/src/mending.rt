//! What mends a store that is not safe.
ghost use Rattle.std.specs.Prelude.{◌≡◌};
ghost use Rattle.pmt_reasons.specs.Mends.{mend_of};

use pmt_reasons::{Cause, Mend};

/// What mends a store to the line that is not safe before the event for this cause. `last` is the store, or the last of several with
/// the same cause; `same_line` tells whether the event is a store to the same line.
pub fn mend_for(cause: Cause, line: u64, last: u64, before: Option<u64>, same_line: bool) -> Mend
    ensures { result ≡ mend_of cause line last before same_line }
{
    match cause {
        Cause::Later => Mend::StoreFirst {
            store: last,
            before,
            same_line,
        },
        Cause::Unflushed => Mend::FlushAndFence {
            line,
            after: last,
            before,
        },
        Cause::Unfenced {
            flush,
            thread,
            other: _,
        } => Mend::Fence {
            thread,
            after: flush,
            before,
        },
    }
}
