//! What the entry of an event tells at the end of a trace.
ghost use Rattle.std.specs.Prelude.{◌≡◌};
ghost use Rattle.pmt_sweep.specs.Entries.{entry_of_lost as lost_before, tells_lost as is_lost};

// The entry of a store that is never safe: no flush of its line follows it, or one does. No place of a trace has either number.
const UNFLUSHED: u32 = 0;

pub(crate) const FLUSHED: u32 = u32::MAX;

// Whether it is one of these, and no place.
#[inline(always)]
pub(crate) fn tells_lost(entry: u32) -> bool
    ensures { result ≡ is_lost entry }
{
    entry == UNFLUSHED || entry == FLUSHED
}

// That of a store with this number which is never safe, to a line whose last flush is this one.
#[inline(always)]
pub(crate) fn entry_of_lost(number: u32, last_flush: u32) -> u32
    ensures { result ≡ lost_before number last_flush }
{
    if number < last_flush {
        FLUSHED
    } else {
        UNFLUSHED
    }
}
