//! The verdict on a trace.

ghost use Rattle.std.specs.Prelude.{◌≡◌};
ghost use Rattle.pmt_entries.specs.Entries.{is_any_failing as is_any_failing_in, is_any_lost as is_any_lost_in, is_any_stored as is_any_stored_in, verdict};

use crate::entries::{Entry, is_any_of};
use crate::weight::Weight;
use pmt_fates::PlaceRow;
use pmt_model::Verdict as Judged;

/// The verdict on a trace: the first that holds.
#[derive(Clone, Copy, PartialEq, Eq)]
pub enum Verdict {
    /// The trace stores nothing.
    Nothing,
    /// An assertion fails.
    Fail,
    /// An entry weighs `Lost`.
    Lost,
    /// An entry weighs `Suspect`.
    Suspect,
    /// An entry weighs `Check`.
    Check,
    /// Some store is never persisted, which may be meant.
    ProbablyOk,
    /// All stores are persisted, and all assertions pass.
    Ok,
    /// All stores are persisted; there are no assertions.
    OkSoFar,
}

// The verdict on a trace with these rows of sites, these verdicts on its assertions, and these entries.
pub(crate) fn verdict_of(places: &[PlaceRow], verdicts: &[Judged], entries: &[Entry]) -> Verdict
    ensures { result ≡ verdict places.now verdicts.now entries.now }
{
    if !is_any_stored(places) {
        Verdict::Nothing
    } else if is_any_failing(verdicts) {
        Verdict::Fail
    } else if is_any_of(entries, Weight::Lost) {
        Verdict::Lost
    } else if is_any_of(entries, Weight::Suspect) {
        Verdict::Suspect
    } else if is_any_of(entries, Weight::Check) {
        Verdict::Check
    } else if is_any_lost(places) {
        Verdict::ProbablyOk
    } else if !verdicts.is_empty() {
        Verdict::Ok
    } else {
        Verdict::OkSoFar
    }
}

// Whether one of these sites stores something.
fn is_any_stored(places: &[PlaceRow]) -> bool
    ensures { result ≡ is_any_stored_in places.now }
{
    places.iter().any(|row| 0 < row.stores)
}

// Whether a store of one of these sites is told as never persisted.
fn is_any_lost(places: &[PlaceRow]) -> bool
    ensures { result ≡ is_any_lost_in places.now }
{
    places.iter().any(|row| 0 < row.lost)
}

// Whether one of the assertions fails.
fn is_any_failing(verdicts: &[Judged]) -> bool
    ensures { result ≡ is_any_failing_in verdicts.now }
{
    verdicts.iter().any(|verdict| !verdict.pass)
}
