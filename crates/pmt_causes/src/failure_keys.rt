//! What failed assertions of one group have in common.

ghost use Rattle.std.specs.Prelude.{◌≡◌};
ghost use Rattle.pmt_causes.specs.Groups.{cause_by, key_by, origin_of as origin_in};

use crate::labels::label_of;
use pmt_explain::number_of;
use pmt_reasons::Failure;

/// Whence an event comes.
#[derive(Clone, Copy, PartialEq, Eq, Hash)]
pub enum Origin {
    /// From the place in the program with this label, by the number that the caller gave it.
    Label(u64),
    /// From this thread, where no label is known.
    Thread(u8),
}

/// The kind of an assertion.
#[derive(Clone, Copy, PartialEq, Eq, Hash)]
pub enum AssertionKind {
    /// isPersist.
    Persist,
    /// isOrderedBefore.
    Ordered,
}

/// The kind of a cause.
#[derive(Clone, Copy, PartialEq, Eq, Hash)]
pub enum CauseKind {
    /// The store comes after the place.
    Later,
    /// No flush of its line follows it by the place.
    Unflushed,
    /// Its line is flushed, but no thread that flushed it has fenced since.
    Unfenced,
}

/// What failed assertions of one group have in common.
#[derive(Clone, Copy, PartialEq, Eq, Hash)]
pub struct FailureKey {
    /// The kind of the assertions.
    pub kind: AssertionKind,
    /// The kind of the cause for which the told crash loses the store.
    pub cause: CauseKind,
    /// Whence the assertions come.
    pub origin: Origin,
}

// The key of the assertion with this number by the thread, of this kind, where the crash violates it. Of each store `flushes` has the
// number of the next flush of its line.
pub(crate) fn key_of(
    labels: &[Option<u64>],
    flushes: &[u64],
    number: u64,
    thread: u8,
    kind: AssertionKind,
    failure: &Failure,
) -> FailureKey
    ensures { result ≡ key_by labels.now flushes.now number thread kind failure.now }
{
    let store = failure.lost.store;
    let flush = number_of(flushes, store);
    FailureKey {
        kind,
        cause: cause_kind(failure.place, store, flush),
        origin: origin_of(labels, number, thread),
    }
}

// The kind of the cause for which the store is not safe at the place, where this is the next flush of its line.
fn cause_kind(place: u64, store: u64, flush: u64) -> CauseKind
    ensures { result ≡ cause_by place store flush }
{
    if place < store {
        CauseKind::Later
    } else if place < flush {
        CauseKind::Unflushed
    } else {
        CauseKind::Unfenced
    }
}

/// Whence an event of the thread comes: from the place with its label, or from its thread where it has none.
pub fn origin_of(labels: &[Option<u64>], event: u64, thread: u8) -> Origin
    ensures { result ≡ origin_in labels.now event thread }
{
    match label_of(labels, event) {
        Some(label) => Origin::Label(label),
        None => Origin::Thread(thread),
    }
}
