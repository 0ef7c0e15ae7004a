//! What a picture is about.
use crate::known::KnownTrace;
use pmt_explain::LostGroup;

/// What a picture is about.
#[derive(Clone, Copy)]
pub enum DrawnSubject {
    /// The assertion with this number, which fails.
    Failure(u64),
    /// Stores to one line that are never persisted.
    Lost(LostGroup),
    /// The store with this number, which fences of its own thread leave unsafe.
    Late(u64),
    /// The events around this one; 0 for the first ones.
    Around(u64),
}

impl DrawnSubject {
    /// Whether it is a finding, of which certain events tell.
    pub fn is_finding(self) -> bool {
        !matches!(self, DrawnSubject::Around(_))
    }
}

/// Why nothing is drawn of what is asked for.
#[derive(Clone, Copy)]
pub enum NotDrawn {
    /// The trace ends before the event with this number.
    PastEnd(u64),
    /// The event with this number is no assertion.
    NoAssertion(u64),
    /// The assertion with this number passes.
    Passes(u64),
}

/// Why nothing is drawn, where the subject is not of this trace.
pub fn refusal_of(known: KnownTrace<'_>, subject: DrawnSubject) -> Option<NotDrawn> {
    let number = match subject {
        DrawnSubject::Failure(number) | DrawnSubject::Around(number) => number,
        DrawnSubject::Lost(_) | DrawnSubject::Late(_) => return None,
    };
    if number > known.trace.len() as u64 {
        return Some(NotDrawn::PastEnd(number));
    }
    if let DrawnSubject::Around(_) = subject {
        return None;
    }
    match known.pass(number) {
        None => Some(NotDrawn::NoAssertion(number)),
        Some(true) => Some(NotDrawn::Passes(number)),
        Some(false) => None,
    }
}
