//! A dropped event.

use pmt_reasons::Reason;

/// A dropped event and why it is. Events go by their numbers, from 1 (own profile, in the manner of pmemcheck's reports).
#[derive(Clone, Copy)]
pub struct Dropped {
    /// The event's number.
    pub event: u64,
    /// Why it is dropped.
    pub reason: Reason,
}
