//! The crash that violates a failed assertion.

/// A byte and the last store to it. Events go by their numbers, from 1 (own profile, in the manner of pmemcheck's reports).
#[derive(Clone, Copy)]
pub struct ByteStore {
    /// The store's number.
    pub store: u64,
    /// The byte's address.
    pub byte: u64,
}

/// A crash that violates an assertion. Each line has as many stores persisted as are safe at the place, but the line of the kept
/// store has all of them.
#[derive(Clone, Copy)]
pub struct Failure {
    /// The crash comes right after so many events.
    pub place: u64,
    /// Of an isOrderedBefore, a byte of the second range whose last store, the event at the place, is persisted.
    pub kept: Option<ByteStore>,
    /// A byte of the range, or of the first one, whose last store is not.
    pub lost: ByteStore,
}
