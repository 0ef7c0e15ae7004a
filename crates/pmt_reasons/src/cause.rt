//! Why a store is not safe at a place.

/// Why a store is not safe at a place. Events go by their numbers, from 1 (own profile, in the manner of pmemcheck's reports).
#[derive(Clone, Copy, PartialEq, Eq)]
pub enum Cause {
    /// The store comes after the place.
    Later,
    /// No flush of its line follows it by the place.
    Unflushed,
    /// Its line is flushed, first by event `flush` of `thread`, but no thread that flushed it has fenced since.
    Unfenced {
        flush: u64,
        thread: u8,
        /// The first fence after that flush by the place, which is another thread's.
        other: Option<u64>,
    },
}
