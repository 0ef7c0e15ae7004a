//! Why an event was not added to a book.
use thiserror::Error;

/// Why an event was not added to a book.
#[derive(Clone, Copy, Debug, PartialEq, Eq, Error)]
pub enum BookError {
    #[error("the event is not in the format of the book")]
    NotInFormat,
    #[error("the book is full, with {events} events")]
    Full {
        /// How many events it has: 1,000,000.
        events: u64,
    },
    #[error("out of memory")]
    OutOfMemory,
}
