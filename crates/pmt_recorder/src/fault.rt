//! Why a call of a session is refused.
use crate::roll::Roll;
use crate::tape::Tape;
use pmt_book::Book;
use thiserror::Error;

/// Why an event was not appended.
pub type AppendError = pmt_book::BookError;

/// Why no session was started.
#[derive(Clone, Copy, Debug, PartialEq, Eq, Error)]
pub enum StartError {
    #[error("a session has 1 to 256 tapes")]
    BadCount,
    #[error("out of memory")]
    OutOfMemory,
}

/// Why no snapshot was made.
#[derive(Clone, Copy, Debug, PartialEq, Eq, Error)]
pub enum SnapshotError {
    #[error("the tape is not its part of the book")]
    Torn,
    #[error("out of memory")]
    OutOfMemory,
}

/// Why a session was not sealed.
#[derive(Clone, Copy, Debug, PartialEq, Eq, Error)]
pub enum SealKind {
    #[error("the tapes are not one of each number")]
    WrongTapes,
    #[error("tape {recorder} is not its part of the book")]
    Torn {
        /// The lowest number of such a tape.
        recorder: u8,
    },
}

/// A session that was not sealed: why, and what it had.
#[derive(Drop)]
pub struct SealFault<L: Roll> {
    /// Why it was not sealed.
    pub kind: SealKind,
    /// Its book.
    pub book: Book,
    /// The tapes, as they were given.
    pub tapes: Vec<Tape<L>>,
}

/// Why scripts were not recorded.
#[derive(Clone, Copy, Debug, PartialEq, Eq, Error)]
pub enum RecordError {
    #[error("1 to 256 scripts are recorded")]
    BadCount,
    #[error("an op of script {recorder} is not in version 1")]
    NotInFormat {
        /// The number of the recorder, from 0.
        recorder: u8,
    },
    #[error("the book was full, with {events} events, before script {recorder} ended")]
    Full {
        /// The number of the recorder, from 0.
        recorder: u8,
        /// How many events the book had: 1,000,000.
        events: u64,
    },
    #[error("out of memory")]
    OutOfMemory,
    #[error("tape {recorder} is not its part of the book")]
    Torn {
        /// The lowest number of such a tape.
        recorder: u8,
    },
}
