//! Why a value or an event is refused.
use std::alloc::AllocError;
use thiserror::Error;

/// The one answer where a growth was refused.
pub type OutOfMemory = AllocError;

/// Why an op was refused.
#[derive(Clone, Copy, Debug, PartialEq, Eq, Error)]
pub enum OpError {
    #[error("a store takes 1 to 8 bytes, and a range 1 to 4096")]
    BadLength,
    #[error("an address lies past 48 bits")]
    OutOfRange,
    #[error("a store crosses an aligned word of 8 bytes")]
    CrossesWord,
}

/// Why bytes were not split into stores.
#[derive(Clone, Copy, Debug, PartialEq, Eq, Error)]
pub enum SplitStoreError {
    #[error("a store to be split takes 1 to 4096 bytes")]
    BadLength,
    #[error("an address lies past 48 bits")]
    OutOfRange,
    #[error("out of memory")]
    OutOfMemory,
}

/// Why there is no such format.
#[derive(Clone, Copy, Debug, PartialEq, Eq, Error)]
pub enum FormatError {
    #[error("a line has 32, 64, 128 or 256 bytes")]
    BadLineSize,
}

/// Why an event was not added to a trace.
#[derive(Clone, Copy, Debug, PartialEq, Eq, Error)]
pub enum PushError {
    #[error("the event is not in the format of the trace")]
    NotInFormat,
    #[error("the trace is full")]
    Full,
    #[error("out of memory")]
    OutOfMemory,
}

/// Why a list of numbers is no selection. It hands the list back.
#[derive(Debug, Drop, Error)]
#[error("the number at position {position} is not greater than the one before it")]
pub struct SelectionError {
    /// The first position, from 0, whose number is not greater than the one before it (than 0, at the first).
    pub position: usize,
    /// The list, as it was given.
    pub numbers: Vec<u64>,
}
