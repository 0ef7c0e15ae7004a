//! What is asked of an explanation.
use crate::choosing::Choice;
use crate::ignoring::Ignored;

/// What is asked of an explanation.
#[derive(Drop)]
pub struct Options {
    /// The stores that may be lost or overwritten.
    pub ignored: Ignored,
    /// The most entries of each kind that are shown.
    pub limit: usize,
    /// Which findings are told.
    pub choice: Choice,
}
