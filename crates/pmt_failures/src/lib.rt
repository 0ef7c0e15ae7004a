//! Assertions that fail, in full: a crash, what it leaves, and what mends it; and assertions on bytes that no store has written.
//!
//! The definitions stand in `specs/`.
#![tactic(auto)]

pub mod failures;
pub mod mending;
mod near;
pub mod unwritten;
mod written;

pub use crate::failures::{
    RangeAfter, ShownCrash, ShownFailure, failing_events, shown_crash, shown_failures,
};
pub use crate::mending::mend_for;
pub use crate::unwritten::{Unwritten, unwritten_assertions};
