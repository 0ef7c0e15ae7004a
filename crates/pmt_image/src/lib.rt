//! The pool file that a crash leaves: which stores of a trace are persisted, written over the bytes that the pool had before.
//!
//! The definitions stand in `specs/`.
#![tactic(auto)]

pub mod copying;
pub mod crash;
mod laying;
pub mod listing;
pub mod near;
mod open;
mod persisting;
pub mod pool;
mod spans;
pub mod walk;
pub mod words;

pub use crate::copying::{CopyFault, ImageFault, Stop, check_pool, write_image};
pub use crate::crash::{CountFault, Crash, LineStores, crash_at, crash_of_failure};
pub use crate::listing::{is_turn, push_crash};
pub use crate::near::NearCrashes;
pub use crate::pool::Pool;
pub use crate::walk::Walk;
pub use crate::words::{LineWord, read_line_word};
