//! Taking the events of a source: all of them as a trace, or block by block.
//!
//! The definitions stand in `specs/`.
#![tactic(auto)]

pub mod taking;

pub use crate::taking::{TakeError, add, take_block, take_trace};
