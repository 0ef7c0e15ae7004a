//! What is kept of one cache line while the events of a trace go by: how many stores have come, how many are persisted for sure,
//! and what the flushes mark whose fences are still to come.
//!
//! The definitions stand in `specs/`; those of stores, flushes, fences and fronts are pmt_model's.
#![tactic(auto)]

pub mod laws;
pub mod mark;
pub mod state;

pub use crate::mark::Mark;
pub use crate::state::LineState;
