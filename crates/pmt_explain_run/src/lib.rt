//! The run that explains the trace of a source.
//!
//! The definitions stand in `specs/`.
#![tactic(auto)]

pub mod explaining;
mod places;
pub mod sweeping;

pub use crate::explaining::{explain, explained};
pub use crate::sweeping::{SweptTrace, swept_trace};
