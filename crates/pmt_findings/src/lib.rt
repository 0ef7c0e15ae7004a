//! The findings of a trace in report order, from what its lines and its threads give.
//!
//! The definitions stand in `specs/` and in pmt_model.
#![tactic(auto)]

pub mod merge;

pub use crate::merge::findings;
