//! The verdicts of the assertions of a trace, from the results of the jobs of its lines.
//!
//! The definitions stand in `specs/`.
#![tactic(auto)]

mod answers;
mod build;
mod judge;
mod oldest;
mod part;
mod put;
mod table;
mod tables;

pub use crate::judge::{verdict, verdicts};
pub use crate::tables::Tables;
