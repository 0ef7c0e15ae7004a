//! The command `stat`: figures of a trace.
#![tactic(auto)]

mod measured;
mod stat;
mod text;

pub use crate::stat::run_stat;
