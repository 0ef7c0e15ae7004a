//! The analysis of a trace by any number of workers: one answer, whatever their number.
#![tactic(auto)]

pub mod analyse;
mod cut;
mod halves;
mod results;
pub mod shard;
pub mod trimming;

pub use crate::analyse::{AnalyseError, analyse_with};
pub use crate::shard::{LineAnswer, ShardGate, run_shard};
pub use crate::trimming::trimmed;
pub use pmt_analysis::Analysis;
