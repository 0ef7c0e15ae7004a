//! A trace taken apart by cache lines: the job of each line, what runs of the jobs give, and the split of a source's events.
//!
//! The definitions stand in `specs/`.
#![tactic(auto)]

pub mod fences;
pub mod job;
mod last_stores;
mod line_findings;
mod open;
pub mod raises;
mod splitter;
pub mod splitting;
pub mod step;
pub mod thread_job;

pub use crate::fences::{ThreadResult, run_fences};
pub use crate::job::LineJob;
pub use crate::raises::{LineResult, run_line};
pub use crate::splitting::{Jobs, split, split_trace};
pub use crate::step::{Step, StepKind};
pub use crate::thread_job::ThreadJob;
