//! Reports of traces, and the runs that read a trace, judge it and write the answer.
//!
//! The definitions stand in `specs/`: the text of each answer, and the line and status of each fault.
#![tactic(auto)]

pub mod check;
mod checked;
mod chunks;
mod entry;
pub mod fault;
mod first_lines;
mod fronts;
pub mod fronts_run;
pub mod listing;
mod output;
pub mod record_fault;
mod report;
mod taking;
mod texts;
pub mod trim;

pub use crate::check::{failed, report_text, run_check};
pub use crate::fault::{RunError, fault_text, run_error};
pub use crate::fronts_run::run_fronts;
pub use crate::record_fault::RecordFault;
pub use crate::trim::run_trim;
