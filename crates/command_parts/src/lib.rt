//! The command `parts`: a trace of any length, cut into parts that answer for it.
#![tactic(auto)]

mod carried;
mod ending;
mod files;
mod labels;
mod parts;
mod reading;
mod stale;
mod told;
mod writing;

pub use crate::parts::run_parts;
