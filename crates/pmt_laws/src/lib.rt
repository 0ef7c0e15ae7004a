//! Laws of the definitions in pmt_model: each function has an empty body, and its contract states a theorem.
#![tactic(auto)]

pub mod analyses;
pub mod findings;
pub mod fronts;
pub mod keeping;
pub mod needed;
pub mod passing;
pub mod shortest;
pub mod verdicts;
pub mod worked;
