//! What a part of a long trace tells of the whole: each function has an empty body, and its contract states a law.
#![tactic(auto)]

pub mod findings;
pub mod fronts;
pub mod keeping;
pub mod verdicts;
