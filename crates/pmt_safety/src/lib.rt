//! Which stores to a line are surely persisted, by the numbers of events: each function has an empty body, and its contract states a law.
#![tactic(auto)]

pub mod closed;
pub mod marking;
pub mod safety;
