//! What a first screen tells: entries by how much they weigh, and the verdict.
//!
//! The definitions stand in `specs/`.
#![tactic(auto)]

mod claimed;
mod contrast;
pub mod entries;
mod hints;
mod left;
pub mod losses;
mod place_sets;
mod scratch;
mod signs;
pub mod sites;
pub mod verdict;
pub mod weight;

pub use crate::entries::{Entries, Entry, Subject, entries_of, is_any_of};
pub use crate::losses::LossKey;
pub use crate::sites::{Site, sites_of};
pub use crate::verdict::Verdict;
pub use crate::weight::{Weight, weight_of_site};
