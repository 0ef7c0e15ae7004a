//! What becomes of each place of a program's source: how many of its stores are never persisted, saved late or in time, and how many of
//! its flushes and fences do nothing.
//!
//! The definitions stand in `specs/`.
#![tactic(auto)]

mod costs;
mod counts;
mod fate;
mod fences;
mod figures;
mod marking;
mod paths;
pub mod place_row;
pub mod places;
mod row_places;
mod rows;
pub mod saved_before;
mod standing;
mod tally;

pub use crate::costs::{Cost, PlaceCost, cost_of, sort_places};
pub use crate::counts::Counts;
pub use crate::fences::FenceSizes;
pub use crate::figures::{Figures, ThreadCounts, figures_of};
pub use crate::paths::LEAST_EVENTS;
pub use crate::place_row::PlaceRow;
pub use crate::places::{PlaceTable, place_table};
pub use crate::saved_before::SavedBefore;
pub use crate::standing::{Standing, standing_of};
