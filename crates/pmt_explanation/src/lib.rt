//! What `pmtrim explain` tells of a trace, as values.
//!
//! The definitions stand in `specs/`.
#![tactic(auto)]

mod asking;
mod causing;
mod counting;
mod drops;
pub mod explaining;
mod failed;
mod firsts;
mod found;
mod frames;
mod hinting;
mod losing;
mod losses;
mod numbering;
mod overwrites;
mod risks;
pub mod status;
pub mod summing;

pub use crate::causing::first_of;
pub use crate::counting::per_cent;
pub use crate::explaining::{Explanation, explanation_of};
pub use crate::status::status_of;
pub use crate::summing::{Summary, summary_of};
pub use pmt_causes::first;
