//! The command `explain`.
#![tactic(auto)]

mod colors;
mod drawing;
mod explain;
mod first_told;
mod labels;
mod page;
mod page_sources;
mod safe_places;
mod source_lines;
mod sources;
mod taking;
mod told;

pub use crate::drawing::{draw, first_picture};
pub use crate::explain::run_explain;
pub use crate::page::page_of;
