//! What `pmtrim explain` writes of an explanation as JSON.
//!
//! The definitions stand in `specs/`.
#![tactic(auto)]

mod causes;
mod entries;
mod facts;
mod failures;
mod hints;
mod lacking;
pub mod laws;
mod lines;
mod objects;
mod parts;
mod places;
mod summary;
mod tables;
mod weighed;
mod words;

pub use crate::lacking::Lack;
pub use crate::lines::json_text;
