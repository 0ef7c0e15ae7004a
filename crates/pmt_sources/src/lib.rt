//! Lines of source files: which one the label of an event names, and how a terminal shows it.
//!
//! The definitions stand in `specs/`.
#![tactic(auto)]

mod found;
mod lines;
mod place;
mod showing;
mod under;

pub use crate::found::{SourceLine, Sources, found_line};
pub use crate::lines::line_in;
pub use crate::place::{SourcePlace, place_of};
pub use crate::showing::visible;
pub use crate::under::{place_at, place_under};
