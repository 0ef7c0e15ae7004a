//! What any pass over a trace may hold: slots of lines, the lines of a range, of each byte of words the last store to it, marked events.
//!
//! The definitions stand in `specs/`.
#![tactic(auto)]

mod flags;
mod line_slots;
mod packed;
pub mod span_laws;
pub mod spanned;
mod table;
pub mod word_laws;
pub mod words;

pub use crate::flags::{marked_count, marked_numbers};
pub use crate::line_slots::LineSlots;
pub use crate::spanned::Spanned;
pub use crate::words::{Overwrite, Words};
