//! What `pmtrim explain` writes of an explanation as a text for people.
#![tactic(auto)]

mod asked_rows;
mod closing;
mod commands;
mod covered;
mod entries;
mod events;
mod in_full;
mod meant;
mod memory;
mod only;
mod screen;
mod small;
mod verdict;
mod volatile;

pub use crate::screen::{source_places, text};
pub use pmt_telling::Screen;
