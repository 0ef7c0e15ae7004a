//! A trace under way, with the fronts of its lines kept live.
//!
//! The definitions stand in `specs/`; those of traces, fronts and assertions are pmt_model's.
#![tactic(auto)]

pub mod book;
mod copying;
pub mod fault;
pub mod laws;
pub mod live;
mod touching;

pub use crate::book::Book;
pub use crate::fault::BookError;
pub use crate::live::LiveLines;
