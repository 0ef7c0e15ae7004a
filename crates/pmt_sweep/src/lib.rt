//! One pass forward over the events of a trace, which it does not keep: findings, verdicts, what is kept, and from which place on each
//! store is safe.
//!
//! The definitions stand in `specs/` and in pmt_model.
#![tactic(auto)]

mod adding;
mod at_end;
mod ends;
mod entry;
mod first_flush;
mod flushed;
mod joining;
pub mod judged;
mod judging;
mod known;
mod latest;
mod line_order;
mod line_words;
mod lost;
mod marking;
mod noted;
mod oldest;
mod order;
mod persist;
mod placed;
mod reading;
mod safe_places;
mod sweeping;

pub use crate::noted::{Noted, all_noted, all_told};
pub use crate::safe_places::SafePlaces;
pub use crate::sweeping::{Sweeper, Swept, sweep};
