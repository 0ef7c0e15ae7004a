//! The parts of a trace of any length, one made from another: what is carried over a place, followed by the events after it.
//!
//! What a part tells of the whole stands in pmt_part_laws. The functions of `laws` have an empty body: each is a theorem about the
//! definitions, which its contract states.
#![tactic(auto)]

mod aside;
mod carrying;
mod later;
pub mod laws;
pub mod part;
mod pieces;
mod reading;
mod run;
mod taker;

pub use crate::aside::set_aside;
pub use crate::part::{Part, number_at, place_in};
pub use crate::pieces::{PieceError, Pieces};
pub use crate::run::give_parts;
pub use crate::taker::{PartError, PartTaker, Refusal, Stop};
