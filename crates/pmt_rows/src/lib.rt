//! What a sweep knows of each line while the events of a trace go by, by their numbers: a row, who flushed it, the flushes that wait for a
//! fence of their thread, and what a fence makes of them.
//!
//! The definitions stand in `specs/`.
#![tactic(auto)]

mod fencing;
pub mod flusher_laws;
mod flushers;
pub mod link_laws;
mod links;
pub mod open;
pub mod row_laws;
pub mod rows;
pub mod waiting_laws;

pub use crate::fencing::fence;
pub use crate::flushers::Flushers;
pub use crate::links::Links;
pub use crate::open::{OpenFlush, OpenFlushes};
pub use crate::rows::{Row, Rows};
