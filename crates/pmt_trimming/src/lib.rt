//! What is kept of a trace, and the trimmed trace, by one pass forward over the events.
//!
//! The definitions stand in `specs/`; those of useful flushes and fences, of cuts and of crashes are pmt_model's.
#![tactic(auto)]

mod held_lines;
pub mod laws;
mod line_len;
mod line_queue;
mod marks;
mod pass;
pub mod shortest;
mod stream;
pub mod stream_error;
pub mod stream_laws;
pub mod streaming;
pub mod trimming;
pub mod whole_text;

pub use crate::shortest::{all_events, shortest_selection};
pub use crate::stream_error::StreamError;
pub use crate::streaming::trim_stream;
pub use crate::trimming::trim;
pub use crate::whole_text::trimmed_text;
