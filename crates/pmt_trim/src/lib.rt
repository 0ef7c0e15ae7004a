//! What is kept of a trace, and the trimmed trace: by one pass forward over the events, which is pmt_trimming's, and by the jobs of its lines.
//!
//! The definitions stand in `specs/`; those of useful flushes and fences, of cuts and of crashes are pmt_model's.
#![tactic(auto)]

pub mod join;
pub mod kept;

pub use crate::join::liveness;
pub use crate::kept::line_kept;
pub use pmt_trimming::{
    StreamError, all_events, shortest_selection, trim, trim_stream, trimmed_text,
};
