//! Hints: what a trace has that no rule forbids and that mostly is a slip. Each kind is a set of events with a definition.
//!
//! The definitions stand in `specs/`.
#![tactic(auto)]

pub mod after_mark;
pub mod claims;
pub mod contrast;
mod flushers;
mod going_on;
pub mod hint;
pub mod named;
mod named_bytes;
mod next_stores;
mod numbers;
pub mod open_at;
mod per_thread;
mod places;
pub mod short_runs;
pub mod split_word;
pub mod stored_after;
mod waiting;

pub use crate::after_mark::stored_after_mark;
pub use crate::contrast::{Contrast, contrasts_of};
pub use crate::hint::{Hint, HintKind, hints_of, path_hints_of};
pub use crate::named::claimed_stores;
pub use crate::open_at::{open_at_store, told_on_paths, told_open};
pub use crate::short_runs::one_line_short;
pub use crate::split_word::split_words;
pub use crate::stored_after::stored_after_flush;
