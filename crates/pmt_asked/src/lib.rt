//! What comes beside a trace: labels of its events, which findings are asked for, which stores are ignored, and where it was cut.
//!
//! The definitions stand in `specs/`.
#![tactic(auto)]

pub mod choosing;
mod cut;
mod event_texts;
pub mod frames;
pub mod ignoring;
pub mod labels;
pub mod options;

pub use crate::choosing::{Choice, Kind, is_asked, is_asked_for};
pub use crate::cut::Cut;
pub use crate::frames::frame_of;
pub use crate::ignoring::{ByteRange, Ignored, IgnoredPlace, is_at_place, is_ignored, is_left_out};
pub use crate::labels::Labels;
pub use crate::options::Options;
