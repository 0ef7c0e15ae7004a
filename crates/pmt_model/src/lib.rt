//! Events of persistent memory, their traces, and what a crash may leave of them.
//!
//! The definitions stand in `specs/`; the theorems about them are the crate pmt_laws.
#![tactic(auto)]

pub mod addr;
pub mod event;
pub mod fault;
pub mod finding;
pub mod format;
pub mod gate;
pub mod range;
pub mod selection;
pub mod split;
pub mod store;
pub mod trace;

pub use crate::addr::Addr;
pub use crate::event::{Event, Op};
pub use crate::fault::{
    FormatError, OpError, OutOfMemory, PushError, SelectionError, SplitStoreError,
};
pub use crate::finding::{Finding, Verdict};
pub use crate::format::{Format, line_of};
pub use crate::gate::{Gate, NoGate};
pub use crate::range::Range;
pub use crate::selection::Selection;
pub use crate::split::split_store;
pub use crate::store::{Payload, WordStore};
pub use crate::trace::Trace;
