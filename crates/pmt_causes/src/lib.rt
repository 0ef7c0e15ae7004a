//! What `pmtrim explain` tells in groups and tables: failed assertions and what is never persisted by cause, what is dropped and what
//! is saved late by place.
//!
//! The definitions stand in `specs/`.
#![tactic(auto)]

pub mod dropping;
pub mod failing;
pub mod failure_keys;
pub mod grouping;
mod labels;
pub mod late;
mod limit;
pub mod lost;

pub use crate::dropping::{DropWord, DroppedKey, ReasonKind, Spot, dropped_groups};
pub use crate::failing::failure_groups;
pub use crate::failure_keys::{AssertionKind, CauseKind, FailureKey, Origin, origin_of};
pub use crate::grouping::{Group, Keyed, groups};
pub use crate::late::{LateSpot, LateStores, late_stores};
pub use crate::limit::first;
pub use crate::lost::{LostKey, lost_causes};
