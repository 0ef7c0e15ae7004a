//! Which crash violates an assertion, what it leaves, from which place on each store is safe, and why a store is not safe; what comes next
//! after each event, which flushes and fences are dropped, and why each is.
//!
//! The definitions stand in `specs/`, and in those of pmt_reasons.
#![tactic(auto)]

mod ahead;
mod at_end;
mod behind;
mod blocks;
pub mod bytes;
mod causing;
mod completed;
mod crash;
pub mod dropped_event;
pub mod dropping;
mod failing;
mod first_in;
mod last_stores;
pub mod last_writers;
pub mod lines;
mod losing;
mod lost;
pub mod lost_grouping;
mod numbers;
pub mod overwritten_grouping;
mod reasons;
mod saving;
pub mod upcoming;
mod wanted;

pub use crate::bytes::{CrashByte, crash_bytes};
pub use crate::causing::cause;
pub use crate::dropped_event::Dropped;
pub use crate::dropping::dropped_events;
pub use crate::failing::{failure, failure_by, ordered_failure, persist_failure};
pub use crate::last_writers::LastWriters;
pub use crate::lines::{LineCount, crash_lines};
pub use crate::losing::lost_in_range;
pub use crate::lost_grouping::{LostGroup, lost_groups};
pub use crate::numbers::Numbers;
pub use crate::overwritten_grouping::{Overwriting, OverwrittenGroup, overwritten_groups};
pub use crate::saving::{SafePlaces, safe_places};
pub use crate::upcoming::{Upcoming, fences_by, next_flushes, number_of, upcoming_of};
