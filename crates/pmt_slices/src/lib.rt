//! The slice of an assertion: the few events of a trace by which it has its verdict, and its stores their causes.
//!
//! The definitions stand in `specs/`.
#![tactic(auto)]

mod after;
mod choosing;
mod coming;
pub mod cutting;
pub mod laws;
mod scan;
pub mod slicing;
pub mod store_slicing;
pub mod store_story;
pub mod story;
mod unwritten;

pub use crate::cutting::{Slice, sliced};
pub use crate::slicing::slice_of;
pub use crate::store_slicing::store_sliced;
pub use crate::store_story::{StorePart, StoreStory, store_story_of};
pub use crate::story::{Story, StoryPart, story_of};
