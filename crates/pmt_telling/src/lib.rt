//! What the texts for people are made of: words, rows and stories, and what is told of each entry.
#![tactic(auto)]

mod contrast;
mod failures;
mod hints;
mod joining;
mod layout;
mod left;
mod loss_story;
mod losses;
mod partners;
mod rows;
mod sites;
mod story;
mod telling;
mod told;
mod words;

pub use crate::contrast::missed_of;
pub use crate::failures::{failure_entry, push_claim, tells_loss};
pub use crate::hints::{hint_entry, push_head};
pub use crate::joining::together;
pub use crate::layout::{push_brief, push_full};
pub use crate::left::{left_entry, left_row, push_left_head};
pub use crate::losses::{late_in, loss_entry, lost_in, push_all, sites_of};
pub use crate::rows::{lines_of, push_line, push_wrapped};
pub use crate::sites::{push_site, push_sites, push_spot, site_frame, spot_of};
pub use crate::story::push_frame_source;
pub use crate::telling::{Bytes, Made, Screen, Telling, has_threads};
pub use crate::told::{Crashes, StoryRow, Told};
pub use crate::words::{pen_of, push_comma, push_lines, push_more, push_text};
