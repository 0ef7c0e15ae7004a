//! The command `image`: the pool as a crash leaves it, and lists of crashes.
#![tactic(auto)]

mod image;
mod image_list;
mod slice;

pub use crate::image::run_image;
pub use crate::image_list::run_list;
pub use crate::slice::run_slice;
