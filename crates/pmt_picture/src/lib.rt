//! What a picture shows of what is safe when, as values: what it is about, which events tell of that, and what these do to the stores of
//! their lines.
//!
//! What is told of a trace is given by the caller, or comes from calls of pmt_explain and pmt_slices. That the columns are events of the
//! trace is proved, by the definitions in `specs/`.
#![tactic(auto)]

pub mod about;
mod asserted;
pub mod bars;
pub mod crash;
pub mod known;
pub mod missing;
mod ops;
pub mod picture;
pub mod subject;
pub mod told;

pub use crate::about::{PictureContent, about_of};
pub use crate::asserted::{Asserted, AssertedRole};
pub use crate::bars::{Bar, DrawnRow, Flush, Saver};
pub use crate::crash::{Assertion, DrawnCrash};
pub use crate::known::KnownTrace;
pub use crate::missing::{Missing, MissingKind};
pub use crate::ops::{line_of_op, waits_for_fence};
pub use crate::picture::{Column, Picture, picture_of};
pub use crate::subject::{DrawnSubject, NotDrawn, refusal_of};
pub use crate::told::DrawnEvents;
