//! The page of `pmtrim explain --html`: its data as JSON texts, and the page laid together of its parts.
//!
//! The definitions stand in `specs/`.
#![tactic(auto)]

pub mod about;
pub mod columns;
mod digits;
mod dropping;
pub mod escapes;
mod events;
pub mod explained;
mod fields;
pub mod known;
pub mod labels;
pub mod laws;
pub mod page;
mod parts;
pub mod sources;
mod template;

pub use crate::about::{About, about_text, digest_of};
pub use crate::columns::{Columns, columns_of};
pub use crate::escapes::{push_embedded, push_html, push_quoted};
pub use crate::explained::explained_text;
pub use crate::known::{EventFindings, Kept, SafePlace};
pub use crate::labels::{Label, labels_text};
pub use crate::page::{PageBlocks, page_text};
pub use crate::sources::{SourceFile, SourcePart, sources_text};
