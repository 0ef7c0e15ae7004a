//! A picture of what is safe when, as one SVG.
//!
//! Where things stand on the page is tested.
#![tactic(auto)]

mod head;
mod header;
mod labels;
mod layout;
mod legend;
mod marks;
mod missing;
mod page;
mod rows;
mod segments;
mod shapes;
mod style;
mod svg;
mod threads;
mod veil;
mod words;

pub use crate::svg::svg_text;
