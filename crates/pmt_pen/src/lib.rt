//! A text that is being written, which remembers that memory was refused to it: only its end has to be asked.
#![tactic(auto)]

mod pen;

pub use crate::pen::Pen;
