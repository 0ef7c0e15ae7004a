//! What the commands of `pmtrim` read and write: named files, texts, labels and ranges, and the faults that they tell.
#![tactic(auto)]

mod buffering;
mod bytes;
mod cuts;
mod diagnosis;
mod fault;
mod foreign;
mod forms;
mod ignoring;
mod input;
mod inputs;
mod labels;
mod lacking;
mod opener;
mod origin;
mod outputs;
mod ranges;
mod reading;
mod reasons;
mod recalling;
mod refused;
mod shell;
mod source_text;
mod sources;
mod writing;

pub use crate::buffering::counted_reader;
pub use crate::bytes::has_control;
pub use crate::cuts::{cut_of, read_standing, standing_labels};
pub use crate::fault::{Fault, no_failure};
pub use crate::ignoring::{asked_place, read_ignored};
pub use crate::input::{Input, STANDARD_INPUT};
pub use crate::inputs::{labels_of, open_fault, opened, piece_fault, read_file, trace_of};
pub use crate::labels::label_of;
pub use crate::lacking::{Lacked, Lacking, lacking_of};
pub use crate::opener::{OpenError, Opener, SystemFiles};
pub use crate::origin::read_origin;
pub use crate::outputs::{Output, check_apart, remove_all, write_file, write_named, write_outputs};
pub use crate::ranges::range_in;
pub use crate::reading::{reason, system_fault};
pub use crate::reasons::{open_input, reasoned, untaken, untaken_fault, write_output};
pub use crate::recalling::{Memory, Recalling, Recalls, counted, uncounted};
pub use crate::refused::split_line;
pub use crate::shell::shell_word;
pub use crate::source_text::shown_source;
pub use crate::sources::{Places, SourceFolder, SourceText, Wanted};
pub use crate::writing::{Sent, write_answer};
