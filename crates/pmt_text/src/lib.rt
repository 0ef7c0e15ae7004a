//! The texts of traces and of scripts: reading and writing; sources of events, and devices whose failures are counted.
//!
//! The definitions stand in `specs/`: the one spelling of each trace and script, and what any bytes are. The functions of `laws`
//! have an empty body: each is a theorem about the definitions, which its contract states.
#![tactic(auto)]

pub mod counted;
pub mod devices;
pub mod fields;
pub mod header;
pub mod kind;
pub mod laws;
pub mod line;
mod line_name;
pub(crate) mod line_reader;
pub mod line_text;
pub mod list_source;
pub mod number;
mod op_word;
pub(crate) mod piece;
mod plain;
pub mod script_input;
pub mod source;
pub(crate) mod spelled;
pub mod text;
pub(crate) mod text_events;
pub mod text_source;
pub mod word;
pub mod write;
pub mod write_all;

pub use crate::counted::Counted;
pub use crate::kind::{ReadError, SourceError, TextError, TextKind};
pub use crate::line_name::line_address;
pub use crate::list_source::ListSource;
pub use crate::op_word::word_of;
pub use crate::script_input::read_script_from;
pub use crate::source::{EventSource, SourceState};
pub use crate::text::{read_script, read_trace};
pub use crate::text_source::TextSource;
pub use crate::write::{push_event, push_header, write_event, write_trace};
pub use crate::write_all::{WriteFault, write_all_counted};
