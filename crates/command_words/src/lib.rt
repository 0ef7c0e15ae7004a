//! The words of `pmtrim`, by clap: help, and what they ask for.
#![tactic(auto)]

mod arguments;
mod command;
mod described;
mod draw_words;
mod explain_words;
mod image_list_words;
mod image_words;
mod parts_words;
mod plain_commands;
mod request;
mod slice_words;
mod stat_words;

pub use crate::request::request_of;
