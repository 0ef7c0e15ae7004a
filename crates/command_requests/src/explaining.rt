//! What `explain` is asked for.

use pmt_asked::{Choice, Ignored, Kind, Options};
use std::alloc::Global;

/// In which form `explain` tells.
#[derive(Clone, Copy)]
pub enum Form {
    /// A text for people.
    Text,
    /// A JSON object a line.
    Json,
    /// A page of HTML.
    Page,
}

/// Whether the text for people has colors.
#[derive(Clone, Copy)]
pub enum Color {
    /// If a terminal shows it.
    Auto,
    Always,
    Never,
}

/// What `explain` is asked for.
#[derive(Drop)]
pub struct ExplainWords<'a> {
    /// The stores that may be lost, the most entries of a kind that are shown, and which findings are told.
    pub options: Options,
    /// The files that name more stores that may be lost.
    pub ignore_files: Vec<&'a str>,
    /// Whether the words say how many entries are shown; the text has the lines of a screen where they don't.
    pub is_limited: bool,
    /// The one failed assertion that is asked for, by its event.
    pub failure: Option<u64>,
    /// The labels file.
    pub labels: Option<&'a str>,
    /// Whether no labels file beside the trace is taken.
    pub no_labels: bool,
    /// Whether the status is 1 also for what may be meant.
    pub is_strict: bool,
    /// What is written.
    pub form: Form,
    /// Whether the text for people has colors.
    pub color: Color,
    /// The file that is written; none for standard output.
    pub out: Option<&'a str>,
    /// The folder of the source files whose lines the text or the page shows.
    pub source: Option<&'a str>,
    /// The most entries of a kind that a page has.
    pub page_limit: usize,
    /// The trace; standard input, if none is given.
    pub file: Option<&'a str>,
}

/// What is asked of an explanation where all findings of this kind matter, or of all kinds, and no entry is shown.
pub fn options_for(alloc: Global, only: Option<Kind>) -> Options {
    let mut choice = Choice::all();
    choice.only = only;
    Options {
        ignored: Ignored::new(alloc),
        limit: 0,
        choice,
    }
}
