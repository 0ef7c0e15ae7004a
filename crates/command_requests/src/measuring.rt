//! What `stat` is asked for.

/// What `stat` is asked for.
#[derive(Clone, Copy)]
pub struct StatWords<'a> {
    /// The labels file.
    pub labels: Option<&'a str>,
    /// Whether no labels file beside the trace is taken.
    pub no_labels: bool,
    /// The file that is written; none for standard output.
    pub out: Option<&'a str>,
    /// The trace; standard input, if none is given.
    pub file: Option<&'a str>,
}
