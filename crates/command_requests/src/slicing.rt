//! What `slice` is asked for.

/// Of what the slice is, by its event.
#[derive(Clone, Copy)]
pub enum SliceSubject {
    /// An assertion that fails.
    Failure(u64),
    /// A store that is never persisted, or late.
    Store(u64),
}

/// What `slice` is asked for.
#[derive(Clone, Copy)]
pub struct SliceWords<'a> {
    /// Of what the slice is.
    pub subject: SliceSubject,
    /// The labels file; it stands with `out`.
    pub labels: Option<&'a str>,
    /// Whether no labels file beside the trace is taken.
    pub no_labels: bool,
    /// The file that is written, with those beside it; none for standard output.
    pub out: Option<&'a str>,
    /// The trace; none for standard input.
    pub file: Option<&'a str>,
}
