//! What `draw` is asked for.

/// Which events are drawn. Events go by their numbers, from 1.
#[derive(Clone, Copy)]
pub enum AskedEvents {
    /// What is told of the trace first.
    First,
    /// What led to the failure of the assertion with this number.
    Failure(u64),
    /// The events around this one.
    Around(u64),
}

/// What `draw` is asked for.
#[derive(Drop)]
pub struct Drawing<'a> {
    /// Which events.
    pub events: AskedEvents,
    /// The file of the labels.
    pub labels: Option<&'a str>,
    /// Whether no labels file beside the trace is taken.
    pub no_labels: bool,
    /// The file that is written; none for standard output.
    pub out: Option<&'a str>,
    /// The file of the trace; none for standard input.
    pub file: Option<&'a str>,
}
