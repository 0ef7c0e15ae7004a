//! What `parts` is asked for.

use pmt_asked::ByteRange;

/// What `parts` is asked for.
#[derive(Drop)]
pub struct PartsWords<'a> {
    /// The most events of a part, from 1 to 1,000,000.
    pub events: u64,
    /// So many events before those that it answers for a part begins; less than half of the most events.
    pub overlap: u64,
    /// The bytes whose stores are not carried.
    pub ignored: Vec<ByteRange>,
    /// The labels file.
    pub labels: Option<&'a str>,
    /// With what the names of the files begin that are written.
    pub out: &'a str,
    /// The trace; standard input, if none is given.
    pub file: Option<&'a str>,
}
