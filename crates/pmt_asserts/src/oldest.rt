//! The first stores to lines, as the second range of isOrderedBefore asks for them.

// The first one of some stores to a line: its rank among the line's stores and its event's number.
#[derive(Clone, Copy, Debug, PartialEq, Eq)]
pub(crate) struct Oldest {
    pub(crate) rank: u64,
    pub(crate) number: u64,
}

// The first one of some stores: its line and its event's number.
#[derive(Clone, Copy, Debug, PartialEq, Eq)]
pub(crate) struct Earliest {
    pub(crate) line: u64,
    pub(crate) number: u64,
}
