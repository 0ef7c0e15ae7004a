//! The lines of a range that have a slot.

// A line and its slot.
#[derive(Clone, Copy)]
pub(crate) struct Placed {
    pub(crate) line: u64,
    pub(crate) slot: usize,
}
