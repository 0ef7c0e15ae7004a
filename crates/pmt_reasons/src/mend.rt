//! What mends a store that is not safe.

/// What makes a store safe before event `before`, or before the end of the trace where that is none. Events go by their numbers, from
/// 1, and lines by theirs (own profile, in the manner of pmemcheck's reports).
#[derive(Clone, Copy)]
pub enum Mend {
    /// The thread has to fence after event `after`, its flush.
    Fence {
        thread: u8,
        after: u64,
        before: Option<u64>,
    },
    /// The line has to be flushed after event `after`, the store, and the thread that flushes it has to fence then.
    FlushAndFence {
        line: u64,
        after: u64,
        before: Option<u64>,
    },
    /// The store has to be made earlier. On the line of the event before which it has to come, that is enough; else its line has to
    /// be flushed and fenced in between.
    StoreFirst {
        store: u64,
        before: Option<u64>,
        same_line: bool,
    },
}
