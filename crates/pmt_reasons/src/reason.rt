//! Why a flush or a fence is dropped.

/// Why a flush or a fence is dropped: the first of these that holds of it. Events go by their numbers, from 1 (own profile, in the
/// manner of pmemcheck's reports).
#[derive(Clone, Copy)]
pub enum Reason {
    /// A flush or clflush: every store to its line is safe when it comes.
    Safe,
    /// A flush: its thread makes no fence after it.
    Unfenced,
    /// A flush: its thread flushes the line again, by event `by`, before its next fence.
    Repeated { by: u64 },
    /// A flush: before its thread's next fence, event `by` makes all stores safe that it marks.
    Overtaken { by: u64 },
    /// A fence: its thread has made no flush since its last fence. A clflush is none.
    Empty,
    /// A fence: its thread has flushed since its last fence, but the fence makes no store safe.
    Useless,
}
