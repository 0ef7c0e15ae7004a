//! One step of a job.
ghost use Rattle.std.specs.Prelude.{◌≡◌};

/// What an event does to a line.
#[derive(Clone, Copy, Debug, PartialEq, Eq)]
pub enum StepKind {
    /// A store of `len` bytes at `addr`.
    Store { addr: u64, len: u64 },
    /// A clwb or a clflushopt.
    Flush,
    /// A clflush.
    Clflush,
    /// An sfence or an mfence.
    Fence,
}

impl StepKind {
    ghost use Rattle.pmt_lines.specs.Jobs.{is_flush, is_fence};

    // Whether it is a clwb or a clflushopt.
    pub(crate) fn is_flush(self) -> bool
        ensures { result ≡ is_flush self }
    {
        matches!(self, StepKind::Flush)
    }

    // Whether it is a fence.
    pub(crate) fn is_fence(self) -> bool
        ensures { result ≡ is_fence self }
    {
        matches!(self, StepKind::Fence)
    }
}

/// One event of a job.
#[derive(Clone, Copy, Debug, PartialEq, Eq)]
pub struct Step {
    /// The event's number in the trace, from 1.
    pub number: u64,
    /// The thread that makes it.
    pub thread: u8,
    /// What it does.
    pub kind: StepKind,
}
