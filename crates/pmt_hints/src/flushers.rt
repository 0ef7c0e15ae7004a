//! The last flush of each line by each thread.

ghost use Rattle.std.specs.Prelude.{◌≡◌, ℕ, IfOk, OnOk};
ghost use Rattle.pmt_model.specs.Traces.{act_of};
ghost use Rattle.pmt_hints.specs.Numbers.{flush_at, flush_by};

use pmt_model::{Format, Op, OutOfMemory, line_of};
use std::collections::HashMap;

/// A thread that flushed a line.
#[derive(Clone, Copy, PartialEq, Eq, Hash)]
pub(crate) struct Flusher {
    pub(crate) thread: u8,
    pub(crate) line: u64,
}

/// The number of the last flush of a line by a thread.
pub(crate) type LastFlushes = HashMap<Flusher, u64>;

// The last flush of the line by the thread, or 0 where there is none.
pub(crate) fn last_flush(flushes: &LastFlushes, thread: u8, line: u64) -> u64
    ensures { result ≡ flush_at flushes.now thread line }
{
    flushes.get(&Flusher { thread, line }).copied().unwrap_or(0)
}

// Notes the op with this number, if it is a flush that waits for a fence.
pub(crate) fn note_flush(
    flushes: &mut LastFlushes,
    format: Format,
    thread: u8,
    op: Op,
    number: u64,
) -> Result<(), OutOfMemory>
    ensures { OnOk result ((t l : ℕ) → flush_at flushes.new t l ≡ flush_by (act_of format thread op) number t l (flush_at flushes.old t l)) }
{
    match op {
        Op::Clwb(addr) | Op::ClflushOpt(addr) => {
            let line = line_of(format, addr);
            flushes.insert(Flusher { thread, line }, number)?;
            Ok(())
        }
        Op::Store(_)
        | Op::Clflush(_)
        | Op::Sfence
        | Op::Mfence
        | Op::IsPersist(_)
        | Op::IsOrderedBefore(_, _) => Ok(()),
    }
}
