//! What an event does: which line it stores to or flushes, and whether it is a flush or a fence.
use pmt_model::{Format, Op, Trace, line_of};

/// The line of the op, if it stores to one or flushes one.
pub fn line_of_op(format: Format, op: Op) -> Option<u64> {
    match op {
        Op::Store(written) => Some(line_of(format, written.addr())),
        Op::Clwb(addr) | Op::ClflushOpt(addr) | Op::Clflush(addr) => Some(line_of(format, addr)),
        Op::Sfence | Op::Mfence | Op::IsPersist(_) | Op::IsOrderedBefore(_, _) => None,
    }
}

/// Whether the op is a flush that waits for a fence of its thread.
pub fn waits_for_fence(op: &Op) -> bool {
    matches!(op, Op::Clwb(_) | Op::ClflushOpt(_))
}

/// Whether the op is a fence.
pub fn is_fence(op: &Op) -> bool {
    matches!(op, Op::Sfence | Op::Mfence)
}

/// Whether the op flushes a line.
pub fn is_flush(op: &Op) -> bool {
    matches!(op, Op::Clwb(_) | Op::ClflushOpt(_) | Op::Clflush(_))
}

/// The next fence of the thread after this event and up to the last one.
pub fn next_fence(trace: &Trace, thread: u8, number: u64, last: u64) -> Option<u64> {
    let events = trace.events();
    for index in number as usize..(last as usize).min(events.len()) {
        let event = events[index];
        let op = event.op;
        if event.thread == thread && is_fence(&op) {
            return Some(index as u64 + 1);
        }
    }
    None
}
