//! Of each line the first thread that has flushed it since its last store, and the others.
ghost use Rattle.std.specs.Prelude.{◌≡◌, ℕ, ◌+◌, ◌<◌, ◌^◌, [], length, max, get_or, IfOk, OnOk};
ghost use Rattle.pmt_sweep.specs.Known.{HasFirst, none_first, tells_at};

use crate::flushed::FlushedLines;
use pmt_model::OutOfMemory;
use std::alloc::Global;

// The first thread that has flushed a line since this store to it, and one more; 0 where none has.
#[derive(Clone, Copy)]
pub(crate) struct FirstFlush {
    pub(crate) store: u32,
    pub(crate) thread: u32,
}

const NONE: FirstFlush = FirstFlush {
    store: 0,
    thread: 0,
};

/// Of each line, by its slot, the threads that have flushed it since its last store: mostly there is one, which takes 8 bytes. A store
/// changes nothing here: what is of an older store is let go at the next flush.
#[derive(Drop)]
pub(crate) struct FirstFlushes {
    pub(crate) first: Vec<FirstFlush>,
    // The threads that flushed a line after its first one: 40 bytes for each line up to the last one that has any.
    pub(crate) others: FlushedLines,
}

impl FirstFlushes {
    pub(crate) fn new(alloc: Global) -> Self
        ensures first { result.first.items ≡ [] }
        ensures others { result.others.lines.items ≡ [] }
    {
        FirstFlushes {
            first: Vec::new(alloc),
            others: FlushedLines::new(alloc),
        }
    }

    // A flush by the thread of the line at this slot, whose last store is this one: whether it has flushed it since.
    #[inline(always)]
    pub(crate) fn flush(&mut self, slot: usize, store: u32, thread: u8) -> Result<bool, OutOfMemory>
        requires { slot < 2 ^ 32 }
        ensures tells { IfOk result (λ again. again ≡ tells_at store self.old.first.items self.old.others.lines.items slot thread) }
        ensures flushed { OnOk result (HasFirst slot store thread self.old.first.items self.old.others.lines.items self.new.first.items self.new.others.lines.items) }
    {
        reach(&mut self.first, slot)?;
        let first = self.first[slot];
        if first.thread == 0 || first.store != store {
            self.others.clear(slot);
            self.first[slot] = FirstFlush {
                store,
                thread: thread as u32 + 1,
            };
            return Ok(false);
        }
        if first.thread == thread as u32 + 1 {
            return Ok(true);
        }
        self.others.flush(slot, store, thread)
    }
}

// Makes a slot for the line.
#[inline(always)]
fn reach(first: &mut Vec<FirstFlush>, slot: usize) -> Result<(), OutOfMemory>
    requires { slot < 2 ^ 32 }
    ensures many { OnOk result (length first.new.items ≡ max (length first.old.items) (slot + 1)) }
    ensures same { OnOk result ((p : ℕ) → get_or first.new.items p none_first ≡ get_or first.old.items p none_first) }
{
    let many = first.len();
    if many == slot {
        // mostly just this one lacks
        first.push(NONE)?;
    } else if many < slot {
        first.resize(slot + 1, NONE)?;
    }
    Ok(())
}
