//! Of each line threads that have flushed it since its last store.
ghost use Rattle.std.specs.Prelude.{◌≡◌, ◌≢◌, ℕ, ◌+◌, ◌<◌, ◌^◌, ◌==◌, ◌||◌, false, [], length, max, get_or, IfOk, OnOk};
ghost use Rattle.pmt_sweep.specs.Known.{HasFlush, IsAlike, none_since, tells_flush};

use pmt_model::OutOfMemory;
use pmt_rows::Flushers;
use std::alloc::Global;

// The threads that have flushed a line since this store to it.
#[derive(Drop)]
pub(crate) struct SinceStore {
    store: u32,
    threads: Flushers,
}

/// Of each line, by its slot, threads that have flushed it since its last store. A store changes nothing here: what is of an older store
/// is let go at the next flush.
#[derive(Drop)]
pub(crate) struct FlushedLines {
    pub(crate) lines: Vec<SinceStore>,
}

impl FlushedLines {
    pub(crate) fn new(alloc: Global) -> Self
        ensures { result.lines.items ≡ [] }
    {
        FlushedLines {
            lines: Vec::new(alloc),
        }
    }

    // A flush by the thread of the line at this slot, whose last store is this one: whether it has flushed it since.
    #[inline(never)]
    pub(crate) fn flush(&mut self, slot: usize, store: u32, thread: u8) -> Result<bool, OutOfMemory>
        requires { slot < 2 ^ 32 }
        ensures tells { IfOk result (λ again. again ≡ tells_flush store (get_or self.old.lines.items slot none_since) thread) }
        ensures flushed { OnOk result (HasFlush slot store thread self.old.lines.items self.new.lines.items) }
    {
        self.reach(slot)?;
        flush_line(&mut self.lines[slot], store, thread)
    }

    // Nobody has flushed the line at this slot any more.
    #[inline(always)]
    pub(crate) fn clear(&mut self, slot: usize)
        ensures own { (last t : ℕ) → t < 256 → tells_flush last (get_or self.new.lines.items slot none_since) t ≡ false }
        ensures others { (p : ℕ) → p ≢ slot → get_or self.new.lines.items p none_since ≡ get_or self.old.lines.items p none_since }
    {
        if slot < self.lines.len() {
            self.lines[slot].threads.clear();
        }
    }

    // Makes a slot for the line.
    #[inline(always)]
    fn reach(&mut self, slot: usize) -> Result<(), OutOfMemory>
        requires { slot < 2 ^ 32 }
        ensures many { OnOk result (length self.new.lines.items ≡ max (length self.old.lines.items) (slot + 1)) }
        ensures alike { (p : ℕ) → IsAlike self.old.lines.items self.new.lines.items p }
    {
        while self.lines.len() <= slot {
            let threads = Flushers::new(*self.lines.allocator());
            self.lines.push(SinceStore { store: 0, threads })?;
        }
        Ok(())
    }
}

// A flush by the thread of a line whose last store is this one: whether it has flushed the line since.
#[inline(always)]
fn flush_line(line: &mut SinceStore, store: u32, thread: u8) -> Result<bool, OutOfMemory>
    ensures tells { IfOk result (λ again. again ≡ tells_flush store line.old thread) }
    ensures store { OnOk result (line.new.store ≡ store) }
    ensures own { OnOk result ((t : ℕ) → t < 256 → tells_flush store line.new t ≡ ((thread == t) || tells_flush store line.old t)) }
{
    if line.store != store {
        line.store = store;
        line.threads.clear();
    }
    if line.threads.has(thread) {
        return Ok(true);
    }
    line.threads.add(thread)?;
    Ok(false)
}
