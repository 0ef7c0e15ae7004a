//! Of each thread, its flushes since its last fence.
ghost use Rattle.std.specs.Prelude.{◌≡◌, ◌≢◌, ◌<◌, ℕ, [], ◌∷◌, ◌++◌, length, IfOk, OnOk, OnErr};
ghost use Rattle.pmt_rows.specs.Waiting.{LacksLast, list_at};

use pmt_model::OutOfMemory;
use std::alloc::Global;
use std::marker::Model;

/// A flush (clwb, clflushopt) by its number, with the slot of its line and the last store to that so far, or 0.
#[derive(Clone, Copy)]
pub struct OpenFlush {
    pub number: u32,
    pub slot: u32,
    pub store: u32,
}

/// Of each thread, its flushes since its last fence, the oldest first: 12 bytes each.
#[derive(Drop)]
pub struct OpenFlushes {
    lists: Vec<Vec<OpenFlush>>,
}

impl Model for OpenFlushes {
    ghost use Rattle.std.specs.Prelude.{List, map};
    ghost use Rattle.pmt_rows.specs.declared.open.OpenFlush.{OpenFlush};

    ghost Value = { List (List OpenFlush) };

    ghost view = { λ o. map (λ list. list.items) o.lists.items };
}

impl OpenFlushes {
    /// None yet.
    pub fn new(alloc: Global) -> Self
        ensures { result ≡ [] }
    {
        OpenFlushes {
            lists: Vec::new(alloc),
        }
    }

    /// Those of the thread.
    #[inline(always)]
    pub fn of(&self, thread: u8) -> &[OpenFlush]
        ensures { result.now ≡ list_at thread self.now }
    {
        match self.lists.get(thread as usize) {
            Some(list) => list.as_slice(),
            None => &[],
        }
    }

    /// One more of the thread.
    ///
    /// # Errors
    /// Where memory was refused. They stay as they were.
    #[inline(always)]
    pub fn add(&mut self, thread: u8, flush: OpenFlush) -> Result<(), OutOfMemory>
        ensures own { OnOk result (list_at thread self.new ≡ list_at thread self.old ++ flush ∷ []) }
        ensures others { OnOk result ((t : ℕ) → t ≢ thread → list_at t self.new ≡ list_at t self.old) }
        ensures same { OnErr result ((t : ℕ) → list_at t self.new ≡ list_at t self.old) }
    {
        self.reach(thread)?;
        self.lists[thread as usize].push(flush)?;
        Ok(())
    }

    /// The thread has fenced: it has none any more.
    #[inline(always)]
    pub fn clear(&mut self, thread: u8)
        ensures own { list_at thread self.new ≡ [] }
        ensures others { (t : ℕ) → t ≢ thread → list_at t self.new ≡ list_at t self.old }
    {
        if (thread as usize) < self.lists.len() {
            self.lists[thread as usize].clear();
        }
    }

    /// The last flush of the thread is taken back.
    pub fn take_back(&mut self, thread: u8)
        ensures { LacksLast thread self.old self.new }
    {
        if (thread as usize) < self.lists.len() {
            self.lists[thread as usize].pop();
        }
    }

    /// The same lists.
    ///
    /// # Errors
    /// Where memory was refused.
    pub fn copy(&self) -> Result<Self, OutOfMemory>
        ensures { IfOk result (λ copy. copy ≡ self.now) }
    {
        let alloc = *self.lists.allocator();
        let mut lists = Vec::new(alloc);
        for list in &self.lists {
            lists.push(list.as_slice().to_vec(alloc)?)?;
        }
        Ok(OpenFlushes { lists })
    }

    // Makes a list for the thread.
    #[inline(always)]
    fn reach(&mut self, thread: u8) -> Result<(), OutOfMemory>
        ensures same { (t : ℕ) → list_at t self.new ≡ list_at t self.old }
        ensures there { OnOk result (thread < length self.new) }
    {
        while self.lists.len() <= thread as usize {
            self.lists.push(Vec::new(*self.lists.allocator()))?;
        }
        Ok(())
    }
}
