//! The state of one line: its count, its front and the marks of threads.
ghost use Rattle.std.specs.Prelude.{◌≡◌, ℕ, ◌+◌, ◌<◌, ◌↔◌, List, [], ◌∷◌, IsTrue, IsOk, IsSome, None, IfOk, OnOk, OnErr};
ghost use Rattle.pmt_laws.specs.Prelude.{Act, Stores, Flushes, Clflushes, Fences, event_limit, Written};
ghost use Rattle.pmt_marks.specs.Lines.{IsLine, Follows, mark_in, Marks, Completes};

use crate::mark::{Mark, set_mark, stores_of, take_mark};
use pmt_model::OutOfMemory;
use smallvec::SmallVec;
use std::alloc::Global;
use std::marker::Model;

/// What is kept of one line while the events of a trace go by.
#[derive(Debug, Drop)]
pub struct LineState {
    count: u32,
    front: u32,
    marks: SmallVec<Mark, 4>,
}

impl Model for LineState {
    ghost use Rattle.pmt_marks.specs.Lines.{Line, IsLine};

    ghost Value = { Line };

    ghost view = { λ s. record { count = s.count; front = s.front; marks = s.marks.items } };

    ghost invariant = { λ s. IsLine (record { count = s.count; front = s.front; marks = s.marks.items }) };
}

impl LineState {
    /// The state of a line that was neither stored nor flushed.
    pub fn new(alloc: Global) -> Self
        ensures state { result ≡ record { count = 0; front = 0; marks = [] } }
        ensures follows { (l : ℕ) → Follows l [] result }
    {
        LineState {
            count: 0,
            front: 0,
            marks: SmallVec::new(alloc),
        }
    }

    /// How many of the line's stores are persisted for sure.
    pub fn front(&self) -> u64
        ensures value { result ≡ self.now.front }
        ensures line { IsLine self.now }
    {
        self.front as u64
    }

    /// How many stores to the line have come.
    pub fn count(&self) -> u64
        ensures value { result ≡ self.now.count }
        ensures line { IsLine self.now }
    {
        self.count as u64
    }

    /// How many stores came before the thread's last flush of the line, unless it has fenced since.
    pub fn mark(&self, thread: u8) -> Option<u64>
        ensures value { result ≡ mark_in thread self.now.marks }
    {
        let stores = stores_of(self.marks.as_slice(), thread)?;
        Some(stores as u64)
    }

    /// A store to the line.
    pub fn on_store(&mut self)
        requires { self.old.count < event_limit }
        ensures state { self.new ≡ record self.old { count = self.old.count + 1 } }
        ensures follows { (l : ℕ) (h : List Act) (w : Written) → Follows l h self.old → Follows l (Stores l w ∷ h) self.new }
    {
        self.count += 1;
    }

    /// A flush of the line by the thread, which a fence of that thread completes.
    ///
    /// # Errors
    /// Where a place for a fifth or later mark was refused. Nothing is changed then.
    #[inline(always)]
    pub fn on_flush(&mut self, thread: u8) -> Result<(), OutOfMemory>
        ensures ok { OnOk result (Marks thread self.old self.new) }
        ensures again { IsSome (mark_in thread self.old.marks) → IsOk result }
        ensures err { OnErr result (self.new ≡ self.old) }
        ensures follows { OnOk result ((l : ℕ) (h : List Act) → Follows l h self.old → Follows l (Flushes thread l ∷ h) self.new) }
    {
        let stores = self.count;
        set_mark(&mut self.marks, Mark { thread, stores })
    }

    /// A clflush of the line, complete at once: true where the front rose. Marks stay.
    pub fn on_clflush(&mut self) -> bool
        ensures state { self.new ≡ record self.old { front = self.old.count } }
        ensures rose { IsTrue result ↔ (self.old.front < self.new.front) }
        ensures follows { (l : ℕ) (h : List Act) → Follows l h self.old → Follows l (Clflushes l ∷ h) self.new }
    {
        let rose = self.front < self.count;
        self.front = self.count;
        rose
    }

    /// A fence by the thread, which completes its last flush of the line and takes its mark away: true where the front rose.
    #[inline(always)]
    pub fn on_fence(&mut self, thread: u8) -> bool
        ensures done { Completes thread self.old self.new }
        ensures unmarked { mark_in thread self.old.marks ≡ None → self.new ≡ self.old }
        ensures rose { IsTrue result ↔ (self.old.front < self.new.front) }
        ensures follows { (l : ℕ) (h : List Act) → Follows l h self.old → Follows l (Fences thread ∷ h) self.new }
    {
        let stores = take_mark(&mut self.marks, thread).unwrap_or(0);
        let rose = self.front < stores;
        self.front = self.front.max(stores);
        rose
    }

    /// The same state once more.
    ///
    /// # Errors
    /// Where its memory was refused.
    pub fn copy(&self) -> Result<LineState, OutOfMemory>
        ensures { IfOk result (λ copy. copy ≡ self.now) }
    {
        let marks = SmallVec::from_slice(*self.marks.allocator(), self.marks.as_slice())?;
        Ok(LineState {
            count: self.count,
            front: self.front,
            marks,
        })
    }
}
