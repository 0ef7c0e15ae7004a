//! What comes after a place, of all lines of a range, as events are met from an assertion back.

ghost use Rattle.std.specs.Prelude.{◌≡◌, ◌≢◌, ℕ, suc, ◌+◌, ◌^◌, ◌<◌, ◌≤◌, ◌⊎◌, length, slice_get, Some, IfOk, MatchOption};
ghost use Rattle.pmt_laws.specs.Prelude.{Span, Written, line_of as line_in, Stores, Flushes, Clflushes, Fences, Asserts, Recording, IsAct, InSpan};
ghost use Rattle.pmt_slices.specs.Slices.{IsComing, IsScan};

use crate::coming::Coming;
use pmt_model::{Format, OutOfMemory, Range};
use pmt_tables::Spanned;
use pmt_tables::span_laws::lines_are_met;
use std::alloc::Global;

/// What comes after a place and up to an assertion: of each line that a range meets, and of the fences.
#[derive(Drop)]
pub(crate) struct Scan {
    // the first of the lines
    pub(crate) first: u64,
    pub(crate) lines: Vec<Coming>,
    // of each thread the first fence
    pub(crate) fences: [u64; 256],
    // the first fence by any thread
    pub(crate) fence: u64,
}

impl Scan {
    // Before any event is met, where `past` is one more than the number of the assertion.
    pub(crate) fn new(
        alloc: Global,
        format: Format,
        range: Range,
        past: u64,
    ) -> Result<Self, OutOfMemory>
        ensures { IfOk result (λ s. (T : Recording) (n : ℕ) → T.format ≡ format → past ≡ suc n → IsScan T range n past s) }
    {
        lines_are_met();
        let spanned = Spanned::new(format, range);
        let lines = nothing_comes(alloc, spanned, past)?;
        Ok(Scan {
            first: spanned.first,
            lines,
            fences: [past; 256],
            fence: past,
        })
    }

    // The same of one line, for a range that lies in it.
    pub(crate) fn of_line(alloc: Global, line: u64, past: u64) -> Result<Self, OutOfMemory>
        ensures { IfOk result (λ s. (T : Recording) (A : Span) (n : ℕ) → past ≡ suc n → ((b : ℕ) → InSpan A b → line_in T.format b ≡ line) → IsScan T A n past s) }
    {
        let lines = vec![in alloc; Coming::nothing(past)]?;
        Ok(Scan {
            first: line,
            lines,
            fences: [past; 256],
            fence: past,
        })
    }

    // The place of the line among those that the range meets, if it is one of them.
    fn place_of(&self, line: u64) -> Option<usize>
        ensures { MatchOption result ((line < self.now.first) ⊎ (self.now.first + length self.now.lines.items ≤ line)) (λ k. (self.now.first + k ≡ line) × (k < length self.now.lines.items)) }
    {
        if line < self.first {
            return None;
        }
        let place = (line - self.first) as usize;
        if place < self.lines.len() {
            Some(place)
        } else {
            None
        }
    }

    // What comes after the place of the line; none where the range does not meet it.
    pub(crate) fn coming(&self, line: u64) -> Option<Coming>
        ensures { (T : Recording) (A : Span) (m past : ℕ) → IsScan T A m past self.now → MatchOption result ((b : ℕ) → InSpan A b → line_in T.format b ≢ line) (IsComing T line m past) }
    {
        match self.place_of(line) {
            None => None,
            Some(place) => Some(self.lines[place]),
        }
    }

    // Goes back over a flush of the line by the thread.
    pub(crate) fn flush(&mut self, thread: u8, line: u64, number: u64)
        ensures { (T : Recording) (A : Span) (m past : ℕ) → IsAct T (suc m) (Flushes thread line) → number ≡ suc m → suc m < past → IsScan T A (suc m) past self.old → IsScan T A m past self.new }
    {
        let by = self.fences[thread as usize];
        let fence = self.fence;
        if let Some(place) = self.place_of(line) {
            let coming = self.lines[place];
            self.lines[place] = coming.before_flush(number, fence, by);
        }
    }

    // Goes back over a clflush of the line.
    pub(crate) fn clflush(&mut self, line: u64, number: u64)
        ensures { (T : Recording) (A : Span) (m past : ℕ) → IsAct T (suc m) (Clflushes line) → number ≡ suc m → suc m < past → IsScan T A (suc m) past self.old → IsScan T A m past self.new }
    {
        let fence = self.fence;
        if let Some(place) = self.place_of(line) {
            self.lines[place] = Coming::before_clflush(number, fence);
        }
    }

    // Goes back over a fence by the thread.
    pub(crate) fn fence(&mut self, thread: u8, number: u64)
        ensures { (T : Recording) (A : Span) (m past : ℕ) → IsAct T (suc m) (Fences thread) → number ≡ suc m → suc m < past → IsScan T A (suc m) past self.old → IsScan T A m past self.new }
    {
        let _lines = self.lines.len();
        self.fences[thread as usize] = number;
        self.fence = number;
    }
}

// Of each line of the range that nothing comes.
fn nothing_comes(alloc: Global, spanned: Spanned, past: u64) -> Result<Vec<Coming>, OutOfMemory>
    requires order { spanned.first ≤ spanned.last }
    requires few { spanned.last < 2 ^ 48 }
    ensures size { IfOk result (λ lines. spanned.first + length lines.items ≡ suc spanned.last) }
    ensures each { IfOk result (λ lines. (k : ℕ) (c : Coming) → slice_get lines.items k ≡ Some c → (c.flush ≡ past) × (c.fence ≡ past) × (c.safe ≡ past)) }
{
    let count = (spanned.last - spanned.first) as usize + 1;
    Ok(vec![in alloc; Coming::nothing(past); count]?)
}
