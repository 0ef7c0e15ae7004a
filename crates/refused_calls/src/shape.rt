//! Traces whose answers are known by how they are made.
ghost use Rattle.std.specs.Prelude.{◌<◌};

use crate::stop::{Stop, given};
use pmt_model::{Finding, Selection, Trace, Verdict};
use pmt_text::{ReadError, read_trace};
use std::alloc::{AllocError, Global};

/// How a trace is made. Thread 1 stores to one line, flushes it and fences, in so many rounds. Then thread 0 stores to so many other
/// lines, of which there are two at least, flushes each, and fences twice; and it claims that the first of these lines is persisted,
/// and that it is ordered before the second. The second fence alone does nothing, and the last claim alone fails.
#[derive(Clone, Copy)]
pub struct Shape {
    pub rounds: u16,
    pub lines: u16,
}

impl Shape {
    /// The trace.
    pub fn trace(self, alloc: Global) -> Result<Trace, Stop> {
        let text = self.text(alloc)?;
        let answer = read_trace(alloc, text.as_bytes());
        given("read_trace", answer, ReadError::OutOfMemory)
    }

    // Its text.
    fn text(self, alloc: Global) -> Result<String, AllocError> {
        let mut text = format!(in alloc; "pmtrace 1\n")?;
        for _ in 0..self.rounds {
            text.push_str("store 1 0x0 01\nclwb 1 0x0\nsfence 1\n")?;
        }
        for line in 0..self.lines {
            let addr = 0x1000 + 64 * line as u64;
            write!(text, "store 0 {addr:#x} 02\n")?;
        }
        for line in 0..self.lines {
            let addr = 0x1000 + 64 * line as u64;
            write!(text, "clwb 0 {addr:#x}\n")?;
        }
        text.push_str(
            "sfence 0\nsfence 0\nisPersist 0 0x1000 1\nisOrderedBefore 0 0x1000 1 0x1040 1\n",
        )?;
        Ok(text)
    }

    /// How many lines are stored.
    pub fn lines_in_all(self) -> u64 {
        self.lines as u64 + 1
    }

    /// How often a fence raises the front of a line.
    pub fn raises(self) -> u64
        ensures { result < 1000000 }
    {
        self.rounds as u64 + self.lines as u64
    }

    /// How many flushes and fences there are.
    pub fn flushes_and_fences(self) -> u64 {
        2 * self.rounds as u64 + self.lines as u64 + 2
    }

    // The number of the fence that does nothing.
    fn empty_fence(self) -> u64
        ensures { result < 1000000 }
    {
        3 * self.rounds as u64 + 2 * self.lines as u64 + 2
    }

    /// How many events are kept: all but that fence.
    pub fn kept(self) -> u64 {
        self.empty_fence() + 1
    }

    /// Whether these are all findings.
    pub fn has_found(self, findings: &[Finding]) -> bool {
        let event = self.empty_fence();
        findings == [Finding::FenceWithoutFlush { event }].as_slice()
    }

    /// Whether these are all verdicts.
    pub fn has_judged(self, verdicts: &[Verdict]) -> bool {
        let persist = Verdict {
            event: self.empty_fence() + 1,
            ordered: false,
            pass: true,
        };
        let ordered = Verdict {
            event: self.empty_fence() + 2,
            ordered: true,
            pass: false,
        };
        verdicts == [persist, ordered].as_slice()
    }

    /// Whether all is selected that is kept.
    pub fn has_kept(self, selection: &Selection) -> bool {
        let numbers = selection.numbers();
        numbers.len() as u64 == self.kept() && !numbers.contains(&self.empty_fence())
    }

    /// The report of the trace.
    pub fn report(self, alloc: Global) -> Result<String, AllocError> {
        let lines = self.lines_in_all();
        let fence = self.empty_fence();
        let persist = fence + 1;
        let ordered = fence + 2;
        let kept = self.kept();
        format!(in alloc;
            "events {ordered} lines {lines}\nfence-without-flush {fence}\npersist {persist} pass\nordered {ordered} fail\nkept {kept} dropped 1\n"
        )
    }
}
