//! The findings of one line.
ghost use Rattle.std.specs.Prelude.{◌≡◌, ℕ, ◌+◌, ◌%◌, ◌<◌, ◌≤◌, [], ◌∷◌, ◌++◌, replicate, IfOk, OnOk, MatchOption};
ghost use Rattle.pmt_model.specs.Traces.{event_limit};
ghost use Rattle.pmt_lines.specs.Jobs.{IsStepKind, TakesStep, found_if, last_flush_of, flush_after, is_flush_covered, FindsBefore, IsNextAbove, IsNoneAbove, PushesOverwritten, Reports, ReportsStore, TakesBytes};

use crate::job::LineJob;
use crate::last_stores::LastStores;
use crate::raises::take_step;
use crate::step::{Step, StepKind};
use pmt_marks::LineState;
use pmt_model::{Finding, OutOfMemory};
use std::alloc::Global;

/// What is known of a line while its steps go by.
#[derive(Drop)]
pub(crate) struct Scan {
    pub(crate) state: LineState,
    pub(crate) stores: LastStores,
    // The number of the last flush or clflush of the line, or 0.
    pub(crate) flush: u32,
}

/// What is known of a line at the end of the trace: its front, and the number of its last flush or clflush, or 0.
#[derive(Clone, Copy)]
pub(crate) struct Ending {
    pub(crate) front: u64,
    pub(crate) flush: u64,
}

// More than every number of 32 bits.
const ABOVE_ALL: u64 = 1 << 32;

// The least of the numbers that are above low.
fn next_above(numbers: &[u32], low: u32) -> Option<u32>
    ensures { MatchOption result (IsNoneAbove low numbers.now) (IsNextAbove low numbers.now) }
{
    let mut least = ABOVE_ALL;
    for number in numbers {
        let number = *number as u64;
        if number > low as u64 && number < least {
            least = number;
        }
    }
    if least == ABOVE_ALL {
        None
    } else {
        Some(least as u32)
    }
}

/// Adds the finding, if it is one.
///
/// # Errors
/// Where memory was refused.
pub(crate) fn push_if(
    found: &mut Vec<Finding>,
    is_one: bool,
    finding: Finding,
) -> Result<(), OutOfMemory>
    ensures { OnOk result (found.new.items ≡ found.old.items ++ found_if is_one finding) }
{
    if is_one {
        found.push(finding)?;
    }
    Ok(())
}

/// Adds that the later store overwrites each of the earlier ones that come after the last flush: of these once each, by rising numbers.
///
/// # Errors
/// Where memory was refused; some of the findings may be added then.
pub(crate) fn push_overwritten(
    found: &mut Vec<Finding>,
    earlier: &[u32],
    flush: u32,
    later: u64,
) -> Result<(), OutOfMemory>
    ensures { OnOk result (PushesOverwritten found.old.items found.new.items earlier.now flush later) }
{
    let mut low = flush;
    while let Some(next) = next_above(earlier, low) {
        found.push(Finding::Overwritten {
            earlier: next as u64,
            later,
        })?;
        low = next;
    }
    Ok(())
}

// Whether the front or the mark of the thread counts all stores to the line already.
fn is_flush_covered(state: &LineState, thread: u8) -> bool
    ensures { result ≡ is_flush_covered state.now thread }
{
    let mark = state.mark(thread).unwrap_or(0);
    state.count() <= state.front().max(mark)
}

impl Scan {
    // Nothing has come yet.
    fn new(alloc: Global) -> Self
        ensures state { result.state ≡ record { count = 0; front = 0; marks = [] } }
        ensures stores { result.stores.numbers ≡ replicate 256 0 }
        ensures flush { result.flush ≡ 0 }
    {
        Scan {
            state: LineState::new(alloc),
            stores: LastStores::new(),
            flush: 0,
        }
    }

    // Adds what is found at the step, before it is taken.
    fn report(
        &self,
        found: &mut Vec<Finding>,
        ending: Ending,
        step: &Step,
    ) -> Result<(), OutOfMemory>
        requires { IsStepKind step.now.kind }
        ensures { OnOk result (Reports self.now ending step.now found.old.items found.new.items) }
    {
        let number = step.number;
        match &step.kind {
            StepKind::Store { addr, len } => self.report_store(found, ending, number, *addr, *len),
            StepKind::Flush => push_if(
                found,
                is_flush_covered(&self.state, step.thread),
                Finding::RedundantFlush { event: number },
            ),
            StepKind::Clflush => push_if(
                found,
                self.state.count() <= self.state.front(),
                Finding::RedundantFlush { event: number },
            ),
            StepKind::Fence => Ok(()),
        }
    }

    fn report_store(
        &self,
        found: &mut Vec<Finding>,
        ending: Ending,
        number: u64,
        addr: u64,
        len: u64,
    ) -> Result<(), OutOfMemory>
        requires { addr % 256 + len ≤ 256 }
        ensures { OnOk result (ReportsStore self.now ending number addr len found.old.items found.new.items) }
    {
        push_overwritten(found, self.stores.of(addr, len), self.flush, number)?;
        let flushed = number < ending.flush;
        push_if(
            found,
            ending.front < self.state.count() + 1,
            Finding::NeverPersisted {
                event: number,
                flushed,
            },
        )
    }

    // Takes the step.
    fn take(&mut self, step: &Step) -> Result<(), OutOfMemory>
        requires few { self.old.state.count < event_limit }
        requires within { step.now.number ≤ event_limit }
        requires inside { IsStepKind step.now.kind }
        ensures takes { OnOk result (TakesStep step.now self.old.state self.new.state) }
        ensures counted { OnOk result (self.new.state.count ≤ self.old.state.count + 1) }
        ensures bytes { OnOk result (TakesBytes self.old.stores.numbers self.new.stores.numbers step.now.number step.now.kind) }
        ensures flush { OnOk result (self.new.flush ≡ flush_after self.old.flush step.now.number step.now.kind) }
    {
        take_step(&mut self.state, step)?;
        match &step.kind {
            StepKind::Store { addr, len } => self.stores.store(*addr, *len, step.number as u32),
            StepKind::Flush | StepKind::Clflush => self.flush = step.number as u32,
            StepKind::Fence => {}
        }
        Ok(())
    }
}

// The number of the last flush or clflush, or 0.
pub(crate) fn last_flush(steps: &[Step]) -> u64
    ensures { result ≡ last_flush_of 0 steps.now }
{
    let mut last = 0;
    for step in steps {
        match &step.kind {
            StepKind::Flush | StepKind::Clflush => last = step.number,
            StepKind::Store { .. } | StepKind::Fence => {}
        }
    }
    last
}

// The findings of the job's line, in report order.
pub(crate) fn line_findings(
    alloc: Global,
    job: &LineJob,
    ending: Ending,
) -> Result<Vec<Finding>, OutOfMemory>
    ensures { IfOk result (λ found. FindsBefore job.now ending found.items) }
{
    let steps = job.steps();
    let mut scan = Scan::new(alloc);
    let mut found = Vec::new(alloc);
    for step in steps {
        scan.report(&mut found, ending, step)?;
        scan.take(step)?;
    }
    Ok(found)
}
