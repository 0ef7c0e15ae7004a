//! The run of a line's job: where its front rises, and what is found.
ghost use Rattle.std.specs.Prelude.{◌≡◌, ◌+◌, ◌<◌, ◌≤◌, ◌↔◌, IsTrue, IfOk, OnOk};
ghost use Rattle.pmt_model.specs.Traces.{event_limit};
ghost use Rattle.pmt_lines.specs.Jobs.{TakesStep, IsLineResult};

use crate::job::LineJob;
use crate::line_findings::{Ending, last_flush, line_findings};
use crate::step::{Step, StepKind};
use pmt_marks::LineState;
use pmt_model::{Finding, OutOfMemory};
use std::alloc::Global;
use std::marker::Model;

/// What a line's job gives.
#[derive(Debug, Drop)]
pub struct LineResult {
    job: LineJob,
    raises: Vec<(u64, u64)>,
    findings: Vec<Finding>,
}

impl Model for LineResult {
    ghost use Rattle.pmt_lines.specs.Jobs.{LineFound, IsLineResult};

    ghost Value = { LineFound };

    ghost view = { λ r. record { job = r.job; raises = r.raises.items; findings = r.findings.items } };

    ghost invariant = { λ r. IsLineResult (record { job = r.job; raises = r.raises.items; findings = r.findings.items }) };
}

impl LineResult {
    /// The job.
    pub fn job(&self) -> &LineJob
        ensures value { result.now ≡ self.now.job }
        ensures right { IsLineResult self.now }
    {
        &self.job
    }

    /// The places where the front of the line rises, each with the front after it, in order.
    pub fn raises(&self) -> &[(u64, u64)]
        ensures value { result.now ≡ self.now.raises }
        ensures right { IsLineResult self.now }
    {
        self.raises.as_slice()
    }

    /// The findings of the line, in report order: overwritten stores, stores never persisted, redundant flushes.
    pub fn findings(&self) -> &[Finding]
        ensures value { result.now ≡ self.now.findings }
        ensures right { IsLineResult self.now }
    {
        self.findings.as_slice()
    }
}

/// Runs the job of a line.
///
/// # Errors
/// Where memory was refused.
pub fn run_line(alloc: Global, job: LineJob) -> Result<LineResult, OutOfMemory>
    ensures job { IfOk result (λ found. found.job ≡ job) }
    ensures right { IfOk result IsLineResult }
{
    let steps = job.steps();
    let mut state = LineState::new(alloc);
    let mut raises = Vec::new(alloc);
    for step in steps {
        if take_step(&mut state, step)? {
            raises.push((step.number, state.front()))?;
        }
    }
    let ending = Ending {
        front: state.front(),
        flush: last_flush(job.steps()),
    };
    let findings = line_findings(alloc, &job, ending)?;
    Ok(LineResult {
        job,
        raises,
        findings,
    })
}

// What the step does to the line's state: true where the front rose.
#[inline(always)]
pub(crate) fn take_step(state: &mut LineState, step: &Step) -> Result<bool, OutOfMemory>
    requires { state.old.count < event_limit }
    ensures takes { OnOk result (TakesStep step.now state.old state.new) }
    ensures rose { IfOk result (λ rose. IsTrue rose ↔ (state.old.front < state.new.front)) }
    ensures counted { OnOk result (state.new.count ≤ state.old.count + 1) }
{
    match &step.kind {
        StepKind::Store { .. } => {
            state.on_store();
            Ok(false)
        }
        StepKind::Flush => {
            state.on_flush(step.thread)?;
            Ok(false)
        }
        StepKind::Clflush => Ok(state.on_clflush()),
        StepKind::Fence => Ok(state.on_fence(step.thread)),
    }
}
