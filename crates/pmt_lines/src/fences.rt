//! The fences without flush.
ghost use Rattle.std.specs.Prelude.{◌≡◌, IfOk};
ghost use Rattle.pmt_lines.specs.Jobs.{IsThreadResult};

use crate::thread_job::ThreadJob;
use pmt_model::OutOfMemory;
use std::alloc::Global;
use std::marker::Model;

/// What the job of the fences gives.
#[derive(Debug, Drop)]
pub struct ThreadResult {
    job: ThreadJob,
    empty: Vec<u64>,
}

impl Model for ThreadResult {
    ghost use Rattle.pmt_lines.specs.Jobs.{ThreadFound, IsThreadResult};

    ghost Value = { ThreadFound };

    ghost view = { λ r. record { steps = r.job; empty = r.empty.items } };

    ghost invariant = { λ r. IsThreadResult (record { steps = r.job; empty = r.empty.items }) };
}

impl ThreadResult {
    /// The job.
    pub fn job(&self) -> &ThreadJob
        ensures value { result.now ≡ self.now.steps }
        ensures right { IsThreadResult self.now }
    {
        &self.job
    }

    /// The rising numbers of the fences whose thread has flushed no line since its last fence.
    pub fn empty(&self) -> &[u64]
        ensures value { result.now ≡ self.now.empty }
        ensures right { IsThreadResult self.now }
    {
        self.empty.as_slice()
    }
}

/// Runs the job of the fences.
///
/// # Errors
/// Where memory was refused.
pub fn run_fences(alloc: Global, job: ThreadJob) -> Result<ThreadResult, OutOfMemory>
    ensures job { IfOk result (λ found. found.steps ≡ job) }
    ensures right { IfOk result IsThreadResult }
{
    // of each thread, whether it has flushed since its last fence
    let mut flushed = [false; 256];
    let mut empty = Vec::new(alloc);
    let steps = job.steps();
    for step in steps {
        let has_flushed = flushed[step.thread as usize];
        flushed[step.thread as usize] = step.kind.is_flush();
        if step.kind.is_fence() && !has_flushed {
            empty.push(step.number)?;
        }
    }
    Ok(ThreadResult { job, empty })
}
