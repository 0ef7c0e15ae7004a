//! The part of one worker, and the gate that it goes through.
ghost use Rattle.std.specs.Prelude.{IfOk};
ghost use Rattle.pmt_workers.specs.Answering.{IsAnswerTo, AreAnswersTo};

use pmt_lines::{LineJob, LineResult, run_line};
use pmt_model::{NoGate, OutOfMemory};
use pmt_trim::line_kept;
use std::alloc::Global;

/// What one job gives: its result, and the numbers that are kept for its line.
#[derive(Debug, Drop)]
pub struct LineAnswer {
    pub result: LineResult,
    pub kept: Vec<u64>,
}

/// Where a worker runs its part of the jobs: tests watch the workers there.
pub trait ShardGate {
    /// Runs the jobs of the worker with this number, from 0: its whole part, also an empty one.
    ///
    /// # Errors
    /// Where memory was refused.
    fn run(
        &self,
        alloc: Global,
        worker: usize,
        jobs: Vec<LineJob>,
    ) -> Result<Vec<LineAnswer>, OutOfMemory>
        ensures { IfOk result (λ answers. AreAnswersTo jobs.items answers.items) };
}

impl ShardGate for NoGate {
    fn run(
        &self,
        alloc: Global,
        _worker: usize,
        jobs: Vec<LineJob>,
    ) -> Result<Vec<LineAnswer>, OutOfMemory> {
        run_shard(alloc, jobs)
    }
}

/// The answers to these jobs, in their order: the work of one worker, who shares nothing with any other.
///
/// # Errors
/// Where memory was refused; the jobs are given up.
pub fn run_shard(alloc: Global, jobs: Vec<LineJob>) -> Result<Vec<LineAnswer>, OutOfMemory>
    ensures { IfOk result (λ answers. AreAnswersTo jobs.items answers.items) }
{
    let mut answers = Vec::with_capacity(alloc, jobs.len())?;
    for job in jobs {
        answers.push(answer_to(alloc, job)?)?;
    }
    Ok(answers)
}

// The result of the job, and what is kept for its line.
fn answer_to(alloc: Global, job: LineJob) -> Result<LineAnswer, OutOfMemory>
    ensures { IfOk result (λ answer. IsAnswerTo job answer) }
{
    let result = run_line(alloc, job)?;
    let kept = line_kept(alloc, &result)?;
    Ok(LineAnswer { result, kept })
}
