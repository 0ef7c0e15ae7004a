//! The calls of a shard of all jobs, and those that join what it answers.
ghost use Rattle.std.specs.Prelude.{◌≡◌, map, IfOk};
ghost use Rattle.pmt_lines.specs.Jobs.{IsSplit};
ghost use Rattle.pmt_trim.specs.Kept.{AreAllKept};
ghost use Rattle.pmt_asserts.specs.Tables.{AreResultsOf};
ghost use Rattle.pmt_workers.specs.Answering.{AreAnswersTo, result_in, kept_in};

use crate::lines::is_apart;
use crate::shape::Shape;
use crate::stop::{Stop, gave, given};
use pmt_asserts::{Tables, verdicts};
use pmt_findings::findings;
use pmt_lines::{Jobs, LineJob, LineResult, ThreadJob, ThreadResult, run_fences, split_trace};
use pmt_model::Trace;
use pmt_trim::liveness;
use pmt_workers::{LineAnswer, run_shard};
use std::alloc::{AllocError, Global};
use std::thread::Threads;

/// Takes the trace apart, runs all jobs in one shard, and joins its answers.
pub fn by_shard<R: Threads + Sync>(rt: &R, alloc: Global, shape: Shape) -> Result<(), Stop> {
    match split_trace(alloc, shape.trace(alloc)?) {
        Ok(jobs) => {
            gave("split", is_apart(&jobs, shape))?;
            joined(rt, alloc, jobs, shape)
        }
        Err(_) => Err(Stop::Refused("split")),
    }
}

fn joined<R: Threads + Sync>(rt: &R, alloc: Global, jobs: Jobs, shape: Shape) -> Result<(), Stop>
    requires { IsSplit jobs.trace jobs.lines.items jobs.fences }
{
    let Jobs {
        trace,
        lines,
        fences,
    } = jobs;
    let answers = answered(alloc, lines)?;
    let (results, lists) = taken_apart(alloc, answers)?;
    keep(alloc, &trace, lists.as_slice(), shape)?;
    fence(alloc, results.as_slice(), fences, shape)?;
    judge(rt, alloc, &trace, results, shape)
}

fn answered(alloc: Global, jobs: Vec<LineJob>) -> Result<Vec<LineAnswer>, Stop>
    ensures { IfOk result (λ answers. AreAnswersTo jobs.items answers.items) }
{
    match run_shard(alloc, jobs) {
        Ok(answers) => Ok(answers),
        Err(_) => Err(Stop::Refused("run_shard")),
    }
}

// The results in the answers, and the lists of what is kept.
fn taken_apart(
    alloc: Global,
    answers: Vec<LineAnswer>,
) -> Result<(Vec<LineResult>, Vec<Vec<u64>>), AllocError>
    ensures results { IfOk result (λ pair. pair.0.items ≡ map result_in answers.items) }
    ensures lists { IfOk result (λ pair. map (λ kept. kept.items) pair.1.items ≡ map kept_in answers.items) }
{
    let mut results = Vec::new(alloc);
    let mut lists = Vec::new(alloc);
    for answer in answers {
        let LineAnswer { result, kept } = answer;
        results.push(result)?;
        lists.push(kept)?;
    }
    Ok((results, lists))
}

fn keep(alloc: Global, trace: &Trace, lists: &[Vec<u64>], shape: Shape) -> Result<(), Stop>
    requires { AreAllKept trace.now (map (λ kept. kept.items) lists.now) }
{
    let selection = given("liveness", liveness(alloc, trace, lists), AllocError)?;
    gave("liveness", shape.has_kept(&selection))
}

fn fence(
    alloc: Global,
    results: &[LineResult],
    fences: ThreadJob,
    shape: Shape,
) -> Result<(), Stop> {
    let threads = given("run_fences", run_fences(alloc, fences), AllocError)?;
    gave("run_fences", threads.empty().len() == 1)?;
    let found = given("findings", findings(alloc, results, &threads), AllocError)?;
    gave("findings", shape.has_found(found.as_slice()))
}

fn judge<R: Threads + Sync>(
    rt: &R,
    alloc: Global,
    trace: &Trace,
    results: Vec<LineResult>,
    shape: Shape,
) -> Result<(), Stop>
    requires { AreResultsOf trace.now results.items }
{
    let Ok(tables) = Tables::merge(alloc, results) else {
        return Err(Stop::Refused("Tables::merge"));
    };
    let all = given("verdicts", verdicts(rt, alloc, &tables, trace), AllocError)?;
    gave("verdicts", shape.has_judged(all.as_slice()))
}
