//! Running jobs by halves of the workers.
ghost use Rattle.std.specs.Prelude.{◌≡◌, ◌<◌, ◌≤◌, ◌+◌, ◌^◌, IfOk, IsTrue, take, drop, vec_len, ◌++◌};
ghost use Rattle.std.specs.List.{flat_map};
ghost use Rattle.std.specs.Thread.{IsSync};
ghost use Rattle.pmt_workers.specs.Answering.{AreAnswersTo};
ghost use Rattle.pmt_analysis.specs.Analysing.{is_worker_count};

use crate::cut::fair_cut;
use crate::shard::{LineAnswer, ShardGate};
use pmt_lines::LineJob;
use pmt_model::OutOfMemory;
use std::alloc::Global;
use std::thread::{Threads, join};

/// Runs the jobs by this many workers, of which the first has the number `first`. Half of the workers take the front part of the
/// jobs on a thread of their own, the others the back part on this one, and so on within each half; the cut is where the steps of
/// the two parts are nearest to equal. Each worker makes one call of the gate, with its number and all of its part, also an
/// empty one. Where the system refuses a thread, its part runs on the caller's, after the other part. What it gives are the answers of
/// each worker, in the order of their numbers.
///
/// # Errors
/// Where memory was refused; all threads have ended.
pub(crate) fn run_in_halves<R: Threads + Sync, G: ShardGate + Sync>(
    rt: &R,
    alloc: Global,
    gate: &G,
    first: usize,
    workers: usize,
    jobs: Vec<LineJob>,
) -> Result<Vec<Vec<LineAnswer>>, OutOfMemory>
    requires count { IsTrue (is_worker_count workers) }
    requires numbered { first + workers ≤ 16 }
    ensures { IfOk result (λ parts. AreAnswersTo jobs.items (flat_map (λ part. part.items) parts.items)) }
{
    if workers == 1 {
        let answers = gate.run(alloc, first, jobs)?;
        return one_part(alloc, answers);
    }
    let half = workers / 2;
    let mut front = jobs;
    let at = fair_cut(front.as_slice());
    let back = front.split_off(at)?;
    let (parts, more) = join(
        rt,
        move || -> Result<Vec<Vec<LineAnswer>>, OutOfMemory>
            requires { IsSync R.row × IsSync G.row × IsTrue (is_worker_count half) × (first + half ≤ 16) }
            ensures { IfOk result (λ parts. AreAnswersTo front.items (flat_map (λ part. part.items) parts.items)) }
        { run_in_halves(rt, alloc, gate, first, half, front) },
        move || -> Result<Vec<Vec<LineAnswer>>, OutOfMemory>
            requires { IsSync R.row × IsSync G.row × IsTrue (is_worker_count half) × (first + half + half ≤ 16) }
            ensures { IfOk result (λ parts. AreAnswersTo back.items (flat_map (λ part. part.items) parts.items)) }
        { run_in_halves(rt, alloc, gate, first + half, half, back) },
    );
    joined(parts?, more?)
}

// The answers of one worker alone.
fn one_part(alloc: Global, answers: Vec<LineAnswer>) -> Result<Vec<Vec<LineAnswer>>, OutOfMemory>
    ensures { IfOk result (λ parts. flat_map (λ part. part.items) parts.items ≡ answers.items) }
{
    let mut parts = Vec::with_capacity(alloc, 1)?;
    parts.push(answers)?;
    Ok(parts)
}

// The answers of the workers of the front part and then those of the back part.
fn joined(
    front: Vec<Vec<LineAnswer>>,
    back: Vec<Vec<LineAnswer>>,
) -> Result<Vec<Vec<LineAnswer>>, OutOfMemory>
    ensures { IfOk result (λ parts. parts.items ≡ front.items ++ back.items) }
{
    let mut all = front;
    let mut back = back;
    all.append(&mut back)?;
    Ok(all)
}
