//! Tests of the workers over forty lines (forty_lines).
ghost use Rattle.std.specs.Prelude.{◌≤◌};

use pmt_lines::LineJob;
use pmt_model::{Event, Op, OutOfMemory, Trace};
use pmt_text::ListSource;
use pmt_workers::{LineAnswer, ShardGate, analyse_with, run_shard};
use std::alloc::Global;
use std::process::Abort;
use std::sync::atomic::{AtomicU64, Ordering};
use std::test::Fail;
use std::thread;
use std::thread::Threads;

// Adds the op as an event of thread 0.
fn add(trace: &mut Trace, op: Op) -> Result<(), Fail> {
    trace.push(Event { thread: 0, op })?;
    Ok(())
}

// The trace of so many stores to a line each, a flush of each, and two fences.
fn trace_of(alloc: Global, lines: u64) -> Result<Trace, Fail>
    requires { lines ≤ 40 }
{
    let mut trace = Trace::new(alloc);
    for line in 0..lines {
        add(&mut trace, Op::store(0x1000 + 64 * line, &[1])?)?;
    }
    for line in 0..lines {
        add(&mut trace, Op::clwb(0x1000 + 64 * line)?)?;
    }
    add(&mut trace, Op::Sfence)?;
    add(&mut trace, Op::Sfence)?;
    Ok(trace)
}

// Holds each worker until all have come, and notes which came and how many jobs they brought.
#[derive(Drop)]
struct Meeting {
    workers: u64,
    begun: AtomicU64,
    numbers: AtomicU64,
    met: AtomicU64,
    jobs: AtomicU64,
    most: AtomicU64,
}

impl ShardGate for Meeting {
    fn run(
        &self,
        alloc: Global,
        worker: usize,
        jobs: Vec<LineJob>,
    ) -> Result<Vec<LineAnswer>, OutOfMemory> {
        if worker < 16 {
            self.numbers.fetch_or(1 << worker, Ordering::SeqCst);
        }
        self.jobs.fetch_add(jobs.len() as u64, Ordering::SeqCst);
        self.most.fetch_max(jobs.len() as u64, Ordering::SeqCst);
        self.begun.fetch_add(1, Ordering::SeqCst);
        for _ in 0..100_000_000u64 {
            if self.begun.load(Ordering::SeqCst) >= self.workers {
                self.met.fetch_add(1, Ordering::SeqCst);
                break;
            }
            thread::yield_now();
        }
        run_shard(alloc, jobs)
    }
}

fn new_meeting(workers: u64) -> Meeting {
    Meeting {
        workers,
        begun: AtomicU64::new(0),
        numbers: AtomicU64::new(0),
        met: AtomicU64::new(0),
        jobs: AtomicU64::new(0),
        most: AtomicU64::new(0),
    }
}

fn has_count(rt: &impl Abort, count: &AtomicU64, wanted: u64) {
    assert_eq!(rt; count.load(Ordering::SeqCst), wanted);
}

// All workers have come and met, each with its own number.
fn have_met(rt: &impl Abort, gate: &Meeting, workers: u64)
    requires { workers ≤ 16 }
{
    has_count(rt, &gate.begun, workers);
    has_count(rt, &gate.met, workers);
    has_count(rt, &gate.numbers, (1u64 << workers).wrapping_sub(1));
}

// So many workers are at work at once, each with its part of the jobs, at most so many.
fn meet<R: Threads + Abort + Sync>(
    rt: &R,
    alloc: Global,
    workers: u64,
    lines: u64,
    most: u64,
) -> Result<(), Fail>
    requires { (workers ≤ 16) × (lines ≤ 40) }
{
    let gate = new_meeting(workers);
    let trace = trace_of(alloc, lines)?;
    let mut source = ListSource::new(&trace);
    let analysis = analyse_with(rt, alloc, &gate, &mut source, workers as usize)?;
    have_met(rt, &gate, workers);
    has_count(rt, &gate.most, most);
    has_count(rt, &gate.jobs, lines);
    assert_eq!(rt; analysis.lines() as u64, lines);
    Ok(())
}

#[test]
fn all_on_the_callers_thread(rt: HostRuntime) -> Result<(), Fail> {
    meet(&rt, rt.alloc(), 1, 40, 40)?;
    meet(&rt, rt.alloc(), 2, 40, 20)?;
    meet(&rt, rt.alloc(), 4, 40, 10)?;
    meet(&rt, rt.alloc(), 8, 40, 5)?;
    meet(&rt, rt.alloc(), 16, 40, 3)?;
    meet(&rt, rt.alloc(), 16, 1, 1)?;
    meet(&rt, rt.alloc(), 4, 0, 0)
}
