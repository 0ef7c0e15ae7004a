//! The figures of a trace.

ghost use Rattle.std.specs.Prelude.{◌≡◌, ◌++◌, [], length, replicate, slice_set, IfOk, OnOk};
ghost use Rattle.pmt_fates.specs.Counting.{AreFew, counts_of, with_op, AreFigures, row_of, rows_below, counts_in};

use crate::counts::Counts;
use crate::fences::{FenceSizes, note};
use pmt_model::{Op, OutOfMemory, Trace};
use std::alloc::Global;

/// The figures of a trace.
#[derive(Drop)]
pub struct Figures {
    /// The counts of all events.
    pub all: Counts,
    /// Those of each thread that has events, by rising thread.
    pub threads: Vec<ThreadCounts>,
    /// How many flushes fences wait for.
    pub fences: FenceSizes,
}

/// What one thread has.
#[derive(Clone, Copy)]
pub struct ThreadCounts {
    /// The thread.
    pub thread: u8,
    /// The counts of its events.
    pub counts: Counts,
}

/// The figures of the trace, in one pass over its events.
///
/// # Errors
/// Where memory was refused.
pub fn figures_of(alloc: Global, trace: &Trace) -> Result<Figures, OutOfMemory>
    ensures { IfOk result (AreFigures trace.now.events) }
{
    let events = trace.events();
    let mut all = Counts::none();
    let mut threads = no_threads();
    let mut waits = [0; 256];
    let mut fences = FenceSizes::none();
    for event in events {
        all.add(event.op);
        count(&mut threads, event.thread, event.op);
        note(&mut waits, &mut fences, event.thread, event.op);
    }
    let threads = rows_of(alloc, &threads)?;
    Ok(Figures {
        all,
        threads,
        fences,
    })
}

// The counts of threads without events.
fn no_threads() -> [Counts; 256]
    ensures { result ≡ replicate 256 (counts_of []) }
{
    let none = Counts::none();
    [none; 256]
}

// Counts an event of the thread.
fn count(threads: &mut [Counts; 256], thread: u8, op: Op)
    requires table { length threads.old ≡ 256 }
    requires few { AreFew (counts_in threads.old thread) }
    ensures { threads.new ≡ slice_set threads.old thread (with_op op (counts_in threads.old thread)) }
{
    let mut counts = threads[thread as usize];
    counts.add(op);
    threads[thread as usize] = counts;
}

// A row for each thread that has events.
fn rows_of(alloc: Global, threads: &[Counts; 256]) -> Result<Vec<ThreadCounts>, OutOfMemory>
    requires { length threads.now ≡ 256 }
    ensures { IfOk result (λ rows. rows.items ≡ rows_below (counts_in threads.now) (length threads.now)) }
{
    let mut rows = Vec::new(alloc);
    for thread in 0..256u64 {
        push_row(&mut rows, thread as u8, threads[thread as usize])?;
    }
    Ok(rows)
}

// Adds the row of the thread, if it has events.
fn push_row(rows: &mut Vec<ThreadCounts>, thread: u8, counts: Counts) -> Result<(), OutOfMemory>
    ensures { OnOk result (rows.new.items ≡ rows.old.items ++ row_of thread counts) }
{
    if counts.events == 0 {
        return Ok(());
    }
    rows.push(ThreadCounts { thread, counts })?;
    Ok(())
}
