//! What a crash leaves of each line.

ghost use Rattle.std.specs.Prelude.{◌≡◌, ◌≤◌, ◌<◌, ◌+◌, ◌==◌, ℕ, suc, if◌then◌else◌, length, map, IfOk, OnOk, Option};
ghost use Rattle.indexmap.specs.IndexMap.{keys};
ghost use Rattle.pmt_model.specs.Traces.{act_of, event_limit, history, lines_of, with_line};
ghost use Rattle.pmt_explain.specs.Crashes.{full_line, line_count, count_in, raised, lines_after, count_after, AreCountsBy, IsCrashAt};

use crate::crash::Crash;
use indexmap::IndexMap;
use pmt_model::{Format, Op, OutOfMemory, Trace, line_of};
use pmt_reasons::Failure;
use std::alloc::{AllocError, Global};

/// How many stores of a line a crash leaves persisted.
#[derive(Clone, Copy)]
pub struct LineCount {
    /// The line, that is its first address divided by the line size.
    pub line: u64,
    /// How many stores to it come by the crash's place.
    pub stores: u64,
    /// How many of them are persisted: the oldest, in order.
    pub persisted: u64,
}

/// The counts of the lines that are stored or flushed, by line, in order of first appearance.
type Counts = IndexMap<u64, LineCount>;

/// What the crash of the failure leaves of each line that is stored or flushed among the first `failure.place` events, in order of
/// first appearance: as many stores as are safe there, but all of the line of the kept store, if one is kept.
///
/// The failure may be any: a place after the last event counts as that of the last event, and a kept event that is no store as
/// none. It takes three looks at each event up to the place.
///
/// # Errors
/// Where memory was refused.
pub fn crash_lines(
    alloc: Global,
    trace: &Trace,
    failure: &Failure,
) -> Result<Vec<LineCount>, OutOfMemory>
    ensures { IfOk result (λ counts. counts.items ≡ map (line_count trace.now failure.now.place (full_line trace.now failure.now.kept)) (lines_of (history trace.now failure.now.place))) }
{
    let crash = Crash::of(alloc, trace, failure)?;
    let counts = counts_by(alloc, trace, &crash)?;
    listed(alloc, &counts)
}

// The counts by the crash's place.
fn counts_by(alloc: Global, trace: &Trace, crash: &Crash) -> Result<Counts, OutOfMemory>
    requires { crash.now.place ≤ length trace.now.events }
    ensures { IfOk result (AreCountsBy trace.now crash.now crash.now.place) }
{
    let format = trace.format();
    let events = trace.events();
    let mut counts = IndexMap::new(alloc);
    for index in 0..crash.place as usize {
        let event = events[index];
        count_op(
            &mut counts,
            crash,
            format,
            event.thread,
            event.op,
            index as u64 + 1,
        )?;
    }
    Ok(counts)
}

// Counts the event with this number.
fn count_op(
    counts: &mut Counts,
    crash: &Crash,
    format: Format,
    thread: u8,
    op: Op,
    number: u64,
) -> Result<(), OutOfMemory>
    requires number { number ≤ event_limit }
    requires below { (l : ℕ) → ((count_in counts.old l).stores < number) × ((count_in counts.old l).persisted < number) }
    ensures lines { OnOk result (keys counts.new ≡ lines_after (act_of format thread op) (keys counts.old)) }
    ensures each { OnOk result ((l : ℕ) → count_in counts.new l ≡ count_after crash.now number (act_of format thread op) l (count_in counts.old l)) }
{
    match op {
        Op::Store(store) => {
            let line = line_of(format, store.addr());
            let persisted = if number <= crash.persisted_to(line) {
                1
            } else {
                0
            };
            count(counts, line, 1, persisted)?;
            Ok(())
        }
        Op::Clwb(addr) | Op::ClflushOpt(addr) | Op::Clflush(addr) => {
            count(counts, line_of(format, addr), 0, 0)?;
            Ok(())
        }
        Op::Sfence | Op::Mfence | Op::IsPersist(_) | Op::IsOrderedBefore(_, _) => Ok(()),
    }
}

// Counts so many stores more to the line, of which so many are persisted.
fn count(counts: &mut Counts, line: u64, stores: u64, persisted: u64) -> Result<(), OutOfMemory>
    requires stores { (count_in counts.old line).stores + stores ≤ event_limit }
    requires persisted { (count_in counts.old line).persisted + persisted ≤ event_limit }
    ensures lines { OnOk result (keys counts.new ≡ with_line line (keys counts.old)) }
    ensures each { OnOk result ((l : ℕ) → count_in counts.new l ≡ (if line == l then raised (count_in counts.old l) stores persisted else count_in counts.old l)) }
{
    let old = count_of(counts, line);
    let new = LineCount {
        line: old.line,
        stores: old.stores + stores,
        persisted: old.persisted + persisted,
    };
    match counts.insert(line, new) {
        Ok(_) => Ok(()),
        Err(_) => Err(AllocError),
    }
}

// The count of the line.
fn count_of(counts: &Counts, line: u64) -> LineCount
    ensures { result ≡ count_in counts.now line }
{
    match counts.get(&line) {
        Some(count) => *count,
        None => LineCount {
            line,
            stores: 0,
            persisted: 0,
        },
    }
}

// The counts in their order.
fn listed(alloc: Global, counts: &Counts) -> Result<Vec<LineCount>, OutOfMemory>
    ensures { IfOk result (λ list. list.items ≡ map (λ l. count_in counts.now l) (keys counts.now)) }
{
    counts
        .keys()
        .map(|line| count_of(counts, *line))
        .collect(alloc)
}
