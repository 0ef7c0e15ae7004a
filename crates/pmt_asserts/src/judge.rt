//! The verdicts of the assertions of a trace.
ghost use Rattle.std.specs.Prelude.{◌≡◌, ◌≢◌, ℕ, ◌+◌, ◌<◌, ◌≤◌, ◌^◌, ◌↔◌, IsTrue, false, IfOk, IfSome, length, Option, Some};
ghost use Rattle.pmt_laws.specs.Prelude.{line_of, Recording, event, history, InSpan, PersistPasses, OrderedPasses, IsVerdicts};
ghost use Rattle.pmt_asserts.specs.Tables.{AreResultsOf, IsUnwritten, AreAssertions, asserts, IsEarliestOf, IsVerdictAt, IsLineInOrder, IsLineOrdered, Knows, earlier_of, place_for};

use crate::oldest::{Earliest, Oldest};
use crate::tables::Tables;
use pmt_model::{Format, Op, OutOfMemory, Range, Trace, Verdict};
use rayon::prelude::*;
use std::alloc::Global;
use std::thread::Threads;

// How few assertions are worth a thread of their own.
const LEAST_SHARE: usize = 64;

/// The verdicts of all assertions of the trace, in event order, judged by as many threads as there is work for.
///
/// The tables are those of the results of all jobs of one `split` of the trace.
///
/// # Errors
/// Where memory was refused.
pub fn verdicts(
    rt: &(impl Threads + Sync),
    alloc: Global,
    tables: &Tables,
    trace: &Trace,
) -> Result<Vec<Verdict>, OutOfMemory>
    requires { AreResultsOf trace.now tables.now }
    ensures { IfOk result (λ all. IsVerdicts trace.now all.items) }
{
    let numbers = assertions(alloc, trace)?;
    numbers
        .par_iter()
        .with_min_len(LEAST_SHARE)
        .filter_map(
            |number: &u64| -> Option<Verdict>
                requires { AreResultsOf trace.now tables.now }
                ensures { IsVerdictAt trace.entry.now number.now result }
            { verdict(tables, trace, *number) },
        )
        .collect(rt, alloc)
}

// The numbers of the assertions of the trace.
fn assertions(alloc: Global, trace: &Trace) -> Result<Vec<u64>, OutOfMemory>
    ensures { IfOk result (λ numbers. AreAssertions trace.now (length trace.now.events) numbers.items) }
{
    let mut numbers = Vec::new(alloc);
    for (index, event) in trace.events().iter().enumerate() {
        if is_assertion(event.op) {
            numbers.push(index as u64 + 1)?;
        }
    }
    Ok(numbers)
}

// Whether the op is an assertion.
fn is_assertion(op: Op) -> bool
    ensures { result ≡ asserts op }
{
    match op {
        Op::IsPersist(_) | Op::IsOrderedBefore(_, _) => true,
        Op::Store(_) | Op::Clwb(_) | Op::ClflushOpt(_) | Op::Clflush(_) | Op::Sfence | Op::Mfence =>
            false,
    }
}

/// The verdict of the event with this number; none where it is no assertion or there is no such event.
///
/// The tables are those of the results of all jobs of one `split` of the trace.
pub fn verdict(tables: &Tables, trace: &Trace, number: u64) -> Option<Verdict>
    requires { AreResultsOf trace.now tables.now }
    ensures { IsVerdictAt trace.now number result }
{
    let op = trace.get(number)?.op;
    let format = trace.format();
    match op {
        Op::IsPersist(range) => Some(Verdict {
            event: number,
            ordered: false,
            pass: persists(tables, format, number, range),
        }),
        Op::IsOrderedBefore(first, second) => Some(Verdict {
            event: number,
            ordered: true,
            pass: is_ordered(tables, format, number, first, second),
        }),
        _ => None,
    }
}

// Whether isPersist passes after the event with this number.
fn persists(tables: &Tables, format: Format, number: u64, range: Range) -> bool
    ensures { (T : Recording) → Knows tables.now format number T → (IsTrue result ↔ PersistPasses (history T number) range) }
{
    let (first, end) = lines_of(format, range);
    for line in first..end {
        if !tables.is_line_persisted(format, range, line, number, number) {
            return false;
        }
    }
    true
}

// The first line of the range, and the one after its last.
fn lines_of(format: Format, range: Range) -> (u64, u64)
    ensures lines { (T : Recording) (b : ℕ) → T.format ≡ format → InSpan range b → (result.0 ≤ line_of T.format b) × (line_of T.format b < result.1) }
    ensures some { result.0 < result.1 }
    ensures within { result.1 ≤ 2 ^ 48 }
{
    let size = format.line_size();
    let first = range.addr().get();
    let last = first + range.len() - 1;
    (first / size, last / size + 1)
}

// Of the last ones of the events up to this number that store to a byte of the range, the first, where those to one line may
// be left out.
fn earliest(
    tables: &Tables,
    format: Format,
    number: u64,
    range: Range,
    skipped: Option<u64>,
) -> Option<Earliest>
    ensures { (T : Recording) → Knows tables.now format number T → IsEarliestOf T number skipped range result }
{
    let (first, end) = lines_of(format, range);
    let mut earliest = None;
    for line in first..end {
        if skipped != Some(line) {
            let oldest = tables.line_oldest(format, range, line, number);
            earliest = earlier(earliest, line, oldest);
        }
    }
    earliest
}

// The earlier one of those of the lines before and that of this line.
fn earlier(earliest: Option<Earliest>, line: u64, oldest: Option<Oldest>) -> Option<Earliest>
    ensures { result ≡ earlier_of earliest line oldest }
{
    let Some(oldest) = oldest else {
        return earliest;
    };
    match earliest {
        Some(other) if other.number <= oldest.number => Some(other),
        _ => Some(Earliest {
            line,
            number: oldest.number,
        }),
    }
}

// Of the last ones of the events up to this number that store to a byte of the range, the first to another line than that of the
// earliest. It is looked for only where that line is one of the lines from `start` on, below `end`.
fn next_earliest(
    tables: &Tables,
    format: Format,
    number: u64,
    range: Range,
    found: Earliest,
    start: u64,
    end: u64,
) -> Option<Earliest>
    ensures { (T : Recording) → Knows tables.now format number T → start ≤ found.line → found.line < end → IsEarliestOf T number (Some found.line) range result }
{
    if start <= found.line && found.line < end {
        earliest(tables, format, number, range, Some(found.line))
    } else {
        None
    }
}

// Whether isOrderedBefore passes after the event with this number.
fn is_ordered(tables: &Tables, format: Format, number: u64, first: Range, second: Range) -> bool
    ensures { (T : Recording) → Knows tables.now format number T → (IsTrue result ↔ OrderedPasses (history T number) first second) }
{
    if !is_written(tables, format, number, first) {
        return true;
    }
    let Some(found) = earliest(tables, format, number, second, None) else {
        return true;
    };
    let (start, end) = lines_of(format, first);
    let other = next_earliest(tables, format, number, second, found, start, end);
    for line in start..end {
        let by = place_by(found, other, line);
        if !is_line_ordered(tables, format, number, first, second, line, by) {
            return false;
        }
    }
    true
}

// Whether one of the events up to this number stores to a byte of the range.
fn is_written(tables: &Tables, format: Format, number: u64, range: Range) -> bool
    ensures { result ≡ false → (T : Recording) → Knows tables.now format number T → (b : ℕ) → InSpan range b → IsUnwritten T number b }
{
    let (first, end) = lines_of(format, range);
    for line in first..end {
        if tables.line_oldest(format, range, line, number).is_some() {
            return true;
        }
    }
    false
}

// The place by which the stores to a line have to be persisted: that of the earliest store to another line.
fn place_by(found: Earliest, other: Option<Earliest>, line: u64) -> Option<u64>
    ensures { result ≡ place_for found other line }
{
    if line != found.line {
        return Some(found.number);
    }
    match other {
        None => None,
        Some(next) => Some(next.number),
    }
}

// Whether in this line the last stores to bytes of the first range come before those to bytes of the second, and are persisted
// for sure by a place.
fn is_line_ordered(
    tables: &Tables,
    format: Format,
    number: u64,
    first: Range,
    second: Range,
    line: u64,
    by: Option<u64>,
) -> bool
    requires line { line < 2 ^ 48 }
    ensures { (T : Recording) → Knows tables.now format number T → IfSome by (λ place. place ≤ number) → (IsTrue result ↔ IsLineOrdered T number first second line by) }
{
    if !is_line_in_order(tables, format, number, first, second, line) {
        return false;
    }
    match by {
        None => true,
        Some(place) => tables.is_line_persisted(format, first, line, number, place),
    }
}

// Whether in this line the last stores to bytes of the first range come before those to bytes of the second.
fn is_line_in_order(
    tables: &Tables,
    format: Format,
    number: u64,
    first: Range,
    second: Range,
    line: u64,
) -> bool
    requires line { line < 2 ^ 48 }
    ensures { (T : Recording) → Knows tables.now format number T → (IsTrue result ↔ IsLineInOrder T number first second line) }
{
    match tables.line_oldest(format, second, line, number) {
        None => true,
        Some(oldest) => tables.is_line_ranked(format, first, line, number, oldest.rank),
    }
}
