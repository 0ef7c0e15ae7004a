//! Failed assertions in full.
ghost use Rattle.std.specs.Prelude.{◌≡◌, IfOk, MatchOption, None};
ghost use Rattle.pmt_reasons.specs.Failures.{IsFailureAt};
ghost use Rattle.pmt_failures.specs.Showing.{failing_events as failing_in, AreRangesAfter, AreShown, IsRangeAfter, IsShown, IsShownCrash, failure_mend, lines_with_loss, store_line};

use crate::mending::mend_for;
use pmt_explain::{CrashByte, LineCount, SafePlaces, cause, crash_bytes, crash_lines, failure_by};
use pmt_model::{Op, OutOfMemory, Range, Trace, Verdict, line_of};
use pmt_reasons::{Cause, Failure, Mend};
use std::alloc::Global;

/// What memory holds in a range after a crash.
#[derive(Drop)]
pub struct RangeAfter {
    /// The range.
    pub range: Range,
    /// Its bytes, lowest first.
    pub bytes: Vec<CrashByte>,
}

/// A failed assertion, with a crash that violates it.
#[derive(Clone, Copy)]
pub struct ShownFailure {
    /// The assertion's event.
    pub event: u64,
    /// The crash.
    pub failure: Failure,
    /// Why the lost store is not safe at the crash's place.
    pub cause: Cause,
    /// What makes it safe there: with it put in, no crash up to the assertion loses the store, or keeps the other without it.
    pub mend: Mend,
}

// The most lines of a crash that are told.
const MOST_LINES: usize = 100;

/// A failed assertion, and what its crash leaves. As large as the trace may be what crashes leave, so it is made of one failure at a time.
#[derive(Drop)]
pub struct ShownCrash {
    /// The failed assertion.
    pub shown: ShownFailure,
    /// How many stores are persisted after the crash, of each of the first 100 lines that lose one.
    pub lines: Vec<LineCount>,
    /// How many further lines lose one.
    pub more_lines: u64,
    /// How many lines lose none of their stores.
    pub whole_lines: u64,
    /// What memory holds in the assertion's range, or in its two ranges, after the crash.
    pub ranges: Vec<RangeAfter>,
}

/// The events of the verdicts that fail.
///
/// # Errors
/// Where memory was refused.
pub fn failing_events(alloc: Global, verdicts: &[Verdict]) -> Result<Vec<u64>, OutOfMemory>
    ensures { IfOk result (λ failing. failing.items ≡ failing_in verdicts.now) }
{
    verdicts
        .iter()
        .filter(|verdict| !verdict.pass)
        .map(|verdict| verdict.event)
        .collect(alloc)
}

/// Of these events of the trace of these places, those that are assertions and fail, in the same order, each with its failure in full.
///
/// # Errors
/// Where memory was refused.
pub fn shown_failures(
    alloc: Global,
    safe: &SafePlaces<'_>,
    failing: &[u64],
) -> Result<Vec<ShownFailure>, OutOfMemory>
    ensures { IfOk result (λ shown. AreShown safe.now.trace.now failing.now shown.items) }
{
    let mut shown = Vec::new(alloc);
    for number in failing {
        if let Some(found) = shown_failure(alloc, safe, *number)? {
            shown.push(found)?;
        }
    }
    Ok(shown)
}

// The failure of the assertion, if it fails.
fn shown_failure(
    alloc: Global,
    safe: &SafePlaces<'_>,
    number: u64,
) -> Result<Option<ShownFailure>, OutOfMemory>
    ensures { IfOk result (λ o. MatchOption o (IsFailureAt safe.now.trace.now number None) (λ s. IsShown safe.now.trace.now s × (s.event ≡ number))) }
{
    let trace = safe.trace();
    let Some(found) = failure_by(alloc, safe, number)? else {
        return Ok(None);
    };
    let Some(why) = cause(trace, found.lost.store, found.place) else {
        return Ok(None);
    };
    Ok(Some(ShownFailure {
        event: number,
        failure: found,
        cause: why,
        mend: mend_of_failure(trace, &found, why),
    }))
}

/// The failed assertion, and what its crash leaves.
///
/// # Errors
/// Where memory was refused.
pub fn shown_crash(
    alloc: Global,
    trace: &Trace,
    shown: &ShownFailure,
) -> Result<ShownCrash, OutOfMemory>
    ensures crash { IfOk result (λ c. IsShownCrash trace.now c) }
    ensures same { IfOk result (λ c. c.shown ≡ shown.now) }
{
    let all_lines = crash_lines(alloc, trace, &shown.failure)?;
    let mut lines = losing_lines(alloc, all_lines.as_slice())?;
    let losing = lines.len();
    lines.truncate(MOST_LINES);
    let more_lines = losing.saturating_sub(MOST_LINES) as u64;
    let whole_lines = all_lines.len().saturating_sub(losing) as u64;
    let ranges = ranges_after(alloc, trace, shown.event, &shown.failure)?;
    Ok(ShownCrash {
        shown: *shown,
        lines,
        more_lines,
        whole_lines,
        ranges,
    })
}

// Those of the lines that lose a store.
fn losing_lines(alloc: Global, lines: &[LineCount]) -> Result<Vec<LineCount>, OutOfMemory>
    ensures { IfOk result (λ losing. losing.items ≡ lines_with_loss lines.now) }
{
    lines
        .iter()
        .copied()
        .filter(|line| line.persisted < line.stores)
        .collect(alloc)
}

// What makes the lost store safe at the crash's place: before the assertion, or before the store that is kept.
fn mend_of_failure(trace: &Trace, found: &Failure, why: Cause) -> Mend
    ensures { result ≡ failure_mend trace.now found.now why }
{
    let lost = line_of_store(trace, found.lost.store);
    let same_line = match found.kept {
        None => false,
        Some(kept) => line_of_store(trace, kept.store) == lost,
    };
    mend_for(
        why,
        lost.unwrap_or(0),
        found.lost.store,
        Some(found.place),
        same_line,
    )
}

// The line of the store with this number.
fn line_of_store(trace: &Trace, store: u64) -> Option<u64>
    ensures { result ≡ store_line trace.now store }
{
    let op = trace.get(store)?.op;
    match op {
        Op::Store(written) => Some(line_of(trace.format(), written.addr())),
        Op::Clwb(_)
        | Op::ClflushOpt(_)
        | Op::Clflush(_)
        | Op::Sfence
        | Op::Mfence
        | Op::IsPersist(_)
        | Op::IsOrderedBefore(_, _) => None,
    }
}

// What memory holds in the ranges of the assertion after the crash.
fn ranges_after(
    alloc: Global,
    trace: &Trace,
    number: u64,
    found: &Failure,
) -> Result<Vec<RangeAfter>, OutOfMemory>
    ensures { IfOk result (λ ranges. AreRangesAfter trace.now number found.now ranges.items) }
{
    let Some(event) = trace.get(number) else {
        return Ok(Vec::new(alloc));
    };
    let op = event.op;
    match op {
        Op::IsPersist(range) => {
            let after = range_after(alloc, trace, found, range)?;
            Ok(vec![in alloc; after]?)
        }
        Op::IsOrderedBefore(first, second) => {
            let after = range_after(alloc, trace, found, first)?;
            let behind = range_after(alloc, trace, found, second)?;
            Ok(vec![in alloc; after, behind]?)
        }
        Op::Store(_) | Op::Clwb(_) | Op::ClflushOpt(_) | Op::Clflush(_) | Op::Sfence | Op::Mfence =>
            Ok(Vec::new(alloc)),
    }
}

// What memory holds in the range after the crash.
fn range_after(
    alloc: Global,
    trace: &Trace,
    found: &Failure,
    range: Range,
) -> Result<RangeAfter, OutOfMemory>
    ensures right { IfOk result (IsRangeAfter trace.now found.now) }
    ensures same { IfOk result (λ after. after.range ≡ range) }
{
    let bytes = crash_bytes(alloc, trace, found, range)?;
    Ok(RangeAfter { range, bytes })
}
