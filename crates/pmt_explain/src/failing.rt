//! The crash that violates a failed assertion.

ghost use Rattle.std.specs.Prelude.{◌≡◌, ◌≤◌, ℕ, length, IfOk, MatchOption, None};
ghost use Rattle.pmt_laws.specs.Prelude.{Stores, IsAct, history, Written, PersistPasses, OrderedPasses};
ghost use Rattle.pmt_reasons.specs.Failures.{IsFailureAt, IsPersistFailure, IsOrderedFailure};
ghost use Rattle.pmt_explain.specs.Crashes.{Anywhere, IsFirstAmong, IsStoreOff, KeepsWithout, IsCrashAfter, IsFirstCrash};
ghost use Rattle.pmt_explain.specs.Following.{AreSafePlaces};
ghost use Rattle.pmt_explain.specs.Writers.{Knows};

use crate::LastWriters;
use crate::first_in::first_in;
use crate::lost::line_of_store;
use crate::saving::SafePlaces;
use crate::wanted::Wanted;
use pmt_model::{Op, OutOfMemory, Range, Trace};
use pmt_reasons::{ByteStore, Failure};
use std::alloc::Global;

/// The crash that violates the assertion with this number: of an isPersist one at its place, which loses the first store that it
/// can; of an isOrderedBefore one right after the first store that can be kept without another, which loses the first such one.
/// Stores go by their numbers, and then the lowest byte is told. None where the assertion passes, and where the event is no
/// assertion or there is none.
///
/// It takes at most four looks at each event.
///
/// # Errors
/// Where memory was refused.
pub fn failure(alloc: Global, trace: &Trace, number: u64) -> Result<Option<Failure>, OutOfMemory>
    ensures { IfOk result (IsFailureAt trace.now number) }
{
    let safe = SafePlaces::of(alloc, trace)?;
    failure_by(alloc, &safe, number)
}

/// What `failure` tells of the trace of these places. It takes at most two looks at each event.
///
/// # Errors
/// Where memory was refused.
pub fn failure_by(
    alloc: Global,
    safe: &SafePlaces<'_>,
    number: u64,
) -> Result<Option<Failure>, OutOfMemory>
    ensures { IfOk result (IsFailureAt safe.now.trace.now number) }
{
    let trace = safe.trace();
    let safe = safe.places();
    let Some(event) = trace.get(number) else {
        return Ok(None);
    };
    let op = event.op;
    match op {
        Op::IsPersist(range) => failure_of_persist(alloc, trace, safe, number, range),
        Op::IsOrderedBefore(first, second) => {
            failure_of_ordered(alloc, trace, safe, number, first, second)
        }
        Op::Store(_) | Op::Clwb(_) | Op::ClflushOpt(_) | Op::Clflush(_) | Op::Sfence | Op::Mfence =>
            Ok(None),
    }
}

// The crash that violates the isPersist of the range at the event with this number.
fn failure_of_persist(
    alloc: Global,
    trace: &Trace,
    safe: &[u64],
    number: u64,
    range: Range,
) -> Result<Option<Failure>, OutOfMemory>
    requires number { number ≤ length trace.now.events }
    requires safe { AreSafePlaces trace.now safe.now }
    ensures { IfOk result (λ o. MatchOption o (PersistPasses (history trace.now number) range) (IsPersistFailure trace.now number range)) }
{
    let low = range.addr().get();
    let mut writers = LastWriters::between(alloc, low, low + range.len());
    writers.go_to(alloc, trace, number)?;
    Ok(persist_failure(trace, safe, number, range, &writers))
}

// The crash that violates the isOrderedBefore of the two ranges at the event with this number.
fn failure_of_ordered(
    alloc: Global,
    trace: &Trace,
    safe: &[u64],
    number: u64,
    first: Range,
    second: Range,
) -> Result<Option<Failure>, OutOfMemory>
    requires number { number ≤ length trace.now.events }
    requires safe { AreSafePlaces trace.now safe.now }
    ensures { IfOk result (λ o. MatchOption o (OrderedPasses (history trace.now number) first second) (IsOrderedFailure trace.now number first second)) }
{
    let low = first.addr().get();
    let high = low + first.len();
    let other = second.addr().get();
    let end = other + second.len();
    let mut writers = LastWriters::between(alloc, low.min(other), high.max(end));
    writers.go_to(alloc, trace, number)?;
    Ok(ordered_failure(trace, safe, number, first, second, &writers))
}

/// The crash that violates the isPersist of the range at the event with this number, if it fails. Here `safe` has the places that
/// `safe_places` gives, and `writers` are those of the first `number` events.
///
/// It takes a look-up for each 64 bytes of the range, and where these may have that store a look at each word, and some four at each of
/// its bytes.
pub fn persist_failure(
    trace: &Trace,
    safe: &[u64],
    number: u64,
    range: Range,
    writers: &LastWriters,
) -> Option<Failure>
    requires number { number ≤ length trace.now.events }
    requires safe { AreSafePlaces trace.now safe.now }
    requires writers { Knows trace.now number range writers.now }
    ensures { MatchOption result (PersistPasses (history trace.now number) range) (IsPersistFailure trace.now number range) }
{
    let wanted = Wanted::Lost {
        place: number,
        full: None,
    };
    match first_in(writers, trace, safe, wanted, range) {
        None => None,
        Some(lost) => Some(Failure {
            place: number,
            kept: None,
            lost,
        }),
    }
}

/// The crash that violates the isOrderedBefore of the two ranges at the event with this number, if it fails. Here `safe` has the
/// places that `safe_places` gives, and `writers` are those of the first `number` events.
///
/// It takes at most four times as many looks as `persist_failure`.
pub fn ordered_failure(
    trace: &Trace,
    safe: &[u64],
    number: u64,
    first: Range,
    second: Range,
    writers: &LastWriters,
) -> Option<Failure>
    requires safe { AreSafePlaces trace.now safe.now }
    requires first { Knows trace.now number first writers.now }
    requires second { Knows trace.now number second writers.now }
    ensures { MatchOption result (OrderedPasses (history trace.now number) first second) (IsOrderedFailure trace.now number first second) }
{
    first_kept(trace, safe, number, first, second, writers)
}

// The crash after the first of the kept stores that can be kept without another one. Later stores to a line need no look, since
// what is lost after them is lost after the line's first one; nor do any after the first one of a second line, since what is lost
// after them is lost after one of these two.
fn first_kept(
    trace: &Trace,
    safe: &[u64],
    number: u64,
    lost: Range,
    kept: Range,
    writers: &LastWriters,
) -> Option<Failure>
    requires safe { AreSafePlaces trace.now safe.now }
    requires lost { Knows trace.now number lost writers.now }
    requires kept { Knows trace.now number kept writers.now }
    ensures { IsFirstCrash trace.now number lost kept result }
{
    match first_in(writers, trace, safe, Wanted::Off { line: None }, kept) {
        None => None,
        Some(first) => match crash_after(trace, safe, number, lost, writers, first) {
            Some(failure) => Some(failure),
            None => second_kept(trace, safe, number, lost, kept, writers, first),
        },
    }
}

// The same, where the first store can not be kept without another.
fn second_kept(
    trace: &Trace,
    safe: &[u64],
    number: u64,
    lost: Range,
    kept: Range,
    writers: &LastWriters,
    first: ByteStore,
) -> Option<Failure>
    requires safe { AreSafePlaces trace.now safe.now }
    requires lost { Knows trace.now number lost writers.now }
    requires kept { Knows trace.now number kept writers.now }
    requires first { IsFirstAmong trace.now number kept (IsStoreOff trace.now None) Anywhere first }
    requires none { ¬ KeepsWithout trace.now number lost first.store }
    ensures { IsFirstCrash trace.now number lost kept result }
{
    let line = line_of_store(trace, first.store);
    match first_in(writers, trace, safe, Wanted::Off { line }, kept) {
        None => None,
        Some(second) => crash_after(trace, safe, number, lost, writers, second),
    }
}

// The crash right after the kept store, all stores to its line being persisted.
fn crash_after(
    trace: &Trace,
    safe: &[u64],
    number: u64,
    lost: Range,
    writers: &LastWriters,
    kept: ByteStore,
) -> Option<Failure>
    requires safe { AreSafePlaces trace.now safe.now }
    requires lost { Knows trace.now number lost writers.now }
    ensures { MatchOption result (KeepsWithout trace.now number lost kept.store → ⊥) (IsCrashAfter trace.now number lost kept) }
{
    match line_of_store(trace, kept.store) {
        None => None,
        Some(line) => crash_keeping(trace, safe, number, lost, writers, kept, line),
    }
}

// The same, where this is the line of the kept store.
fn crash_keeping(
    trace: &Trace,
    safe: &[u64],
    number: u64,
    range: Range,
    writers: &LastWriters,
    kept: ByteStore,
    line: u64,
) -> Option<Failure>
    requires safe { AreSafePlaces trace.now safe.now }
    requires range { Knows trace.now number range writers.now }
    requires store { (w : Written) × IsAct trace.now kept.store (Stores line w) }
    ensures { MatchOption result (KeepsWithout trace.now number range kept.store → ⊥) (IsCrashAfter trace.now number range kept) }
{
    let wanted = Wanted::Lost {
        place: kept.store,
        full: Some(line),
    };
    match first_in(writers, trace, safe, wanted, range) {
        None => None,
        Some(lost) => Some(Failure {
            place: kept.store,
            kept: Some(kept),
            lost,
        }),
    }
}
