//! Failed assertions, in groups.

ghost use Rattle.std.specs.Prelude.{◌≡◌, ◌≤◌, length, IfOk, IfSome, OnOk, MatchOption};
ghost use Rattle.pmt_explain.specs.Prelude.{history, PersistPasses, OrderedPasses, option_map, IsFailureAt, IsPersistFailure, IsOrderedFailure};
ghost use Rattle.pmt_explain.specs.Following.{AreSafePlaces, AreNextFlushes, IsUpcoming};
ghost use Rattle.pmt_causes.specs.Groups.{AreFailureGroups, AreKeyed, IsFailureKey, key_by, with_keyed};
ghost use Rattle.pmt_causes.specs.Writers.{AreAllWriters};

use crate::failure_keys::{AssertionKind, FailureKey, key_of};
use crate::grouping::{Group, Keyed, groups};
use pmt_explain::{
    LastWriters, SafePlaces, Upcoming, next_flushes, ordered_failure, persist_failure,
};
use pmt_model::{Op, OutOfMemory, Range, Trace};
use pmt_reasons::Failure;
use std::alloc::Global;

/// Those of these events that are assertions and fail, in groups by their keys, where `frames` has the numbers of their innermost frames:
/// those with most members first, and of as many members that with the lowest first one. The failure of each is that which
/// `pmt_explain::failure` tells. `upcoming` is what comes next after each event, if that is known.
///
/// It takes at most a look at each event, where the numbers rise, and at each of these assertions what `pmt_explain::persist_failure` and
/// `ordered_failure` take; and what `pmt_explain::next_flushes` takes, if what comes next is not known.
///
/// # Errors
/// Where memory was refused.
pub fn failure_groups(
    alloc: Global,
    safe: &SafePlaces<'_>,
    frames: &[Option<u64>],
    numbers: &[u64],
    upcoming: &Option<Upcoming>,
) -> Result<Vec<Group<FailureKey>>, OutOfMemory>
    requires { IfSome upcoming.now (IsUpcoming safe.now.trace.now) }
    ensures { IfOk result (λ groups. AreFailureGroups safe.now.trace.now frames.now numbers.now groups.items) }
{
    let trace = safe.trace();
    let places = safe.places();
    match upcoming {
        Some(upcoming) => {
            let flushes = upcoming.flushes.as_slice();
            groups_of(alloc, trace, places, flushes, frames, numbers)
        }
        None => {
            let flushes = next_flushes(alloc, trace)?;
            groups_of(alloc, trace, places, flushes.as_slice(), frames, numbers)
        }
    }
}

// Those of these events that are assertions and fail, by cause.
fn groups_of(
    alloc: Global,
    trace: &Trace,
    safe: &[u64],
    flushes: &[u64],
    frames: &[Option<u64>],
    numbers: &[u64],
) -> Result<Vec<Group<FailureKey>>, OutOfMemory>
    requires safe { AreSafePlaces trace.now safe.now }
    requires flushes { AreNextFlushes trace.now flushes.now }
    ensures { IfOk result (λ groups. AreFailureGroups trace.now frames.now numbers.now groups.items) }
{
    let failures = failures_of(alloc, trace, frames, safe, flushes, numbers)?;
    let groups = groups(alloc, failures.as_slice())?;
    Ok(groups)
}

// Those of these events that are assertions and fail, each with its key.
fn failures_of(
    alloc: Global,
    trace: &Trace,
    labels: &[Option<u64>],
    safe: &[u64],
    flushes: &[u64],
    numbers: &[u64],
) -> Result<Vec<Keyed<FailureKey>>, OutOfMemory>
    requires safe { AreSafePlaces trace.now safe.now }
    requires flushes { AreNextFlushes trace.now flushes.now }
    ensures { IfOk result (λ found. AreKeyed trace.now labels.now numbers.now found.items) }
{
    let mut writers = LastWriters::new(alloc);
    let mut items = Vec::new(alloc);
    for number in numbers {
        let key = key_at(alloc, trace, labels, safe, flushes, &mut writers, *number)?;
        push_keyed(&mut items, *number, key)?;
    }
    Ok(items)
}

// Adds the event, if it fails.
fn push_keyed(
    items: &mut Vec<Keyed<FailureKey>>,
    number: u64,
    key: Option<FailureKey>,
) -> Result<(), OutOfMemory>
    ensures { OnOk result (items.new.items ≡ with_keyed number key items.old.items) }
{
    match key {
        None => Ok(()),
        Some(key) => {
            items.push(Keyed { key, number })?;
            Ok(())
        }
    }
}

// The key of the assertion with this number, if it is one and fails.
fn key_at(
    alloc: Global,
    trace: &Trace,
    labels: &[Option<u64>],
    safe: &[u64],
    flushes: &[u64],
    writers: &mut LastWriters,
    number: u64,
) -> Result<Option<FailureKey>, OutOfMemory>
    requires safe { AreSafePlaces trace.now safe.now }
    requires flushes { AreNextFlushes trace.now flushes.now }
    requires writers { AreAllWriters trace.now writers.old }
    ensures key { IfOk result (λ o. MatchOption o (IsFailureAt trace.now number None) (IsFailureKey trace.now labels.now number)) }
    ensures writers { OnOk result (AreAllWriters trace.now writers.new) }
{
    let Some(event) = trace.get(number) else {
        return Ok(None);
    };
    let thread = event.thread;
    let op = event.op;
    match op {
        Op::IsPersist(range) => {
            let found = persist_at(alloc, trace, safe, writers, number, range)?;
            Ok(found_key(
                labels,
                flushes,
                number,
                thread,
                AssertionKind::Persist,
                found,
            ))
        }
        Op::IsOrderedBefore(range, second) => {
            let found = ordered_at(alloc, trace, safe, writers, number, range, second)?;
            Ok(found_key(
                labels,
                flushes,
                number,
                thread,
                AssertionKind::Ordered,
                found,
            ))
        }
        Op::Store(_) | Op::Clwb(_) | Op::ClflushOpt(_) | Op::Clflush(_) | Op::Sfence | Op::Mfence =>
            Ok(None),
    }
}

// The key of the assertion with this number, if a crash violates it.
fn found_key(
    labels: &[Option<u64>],
    flushes: &[u64],
    number: u64,
    thread: u8,
    kind: AssertionKind,
    found: Option<Failure>,
) -> Option<FailureKey>
    ensures { result ≡ option_map (key_by labels.now flushes.now number thread kind) found }
{
    match found {
        None => None,
        Some(failure) => Some(key_of(labels, flushes, number, thread, kind, &failure)),
    }
}

// The crash that violates the isPersist of the range at the event with this number.
fn persist_at(
    alloc: Global,
    trace: &Trace,
    safe: &[u64],
    writers: &mut LastWriters,
    number: u64,
    range: Range,
) -> Result<Option<Failure>, OutOfMemory>
    requires number { number ≤ length trace.now.events }
    requires safe { AreSafePlaces trace.now safe.now }
    requires writers { AreAllWriters trace.now writers.old }
    ensures failure { IfOk result (λ o. MatchOption o (PersistPasses (history trace.now number) range) (IsPersistFailure trace.now number range)) }
    ensures writers { OnOk result (AreAllWriters trace.now writers.new) }
{
    let _len = range.len();
    writers.go_to(alloc, trace, number)?;
    Ok(persist_failure(trace, safe, number, range, writers))
}

// The crash that violates the isOrderedBefore of the two ranges at the event with this number.
fn ordered_at(
    alloc: Global,
    trace: &Trace,
    safe: &[u64],
    writers: &mut LastWriters,
    number: u64,
    first: Range,
    second: Range,
) -> Result<Option<Failure>, OutOfMemory>
    requires number { number ≤ length trace.now.events }
    requires safe { AreSafePlaces trace.now safe.now }
    requires writers { AreAllWriters trace.now writers.old }
    ensures failure { IfOk result (λ o. MatchOption o (OrderedPasses (history trace.now number) first second) (IsOrderedFailure trace.now number first second)) }
    ensures writers { OnOk result (AreAllWriters trace.now writers.new) }
{
    let _lens = (first.len(), second.len());
    writers.go_to(alloc, trace, number)?;
    Ok(ordered_failure(trace, safe, number, first, second, writers))
}
