//! Flushes that their thread has not fenced when it stores to another line.

ghost use Rattle.std.specs.Prelude.{◌≡◌, ◌<◌, ℕ, None, true, false, if◌then◌else◌, filter, reverse, IfOk};
ghost use Rattle.pmt_model.specs.Traces.{act_of};
ghost use Rattle.pmt_model.specs.Analyses.{IsVerdicts};
ghost use Rattle.pmt_model.specs.Keeping.{IsKeep};
ghost use Rattle.pmt_hints.specs.Hints.{AreThose, IsOpenAtStore, IsOpenThroughout, IsToldOnPath, IsToldOpen};
ghost use Rattle.pmt_hints.specs.Numbers.{open_so};
ghost use Rattle.pmt_hints.specs.Contrasts.{AreClosed, AreShut, has_place, is_closed as is_closed_in, op_place as op_place_in, told_so};
ghost use Rattle.pmt_causes.specs.declared.failure_keys.Origin.{Origin};

use crate::claims::excused_flushes;
use crate::named::claimed_stores;
use crate::next_stores::NextStores;
use crate::numbers::{push_if, selection_of};
use crate::per_thread::PerThread;
use crate::places::{Places, flush_place, op_place};
use crate::waiting::has_store_while_open;
use pmt_causes::Origin;
use pmt_model::{Format, Op, OutOfMemory, Selection, Trace, Verdict, line_of};
use std::alloc::Global;

/// The flushes that are kept, and that their thread has not fenced when it stores to another line: what it stores there may persist
/// before what was flushed. `kept` is what is kept of the trace.
///
/// It takes one look at each event that is kept.
///
/// # Errors
/// Where memory was refused.
pub fn open_at_store(
    alloc: Global,
    trace: &Trace,
    kept: &Selection,
) -> Result<Selection, OutOfMemory>
    requires { IsKeep trace.now kept.now }
    ensures { IfOk result (AreThose (IsOpenAtStore trace.now)) }
{
    let mut closed = Places::new(alloc, &[])?;
    let open = open_numbers(alloc, trace, &[], kept.numbers(), &mut closed)?;
    Ok(selection_of(open))
}

/// Those of these flushes that are told: at whose place each flush that is kept is one, and none is excused. A flush is excused if a store
/// to its line is claimed, and no flush of the line that is kept comes between the two. `labels` are the numbers of the labels of the
/// events, in order; an event past their end has none. A place is a label, or without one a thread. `verdicts` are those of the trace.
///
/// It takes one look at each event until a thread stores while it has a flush open. If one does, it takes one at each event that is kept,
/// and another one at each of these flushes, and a label that is above the number of `labels` takes a look-up at each flush. Where there is
/// such a place, it takes what `claimed_stores` takes, and up to two look-ups at each store that is claimed and at each flush that is kept.
///
/// # Errors
/// Where memory was refused.
#[inline(always)]
pub fn told_open(
    alloc: Global,
    trace: &Trace,
    kept: &Selection,
    verdicts: &[Verdict],
    labels: &[Option<u64>],
) -> Result<Selection, OutOfMemory>
    requires kept { IsKeep trace.now kept.now }
    requires verdicts { IsVerdicts trace.now verdicts.now }
    ensures { IfOk result (AreThose (IsToldOpen trace.now labels.now)) }
{
    let open = open_throughout(alloc, trace, kept, labels)?;
    if open.is_empty() {
        return Ok(open);
    }
    let flushes = open.numbers();
    let claimed = claimed_stores(alloc, trace, verdicts)?;
    let excused = excused_flushes(alloc, trace, kept, flushes, claimed.as_slice())?;
    let closed = closed_places(alloc, trace, labels, excused.as_slice())?;
    let told = told_numbers(alloc, trace, labels, flushes, &closed)?;
    Ok(selection_of(told))
}

/// Those of these flushes that are told of a call path alone: it is told of each that is kept of their path, though not all that are kept of
/// their place are open at a store. `paths` are the numbers of the whole labels of the events, in the form of `labels`, which tell of
/// the places. `verdicts` are those of the trace.
///
/// It takes what `told_open` takes, and where there is such a path, that once more; nothing if each path is a place.
///
/// # Errors
/// Where memory was refused.
#[inline(never)]
pub fn told_on_paths(
    alloc: Global,
    trace: &Trace,
    kept: &Selection,
    verdicts: &[Verdict],
    labels: &[Option<u64>],
    paths: &[Option<u64>],
) -> Result<Selection, OutOfMemory>
    requires kept { IsKeep trace.now kept.now }
    requires verdicts { IsVerdicts trace.now verdicts.now }
    ensures { IfOk result (AreThose (IsToldOnPath trace.now labels.now paths.now)) }
{
    if are_same(labels, paths) {
        return Ok(selection_of(Vec::new(alloc)));
    }
    let told = told_open(alloc, trace, kept, verdicts, paths)?;
    if told.is_empty() {
        return Ok(told);
    }
    let whole = open_throughout(alloc, trace, kept, labels)?;
    let closed = closed_places(alloc, trace, labels, whole.numbers())?;
    let partly = told_numbers(alloc, trace, labels, told.numbers(), &closed)?;
    Ok(selection_of(partly))
}

// Whether each path is a place.
fn are_same(labels: &[Option<u64>], paths: &[Option<u64>]) -> bool
    ensures { result ≡ true → labels.now ≡ paths.now }
{
    labels == paths
}

// The flushes at whose place each flush that is kept is open at a store.
fn open_throughout(
    alloc: Global,
    trace: &Trace,
    kept: &Selection,
    labels: &[Option<u64>],
) -> Result<Selection, OutOfMemory>
    requires { IsKeep trace.now kept.now }
    ensures { IfOk result (AreThose (IsOpenThroughout trace.now labels.now)) }
{
    if !has_store_while_open(trace) {
        return Ok(selection_of(Vec::new(alloc)));
    }
    let mut closed = Places::new(alloc, labels)?;
    let open = open_numbers(alloc, trace, labels, kept.numbers(), &mut closed)?;
    let told = told_numbers(alloc, trace, labels, open.as_slice(), &closed)?;
    Ok(selection_of(told))
}

// The flushes that are open at a store, of these numbers of what is kept. The places of the others are closed.
fn open_numbers(
    alloc: Global,
    trace: &Trace,
    labels: &[Option<u64>],
    numbers: &[u64],
    closed: &mut Places,
) -> Result<Vec<u64>, OutOfMemory>
    requires keep { IsKeep trace.now numbers.now }
    requires none { (p : Origin) → has_place closed.old p ≡ false }
    ensures those { IfOk result (λ these. AreThose (IsOpenAtStore trace.now) these.items) }
    ensures closed { IfOk result (λ these. AreShut trace.now labels.now closed.new) }
{
    let format = trace.format();
    let events = trace.events();
    let past = events.len() as u64 + 1;
    let mut fences = PerThread::new(past);
    let mut stores = NextStores::new(past);
    let mut open = Vec::new(alloc);
    for index in (0..numbers.len()).rev() {
        let number = numbers[index];
        let before = number - 1;
        let event = events[before as usize];
        let is_open = is_open(&fences, &stores, format, event.thread, event.op);
        push_if(&mut open, is_open, number)?;
        closed.add(place_unless(is_open, labels, number, event.thread, event.op))?;
        fences.note_fence(format, event.thread, event.op, number);
        stores.note(format, event.thread, event.op, number);
    }
    backwards(alloc, open.as_slice())
}

// The place of the op with this number, if it is a flush, unless that is open.
#[inline(always)]
fn place_unless(
    is_open: bool,
    labels: &[Option<u64>],
    number: u64,
    thread: u8,
    op: Op,
) -> Option<Origin>
    ensures { result ≡ (if is_open then None else op_place_in labels.now number thread op) }
{
    if is_open {
        None
    } else {
        op_place(labels, number, thread, op)
    }
}

// These numbers, the last one first.
fn backwards(alloc: Global, numbers: &[u64]) -> Result<Vec<u64>, OutOfMemory>
    ensures { IfOk result (λ turned. turned.items ≡ reverse numbers.now) }
{
    numbers.iter().rev().copied().collect(alloc)
}

// The places of these flushes.
fn closed_places(
    alloc: Global,
    trace: &Trace,
    labels: &[Option<u64>],
    numbers: &[u64],
) -> Result<Places, OutOfMemory>
    ensures { IfOk result (AreClosed trace.now labels.now numbers.now) }
{
    let mut closed = Places::new(alloc, labels)?;
    for number in numbers {
        closed.add(flush_place(trace, labels, *number))?;
    }
    Ok(closed)
}

// Those of these flushes whose place is not closed.
fn told_numbers(
    alloc: Global,
    trace: &Trace,
    labels: &[Option<u64>],
    numbers: &[u64],
    closed: &Places,
) -> Result<Vec<u64>, OutOfMemory>
    ensures { IfOk result (λ told. told.items ≡ filter (told_so trace.now labels.now closed.now) numbers.now) }
{
    numbers
        .iter()
        .filter(|number| is_told(trace, labels, closed, **number))
        .copied()
        .collect(alloc)
}

// Whether the event's place is not closed.
fn is_told(trace: &Trace, labels: &[Option<u64>], closed: &Places, number: u64) -> bool
    ensures { result ≡ told_so trace.now labels.now closed.now number }
{
    !is_closed(closed, flush_place(trace, labels, number))
}

// Whether the place is closed.
#[inline(always)]
fn is_closed(closed: &Places, place: Option<Origin>) -> bool
    ensures { result ≡ is_closed_in closed.now place }
{
    match place {
        None => false,
        Some(place) => closed.has(place),
    }
}

// Whether the op is a flush and the next store of its thread to another line comes before that thread's next fence.
#[inline(always)]
fn is_open(fences: &PerThread, stores: &NextStores, format: Format, thread: u8, op: Op) -> bool
    ensures value { result ≡ open_so fences.now stores.now (act_of format thread op) }
    ensures small { thread < 256 }
{
    match op {
        Op::Clwb(addr) | Op::ClflushOpt(addr) => {
            stores.elsewhere(thread, line_of(format, addr)) < fences.get(thread)
        }
        Op::Store(_)
        | Op::Clflush(_)
        | Op::Sfence
        | Op::Mfence
        | Op::IsPersist(_)
        | Op::IsOrderedBefore(_, _) => false,
    }
}
