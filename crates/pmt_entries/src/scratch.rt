//! Stores that may be scratch: never persisted, in lines that nothing flushes or asserts after the first of these stores.

ghost use Rattle.std.specs.Prelude.{◌≡◌, ℕ, true, filter, map, nat_eq, IfOk, OnOk};
ghost use Rattle.std.specs.HashSet.{IsFromIterResult};
ghost use Rattle.std.specs.List.{list_any};
ghost use Rattle.pmt_fates.specs.Places.{standing};
ghost use Rattle.pmt_hints.specs.Claiming.{claim_at, or_so};
ghost use Rattle.pmt_entries.specs.Sites.{AreAt, lone_by, AreAsked, address_at, event_touches, first_line as first_line_in, is_all, is_noted as is_noted_in, is_same as is_same_in, is_touched, later, line_at, loses_one_address as loses_one_address_in, op_address as op_address_in, op_touches};

use crate::place_sets::{Places, places_of};
use pmt_fates::{PlaceRow, Standing, standing_of};
use pmt_hints::claims::{Claims, ask_for, is_line_claimed, note_line, note_range};
use pmt_model::{Addr, Event, Format, Op, OutOfMemory, Trace, line_of};
use std::alloc::Global;
use std::collections::{HashMap, HashSet};

/// Cache lines by their numbers.
pub(crate) type Lines = HashSet<u64>;

// Whether the site loses all that it stores, twice or more, to one address first and last.
fn loses_one_address(trace: &Trace, row: &PlaceRow) -> bool
    ensures { result ≡ loses_one_address_in trace.now row.now }
{
    let first = address_stored(trace, row.first_lost.unwrap_or(0));
    let last = address_stored(trace, row.last_missed.unwrap_or(0));
    loses_all(row) && 2 <= row.lost && is_same(first, last)
}

// The line of the first store of the site that is lost; 0 of none.
pub(crate) fn first_line(trace: &Trace, row: &PlaceRow) -> u64
    ensures { result ≡ first_line_in trace.now row.now }
{
    line_stored(trace, row.first_lost.unwrap_or(0)).unwrap_or(0)
}

// The lines of those of these sites that are scratch by themselves, where `touched` are those that lose a store to a touched line.
pub(crate) fn scratch_lines(
    alloc: Global,
    trace: &Trace,
    touched: &Places,
    rows: &[PlaceRow],
) -> Result<Lines, OutOfMemory>
    ensures { IfOk result (IsFromIterResult nat_eq (map (first_line_in trace.now) (filter (lone_by trace.now touched.now) rows.now))) }
{
    rows.iter()
        .filter(|row| is_lone(trace, touched, *row))
        .map(|row| first_line(trace, row))
        .collect(alloc)
}

// Whether the site is scratch by itself.
fn is_lone(trace: &Trace, touched: &Places, row: &PlaceRow) -> bool
    ensures { result ≡ lone_by trace.now touched.now row.now }
{
    loses_one_address(trace, row) && !touched.contains(&row.place)
}

// Whether the site loses all that it stores.
pub(crate) fn loses_all(row: &PlaceRow) -> bool
    ensures { result ≡ is_all (standing row.now) }
{
    matches!(standing_of(row), Standing::LosesAll)
}

// Whether both addresses are known, and are the same.
fn is_same(first: Option<Addr>, last: Option<Addr>) -> bool
    ensures { result ≡ is_same_in first last }
{
    let Some(first) = first else {
        return false;
    };
    let Some(last) = last else {
        return false;
    };
    first.get() == last.get()
}

// The sites that lose one of these stores to a touched line. They are looked for only where a site with one of these rows loses all that it
// stores to one address: else none is scratch.
pub(crate) fn touched_places(
    alloc: Global,
    trace: &Trace,
    frames: &[Option<u64>],
    rows: &[PlaceRow],
    stores: &[u64],
) -> Result<Places, OutOfMemory>
    ensures { IfOk result (λ places. list_any (loses_one_address_in trace.now) rows.now ≡ true → AreAt trace.now frames.now (filter (is_touched trace.now stores.now) stores.now) places) }
{
    if !has_one_address(trace, rows) {
        return Ok(HashSet::new(alloc));
    }
    let touched = touched_stores(alloc, trace, stores)?;
    let places = places_of(alloc, trace, frames, touched.as_slice())?;
    Ok(places)
}

// Whether one of the sites loses all that it stores, twice or more, to one address first and last.
fn has_one_address(trace: &Trace, rows: &[PlaceRow]) -> bool
    ensures { result ≡ list_any (loses_one_address_in trace.now) rows.now }
{
    rows.iter().any(|row| loses_one_address(trace, row))
}

// Those of these stores to lines that an event after the first of them flushes, or an assertion after it has a byte of: what clears lines
// before is no use of them.
fn touched_stores(alloc: Global, trace: &Trace, stores: &[u64]) -> Result<Vec<u64>, OutOfMemory>
    ensures { IfOk result (λ found. found.items ≡ filter (is_touched trace.now stores.now) stores.now) }
{
    if stores.is_empty() {
        return Ok(Vec::new(alloc));
    }
    let lines = touched_lines(alloc, trace, stores)?;
    stores_to(alloc, trace, &lines, stores)
}

// Those of these stores whose line is noted.
fn stores_to(
    alloc: Global,
    trace: &Trace,
    lines: &Claims,
    stores: &[u64],
) -> Result<Vec<u64>, OutOfMemory>
    ensures { IfOk result (λ found. found.items ≡ filter (is_noted_in trace.now lines.now) stores.now) }
{
    stores
        .iter()
        .filter(|number| is_noted(trace, lines, **number))
        .copied()
        .collect(alloc)
}

// Whether the line of the store is noted.
fn is_noted(trace: &Trace, lines: &Claims, number: u64) -> bool
    ensures { result ≡ is_noted_in trace.now lines.now number }
{
    is_line_claimed(lines, line_stored(trace, number))
}

// The lines of these stores, each by whether an event after the first of them flushes it, or an assertion has a byte of it.
fn touched_lines(alloc: Global, trace: &Trace, stores: &[u64]) -> Result<Claims, OutOfMemory>
    ensures { IfOk result (λ lines. (start : _) × AreAsked trace.now stores.now start × ((l : ℕ) → claim_at lines l ≡ or_so (list_any (event_touches trace.now.format l) (later trace.now stores.now)) (claim_at start l))) }
{
    let mut lines = stored_lines(alloc, trace, stores)?;
    note_events(&mut lines, trace.format(), later_events(trace, stores))?;
    Ok(lines)
}

// The lines of these stores, none of them touched.
fn stored_lines(alloc: Global, trace: &Trace, stores: &[u64]) -> Result<Claims, OutOfMemory>
    ensures { IfOk result (AreAsked trace.now stores.now) }
{
    let mut lines = HashMap::new(alloc);
    for number in stores {
        ask_for(&mut lines, line_stored(trace, *number))?;
    }
    Ok(lines)
}

// The events after the first of these stores.
fn later_events<'a>(trace: &'a Trace, stores: &[u64]) -> &'a [Event]
    ensures { result.now ≡ later trace.now stores.now }
{
    let first = stores.first().copied().unwrap_or(0) as usize;
    let events = trace.events();
    &events[first.min(events.len())..]
}

// Notes the lines that the events flush or assert.
fn note_events(lines: &mut Claims, format: Format, events: &[Event]) -> Result<(), OutOfMemory>
    ensures { OnOk result ((l : ℕ) → claim_at lines.new l ≡ or_so (list_any (event_touches format l) events.now) (claim_at lines.old l)) }
{
    for event in events {
        note_op(lines, format, event.op)?;
    }
    Ok(())
}

// Notes the lines that the op flushes or asserts.
fn note_op(lines: &mut Claims, format: Format, op: Op) -> Result<(), OutOfMemory>
    ensures { OnOk result ((l : ℕ) → claim_at lines.new l ≡ or_so (op_touches format op l) (claim_at lines.old l)) }
{
    match op {
        Op::Clwb(addr) | Op::ClflushOpt(addr) | Op::Clflush(addr) => {
            note_line(lines, line_of(format, addr))
        }
        Op::IsPersist(range) => note_range(lines, format, range),
        Op::IsOrderedBefore(first, second) => {
            note_range(lines, format, first)?;
            note_range(lines, format, second)
        }
        Op::Store(_) | Op::Sfence | Op::Mfence => Ok(()),
    }
}

// The line of the event, if it is a store.
fn line_stored(trace: &Trace, number: u64) -> Option<u64>
    ensures { result ≡ line_at trace.now number }
{
    match address_stored(trace, number) {
        Some(addr) => Some(line_of(trace.format(), addr)),
        None => None,
    }
}

// The address of the event, if it is a store.
fn address_stored(trace: &Trace, number: u64) -> Option<Addr>
    ensures { result ≡ address_at trace.now number }
{
    match trace.get(number) {
        Some(event) => op_address(event.op),
        None => None,
    }
}

// The address of the op, if it is a store.
fn op_address(op: Op) -> Option<Addr>
    ensures { result ≡ op_address_in op }
{
    match op {
        Op::Store(store) => Some(store.addr()),
        Op::Clwb(_)
        | Op::ClflushOpt(_)
        | Op::Clflush(_)
        | Op::Sfence
        | Op::Mfence
        | Op::IsPersist(_)
        | Op::IsOrderedBefore(_, _) => None,
    }
}
