//! Stores that are never persisted, in groups.

ghost use Rattle.std.specs.Prelude.{◌≡◌, ◌+◌, ◌^◌, ◌<◌, ◌≤◌, ℕ, None, Some, length, unwrap_or, nat_eq, All, [], IfOk, OnOk, MatchOption};
ghost use Rattle.indexmap.specs.IndexMap.{get};
ghost use Rattle.pmt_explain.specs.CauseOf.{TellCauses, IsCauseOf};
ghost use Rattle.pmt_explain.specs.Grouping.{AreLostGroups, IsLostStore, IsLostAlone, key_for, group_key, place_in, AddsStore};

use crate::at_end::causes_after;
use crate::causing::cause as cause_at;
use crate::lost::line_of_store;
use indexmap::IndexMap;
use pmt_model::{OutOfMemory, Trace};
use pmt_reasons::Cause;
use std::alloc::Global;

// For how many groups there is room from the start, if there are as many stores. Once there are more, there is room for all.
const ROOM: usize = 1 << 16;

/// Stores to one line that are never persisted for the same cause.
#[derive(Clone, Copy)]
pub struct LostGroup {
    /// The number of the line.
    pub line: u64,
    /// Why they are not safe at the trace's end.
    pub cause: Cause,
    /// The number of the first store that was given.
    pub first: u64,
    /// The number of the last store that was given.
    pub last: u64,
    /// How many they are.
    pub count: u64,
}

/// The groups of these stores by their line and their cause at the trace's end, in the order of their first stores. Stores go by
/// their numbers; a number that is of no store, or of one that every run persists, is in no group. The trace is looked at only
/// where there are any, and from the first one on where they are few and near the end.
///
/// # Errors
/// Where memory was refused.
pub fn lost_groups(
    alloc: Global,
    trace: &Trace,
    stores: &[u64],
) -> Result<Vec<LostGroup>, OutOfMemory>
    ensures { IfOk result (λ groups. AreLostGroups trace.now stores.now groups.items) }
{
    if stores.is_empty() {
        return Ok(Vec::new(alloc));
    }
    let start = start_of(trace, stores);
    let causes = causes_for(alloc, trace, start, stores)?;
    let mut groups = Vec::with_capacity(alloc, stores.len().min(ROOM))?;
    add_by(alloc, trace, start, causes.as_slice(), stores, &mut groups)?;
    Ok(groups)
}

// Makes the groups by these causes, where there are none yet.
fn add_by(
    alloc: Global,
    trace: &Trace,
    start: usize,
    causes: &[Option<Cause>],
    stores: &[u64],
    groups: &mut Vec<LostGroup>,
) -> Result<(), OutOfMemory>
    requires causes { TellCauses trace.now start causes.now }
    requires groups { groups.old.items ≡ [] }
    ensures { OnOk result (AreLostGroups trace.now stores.now groups.new.items) }
{
    let mut places = Places::with_room(alloc, stores.len().min(ROOM))?;
    add_all(trace, start, causes, stores, groups, &mut places)
}

// The same, one store after the other; the places are those of no groups.
fn add_all(
    trace: &Trace,
    start: usize,
    causes: &[Option<Cause>],
    stores: &[u64],
    groups: &mut Vec<LostGroup>,
    places: &mut Places,
) -> Result<(), OutOfMemory>
    requires causes { TellCauses trace.now start causes.now }
    requires groups { groups.old.items ≡ [] }
    requires places { (k : Key) → place_in places.old k ≡ None }
    ensures { OnOk result (AreLostGroups trace.now stores.now groups.new.items) }
{
    for store in stores {
        if let Some(group) = group_of(trace, start, causes, *store) {
            add_group(groups, places, group, stores.len())?;
        }
    }
    Ok(())
}

// How many events come before the first of these stores.
fn start_of(trace: &Trace, stores: &[u64]) -> usize
    ensures { result ≤ length trace.now.events }
{
    let first = stores.first().copied().unwrap_or(1);
    (first.saturating_sub(1) as usize).min(trace.len())
}

// The causes of the events after the first so many at the trace's end. None are listed where it takes less time to ask for those of these stores alone.
fn causes_for(
    alloc: Global,
    trace: &Trace,
    start: usize,
    stores: &[u64],
) -> Result<Vec<Option<Cause>>, OutOfMemory>
    requires { start ≤ length trace.now.events }
    ensures { IfOk result (λ causes. TellCauses trace.now start causes.items) }
{
    if are_near_end(stores, trace.len() as u64) {
        return Ok(Vec::new(alloc));
    }
    causes_after(alloc, trace, start)
}

// Whether so many times the events after the first of these stores are no more than all events.
fn are_near_end(stores: &[u64], events: u64) -> bool {
    match stores.first() {
        None => true,
        Some(first) => {
            let after = events.saturating_sub(*first);
            after.saturating_mul(stores.len() as u64) <= events
        }
    }
}

// Why the event with this number is not safe at the trace's end, if it is a store: by the list, where it has the event.
fn cause_of(trace: &Trace, start: usize, causes: &[Option<Cause>], store: u64) -> Option<Cause>
    requires causes { TellCauses trace.now start causes.now }
    requires first { 1 ≤ store }
    ensures { IsCauseOf trace.now (length trace.now.events) store result }
{
    let index = (store - 1) as usize;
    if start <= index && index - start < causes.len() {
        return causes[index - start];
    }
    cause_at(trace, store, trace.len() as u64)
}

// The group of this store alone, if it is never persisted.
fn group_of(trace: &Trace, start: usize, causes: &[Option<Cause>], store: u64) -> Option<LostGroup>
    requires { TellCauses trace.now start causes.now }
    ensures { MatchOption result (¬ IsLostStore trace.now store) (IsLostAlone trace.now store) }
{
    let line = line_of_store(trace, store)?;
    let cause = cause_of(trace, start, causes, store)?;
    Some(LostGroup {
        line,
        cause,
        first: store,
        last: store,
        count: 1,
    })
}

// Puts the store of a group of one, one of at most so many, into its group, or makes it a new group.
fn add_group(
    groups: &mut Vec<LostGroup>,
    places: &mut Places,
    one: LostGroup,
    most: usize,
) -> Result<(), OutOfMemory>
    requires stands { (p : ℕ) → place_in places.old (group_key one) ≡ Some p → p < length groups.old.items }
    requires room { All (λ g. g.count + 1 < 2 ^ 64) groups.old.items }
    ensures { OnOk result (AddsStore groups.old.items places.old one groups.new.items places.new) }
{
    let place = places.reach(key_of(one.line, one.cause), groups.len(), most)?;
    if place < groups.len() {
        let group = &mut groups[place];
        group.last = one.last;
        group.count += 1;
    } else {
        groups.push(one)?;
    }
    Ok(())
}

// What tells the groups apart: the first flush after their stores, or else their line.
#[derive(Clone, Copy)]
enum Key {
    Flush(u64),
    Line(u64),
}

// The key of a group with this line and cause.
fn key_of(line: u64, cause: Cause) -> Key
    ensures { result ≡ key_for line cause }
{
    match cause {
        Cause::Unfenced { flush, .. } => Key::Flush(flush),
        Cause::Unflushed | Cause::Later => Key::Line(line),
    }
}

// Where the groups stand in the list.
#[derive(Drop)]
struct Places {
    unfenced: IndexMap<u64, usize>,
    unflushed: IndexMap<u64, usize>,
}

impl Places {
    // Of no groups, with room for so many of each kind.
    fn with_room(alloc: Global, room: usize) -> Result<Self, OutOfMemory>
        ensures { IfOk result (λ places. (k : Key) → place_in places k ≡ None) }
    {
        let unfenced = IndexMap::with_capacity(alloc, room)?;
        let unflushed = IndexMap::with_capacity(alloc, room)?;
        Ok(Places {
            unfenced,
            unflushed,
        })
    }

    // Where the group with this key stands, which is the next place if there was none yet. There are at most so many.
    fn reach(&mut self, key: Key, next: usize, most: usize) -> Result<usize, OutOfMemory>
        ensures place { IfOk result (λ place. place ≡ unwrap_or (place_in self.old key) next) }
        ensures here { IfOk result (λ place. place_in self.new key ≡ Some place) }
        ensures others { OnOk result ((k : Key) → (key ≡ k → ⊥) → place_in self.new k ≡ place_in self.old k) }
    {
        match key {
            Key::Flush(flush) => reach_in(&mut self.unfenced, flush, next, most),
            Key::Line(line) => reach_in(&mut self.unflushed, line, next, most),
        }
    }
}

// Where the number, one of at most so many, stands, which is the next place if it stood nowhere yet.
fn reach_in(
    places: &mut IndexMap<u64, usize>,
    number: u64,
    next: usize,
    most: usize,
) -> Result<usize, OutOfMemory>
    ensures place { IfOk result (λ place. place ≡ unwrap_or (get nat_eq places.old number) next) }
    ensures here { IfOk result (λ place. get nat_eq places.new number ≡ Some place) }
    ensures others { OnOk result ((k : ℕ) → (number ≡ k → ⊥) → get nat_eq places.new k ≡ get nat_eq places.old k) }
{
    if places.len() == ROOM {
        places.reserve(most)?;
    }
    let place = places.entry(number)?.or_insert(next);
    Ok(*place)
}
