//! Hints by kind and place.

ghost use Rattle.std.specs.Prelude.{◌≡◌, filter, length, map, IfOk};
ghost use Rattle.pmt_model.specs.Traces.{event};
ghost use Rattle.pmt_causes.specs.Groups.{first_in};
ghost use Rattle.pmt_hints.specs.Hints.{AreHintsOf, ArePathHintsOf, hint_in, is_enough as is_enough_in, origin_in, path_hint_in, path_of as path_in, placed};

use pmt_causes::{Group, Keyed, Origin, groups, origin_of};
use pmt_model::{OutOfMemory, Trace};
use std::alloc::Global;

/// A kind of hint.
#[derive(Clone, Copy)]
pub enum HintKind {
    /// Each kept flush of the place is not fenced when its thread stores to another line.
    OpenAtStore,
    /// Stores that come after the flush of their line, which is not flushed again in time.
    StoredAfterFlush,
    /// Stores that write the rest of a word which the store before them began, in another line.
    SplitWord,
    /// Flushes of a run of lines that ends one line before what was stored does.
    OneLineShort,
    /// Stores that come after a mark, the store to the second range of an order that passes, by the next fence.
    StoredAfterMark,
}

// How many events of a path are no chance.
const LEAST: usize = 3;

/// The events of one kind of hint that come from one place.
#[derive(Clone, Copy)]
pub struct Hint {
    /// What they have in common.
    pub kind: HintKind,
    /// The place: the label of its events, by the number that the caller gave it, or the thread of those without one.
    pub place: Origin,
    /// The call path of its events, by the number of their whole label, where it is told of that path of the place alone.
    pub path: Option<u64>,
    /// How many they are.
    pub count: u64,
    /// The number of the first of them.
    pub first: u64,
}

/// A hint for each place of these events, which are of this kind: those of most events first, and of as many that with the lowest
/// first one. `labels` are the numbers of the labels of the events of the trace, in order; an event past their end has none.
///
/// It takes a look-up at each event.
///
/// # Errors
/// Where memory was refused.
pub fn hints_of(
    alloc: Global,
    trace: &Trace,
    labels: &[Option<u64>],
    kind: HintKind,
    numbers: &[u64],
) -> Result<Vec<Hint>, OutOfMemory>
    ensures { IfOk result (λ hints. AreHintsOf trace.now labels.now kind numbers.now hints.items) }
{
    let items = placed_items(alloc, trace, labels, numbers)?;
    let groups = groups(alloc, items.as_slice())?;
    hints_by(alloc, kind, groups.as_slice())
}

/// A hint for each call path of which at least three of these events are, in the same order. `paths` are the numbers of the whole labels of the
/// events of the trace, in the form of `labels`, which tell of the places.
///
/// It takes a look-up at each event.
///
/// # Errors
/// Where memory was refused.
pub fn path_hints_of(
    alloc: Global,
    trace: &Trace,
    labels: &[Option<u64>],
    paths: &[Option<u64>],
    kind: HintKind,
    numbers: &[u64],
) -> Result<Vec<Hint>, OutOfMemory>
    ensures { IfOk result (λ hints. ArePathHintsOf trace.now labels.now paths.now kind numbers.now hints.items) }
{
    let items = placed_items(alloc, trace, paths, numbers)?;
    let groups = groups(alloc, items.as_slice())?;
    path_hints_by(alloc, trace, labels, kind, groups.as_slice())
}

// These events with their places.
fn placed_items(
    alloc: Global,
    trace: &Trace,
    labels: &[Option<u64>],
    numbers: &[u64],
) -> Result<Vec<Keyed<Origin>>, OutOfMemory>
    ensures { IfOk result (λ items. items.items ≡ map (placed trace.now labels.now) numbers.now) }
{
    numbers
        .iter()
        .map(|number| Keyed {
            key: place_of(trace, labels, *number),
            number: *number,
        })
        .collect(alloc)
}

// The place of the event with this number.
fn place_of(trace: &Trace, labels: &[Option<u64>], number: u64) -> Origin
    ensures { result ≡ origin_in labels.now number (event trace.now number) }
{
    match trace.get(number) {
        Some(event) => origin_of(labels, number, event.thread),
        None => Origin::Thread(0),
    }
}

// A hint for each of these groups.
fn hints_by(
    alloc: Global,
    kind: HintKind,
    groups: &[Group<Origin>],
) -> Result<Vec<Hint>, OutOfMemory>
    ensures { IfOk result (λ hints. hints.items ≡ map (hint_in kind) groups.now) }
{
    groups
        .iter()
        .map(|group| hint_by(kind, group))
        .collect(alloc)
}

// The hint of the group.
fn hint_by(kind: HintKind, group: &Group<Origin>) -> Hint
    ensures { result ≡ hint_in kind group.now }
{
    Hint {
        kind,
        place: group.key,
        path: None,
        count: group.members.len() as u64,
        first: first_of(group),
    }
}

// A hint for each of these groups that has enough events, where each is of one path.
fn path_hints_by(
    alloc: Global,
    trace: &Trace,
    labels: &[Option<u64>],
    kind: HintKind,
    groups: &[Group<Origin>],
) -> Result<Vec<Hint>, OutOfMemory>
    ensures { IfOk result (λ hints. hints.items ≡ map (path_hint_in trace.now labels.now kind) (filter is_enough_in groups.now)) }
{
    groups
        .iter()
        .filter(|group| is_enough(*group))
        .map(|group| path_hint_by(trace, labels, kind, group))
        .collect(alloc)
}

// Whether the group has enough events.
fn is_enough(group: &Group<Origin>) -> bool
    ensures { result ≡ is_enough_in group.now }
{
    LEAST <= group.members.len()
}

// The hint of the group of a path.
fn path_hint_by(
    trace: &Trace,
    labels: &[Option<u64>],
    kind: HintKind,
    group: &Group<Origin>,
) -> Hint
    ensures { result ≡ path_hint_in trace.now labels.now kind group.now }
{
    let first = first_of(group);
    Hint {
        kind,
        place: place_of(trace, labels, first),
        path: path_of(group.key),
        count: group.members.len() as u64,
        first,
    }
}

// The label that the path is.
fn path_of(path: Origin) -> Option<u64>
    ensures { result ≡ path_in path }
{
    match path {
        Origin::Label(label) => Some(label),
        Origin::Thread(_) => None,
    }
}

// The first of the group's events, or 0 of none.
fn first_of(group: &Group<Origin>) -> u64
    ensures { result ≡ first_in group.now }
{
    match group.members.first() {
        Some(number) => *number,
        None => 0,
    }
}
