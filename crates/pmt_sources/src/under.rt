//! Which line of source stands below a row.
ghost use Rattle.std.specs.Prelude.{ℕ, List, ◌<◌, length, Decides, MatchOption};
ghost use Rattle.pmt_sources.specs.Places.{IsUnder, Names};

use crate::place::{SourcePlace, is_same, place_of};
use pmt_asked::{Labels, frame_of};

/// The line of source with which the innermost frame of the event's label begins.
pub fn place_at(labels: &Labels, event: u64) -> Option<SourcePlace<'_>>
    ensures { MatchOption result ((file : List ℕ) (line : ℕ) → ¬ Names labels.now event file line) (λ place. Names labels.now event place.file.now place.line) }
{
    let Some(label) = labels.get(event) else {
        return None;
    };
    let frame = frame_of(label.as_str());
    match frame.split_once(' ') {
        Some((word, _)) => place_of(word),
        None => place_of(frame),
    }
}

/// The line of source below the row of the event at this place of these events, a row each: the one that its label names, if it is the first
/// of them that names it.
pub fn place_under<'a>(labels: &'a Labels, events: &[u64], index: usize) -> Option<SourcePlace<'a>>
    requires { index < length events.now }
    ensures { IsUnder labels.now events.now index result }
{
    let Some(place) = place_at(labels, events[index]) else {
        return None;
    };
    for earlier in 0..index {
        if is_named(labels, events[earlier], place) {
            return None;
        }
    }
    Some(place)
}

// Whether the event's label names the place.
fn is_named(labels: &Labels, event: u64, place: SourcePlace<'_>) -> bool
    ensures { Decides result (Names labels.now event place.entry.file.now place.entry.line) }
{
    match place_at(labels, event) {
        Some(other) => is_same(other, place),
        None => false,
    }
}
