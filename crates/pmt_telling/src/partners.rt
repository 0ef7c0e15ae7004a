//! The events that others go with: those of hints, and those that make a store safe.

use crate::sites::frame_at;
use crate::telling::{Bytes, Made, NEAR, Telling};
use pmt_hints::{Hint, HintKind};
use pmt_slices::{StorePart, store_story_of};

// The most events that are looked at for the store that publishes.
const FEW: u64 = 64;

// The event that the hint's first one goes with, if it stands near: the other part of the word, the flush, the missed store, the store that is
// made too soon; none of stores after a mark.
pub(crate) fn partner_of(told: &Telling<'_>, hint: &Hint) -> Option<u64> {
    let first = hint.first;
    match hint.kind {
        HintKind::OpenAtStore => {
            (first..first.saturating_add(NEAR)).find(|other| goes_with(told, hint, *other))
        }
        HintKind::StoredAfterFlush => early_flush(told, first),
        HintKind::SplitWord | HintKind::OneLineShort => {
            let mut before = (first.saturating_sub(NEAR)..first).rev();
            before.find(|other| goes_with(told, hint, *other))
        }
        HintKind::StoredAfterMark => None,
    }
}

// Whether an event of the thread can go with the first one.
fn goes_with(told: &Telling<'_>, hint: &Hint, other: u64) -> bool {
    let line = told.line(hint.first);
    let other_line = told.line(other);
    let is_store = told.stored(other).is_some();
    told.thread(other) == told.thread(hint.first)
        && match hint.kind {
            HintKind::SplitWord => is_store,
            HintKind::StoredAfterMark | HintKind::StoredAfterFlush => false,
            HintKind::OpenAtStore => is_store && other_line != line,
            HintKind::OneLineShort => is_store
                && other_line == line.map(|line| line.saturating_add(1)),
        }
}

// Whether the event is one of the store's thread: a flush of the store's cache line, or a fence.
fn is_about(told: &Telling<'_>, store: u64, number: u64) -> bool {
    let is_flush = told.is_flush(number) && told.line(number) == told.line(store);
    (is_flush || told.is_fence(number)) && told.thread(number) == told.thread(store)
}

// The first flush of the store's cache line that its thread makes after it and by its next fence, if it stands near.
pub(crate) fn flush_after(told: &Telling<'_>, store: u64) -> Option<u64> {
    let mut near = store..store.saturating_add(NEAR);
    let found = near.find(|number| is_about(told, store, *number));
    found.filter(|number| told.is_flush(*number))
}

// The last flush of the line that the thread makes before the store and after its fence before, if none follows: it is too early for the store.
pub(crate) fn early_flush(told: &Telling<'_>, store: u64) -> Option<u64> {
    let mut near = (store.saturating_sub(NEAR)..store).rev();
    let found = near.find(|number| is_about(told, store, *number));
    found.filter(|number| told.is_flush(*number) && flush_after(told, store).is_none())
}

// The last store to the line of the flush before it, if it stands near.
pub(crate) fn flushed_store(told: &Telling<'_>, flush: u64) -> Option<u64> {
    let line = told.line(flush);
    (flush.saturating_sub(NEAR)..flush).rev().find(|number| told.stored(*number).is_some()
        && told.line(*number) == line)
}

/// A store that publishes others, and an assertion that says so.
#[derive(Clone, Copy)]
pub(crate) struct Mark {
    pub(crate) store: u64,
    pub(crate) claim: u64,
}

// The store that publishes before the first one of the hint, and the next order that passes and names it, if both stand near.
pub(crate) fn mark_of(told: &Telling<'_>, hint: &Hint) -> Option<Mark> {
    let first = hint.first;
    let thread = told.thread(first);
    let low = first.saturating_sub(FEW);
    let fence = (low..first).rev().find(|number| told.thread(*number) == thread
        && told.is_fence(*number));
    let low = fence.unwrap_or(low);
    for claim in first..first.saturating_add(NEAR).min(told.end()) {
        if let Some(range) = told.second_range(claim) {
            let mut before = (low..first).rev();
            let store = before.find(|number| is_mark(told, hint, *number, range));
            let passes = told.explanation.failing.binary_search(&claim).is_err();
            if let Some(store) = store.filter(|_| passes) {
                return Some(Mark { store, claim });
            }
        }
    }
    None
}

// Whether the event is a store of the hint's thread and site to one of these bytes, and to another address than the hint's first one.
fn is_mark(told: &Telling<'_>, hint: &Hint, number: u64, range: Bytes) -> bool {
    told.stored(number)
        .is_some_and(|stored| stored.meets(range))
        && told.thread(number) == told.thread(hint.first)
        && told.origin(number) == hint.place
        && told.address(number) != told.address(hint.first)
}

/// What makes a store safe, up to the end of the trace.
#[derive(Clone, Copy)]
pub(crate) struct Saving {
    /// The first flush of its cache line after it.
    pub(crate) flush: Option<u64>,
    /// The fence or clflush from which on it is safe.
    pub(crate) saves: Option<u64>,
}

// What makes the store safe; nothing where it is not asked for, since it takes a look at each event after the store.
pub(crate) fn saving_of(told: &Telling<'_>, store: u64, is_asked: bool) -> Made<Saving> {
    let story = if is_asked {
        store_story_of(told.alloc, told.trace, store)?
    } else {
        None
    };
    let saves = story.as_ref().and_then(|story| {
        let mut numbers = story.numbers().iter();
        let saves = numbers.find(|number| matches!(story.part(**number), StorePart::Saves));
        saves.copied()
    });
    let flush = story.and_then(|story| story.flush());
    Ok(Saving { flush, saves })
}

// Whether the event is a flush of another line than the store's that does nothing, by its thread and of the same function or what it calls,
// as far as the two innermost frames of their labels tell. The outermost frame of all is that of too many.
pub(crate) fn is_stray(told: &Telling<'_>, store: u64, number: u64) -> bool {
    let one = told.label(store).unwrap_or("");
    let other = told.label(number).unwrap_or("");
    let inner = if frame_at(one, 2).is_some() { 2 } else { 1 };
    told.is_flush(number)
        && is_idle(told, number)
        && told.line(number) != told.line(store)
        && told.thread(number) == told.thread(store)
        && (0..inner).any(|depth| {
            let function = function_at(one, depth);
            let is_one = function == function_at(other, 0) || function == function_at(other, 1);
            is_one && (!function.is_empty() || one.is_empty())
        })
}

// What such a flush is to the store.
pub(crate) const IN_VAIN: &str = "flushes another line, in vain";

// Whether the flush does nothing: then its address may be wrong.
fn is_idle(told: &Telling<'_>, flush: u64) -> bool {
    let idle = told.explanation.dropped.as_slice();
    idle.binary_search_by_key(&flush, |one| one.event).is_ok()
}

// The function of the frame at this depth; nothing where there is none.
pub(crate) fn function_at(label: &str, depth: usize) -> &str {
    let frame = frame_at(label, depth).unwrap_or("");
    let function = frame.split(' ').find(|word| !word.contains(":"));
    function.unwrap_or("")
}
