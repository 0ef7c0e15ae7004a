//! The events that a picture has: of a failed assertion, and of stores that are lost or late, those of their slices, as far as there is room.
use crate::crash::DrawnCrash;
use crate::subject::DrawnSubject;
use pmt_model::{OutOfMemory, Trace};
use pmt_slices::{slice_of, store_sliced, story_of};
use std::alloc::Global;

// The most events that a picture shows.
const MOST_TOLD: usize = 24;

/// The events that a picture has.
#[derive(Drop)]
pub struct DrawnEvents {
    /// Their numbers, rising.
    pub numbers: Vec<u64>,
    /// How many there would be, if there were room for all.
    pub all: u64,
}

/// The events that a picture of the subject has, which has this crash.
///
/// # Errors
/// Where memory was refused.
pub(crate) fn told_of(
    alloc: Global,
    trace: &Trace,
    subject: DrawnSubject,
    crash: Option<&DrawnCrash>,
) -> Result<DrawnEvents, OutOfMemory> {
    match subject {
        DrawnSubject::Failure(number) => failure_told(alloc, trace, number, crash),
        DrawnSubject::Lost(_) => lost_told(alloc, trace, crash),
        DrawnSubject::Late(store) => stores_told(alloc, trace, &[store]),
        DrawnSubject::Around(number) => told_around(alloc, trace, number),
    }
}

// The events around this one, as many as have room.
fn told_around(alloc: Global, trace: &Trace, number: u64) -> Result<DrawnEvents, OutOfMemory> {
    let events = trace.len() as u64;
    let most = MOST_TOLD as u64;
    let before = number
        .saturating_sub(most / 2)
        .min(events.saturating_sub(most));
    let mut numbers = Vec::new(alloc);
    for index in before..before.saturating_add(most).min(events) {
        numbers.push(index.saturating_add(1))?;
    }
    let all = numbers.len() as u64;
    Ok(DrawnEvents { numbers, all })
}

// The slice of the assertion with this number, which the crash violates.
fn failure_told(
    alloc: Global,
    trace: &Trace,
    number: u64,
    crash: Option<&DrawnCrash>,
) -> Result<DrawnEvents, OutOfMemory> {
    let Some(slice) = slice_of(alloc, trace, number)? else {
        return stores_told(alloc, trace, &[]);
    };
    let needed = needed_of(alloc, trace, number, crash)?;
    Ok(DrawnEvents {
        numbers: shown_of(alloc, slice.numbers(), needed.as_slice())?,
        all: slice.len() as u64,
    })
}

// The events of the assertion's story, and as many of the stores that the crash loses as have room beside them.
fn needed_of(
    alloc: Global,
    trace: &Trace,
    number: u64,
    crash: Option<&DrawnCrash>,
) -> Result<Vec<u64>, OutOfMemory> {
    let mut needed = Vec::new(alloc);
    let Some(crash) = crash else {
        return Ok(needed);
    };
    if let Some(story) = story_of(alloc, trace, number, &crash.failure)? {
        needed.extend_from_slice(story.numbers())?;
    }
    for store in &crash.lost {
        if needed.len() < MOST_TOLD && !needed.contains(store) {
            needed.push(*store)?;
        }
    }
    Ok(needed)
}

// These events, as far as a picture has room: the needed ones, and the last others.
fn shown_of(alloc: Global, numbers: &[u64], needed: &[u64]) -> Result<Vec<u64>, OutOfMemory> {
    let mut over = numbers.len().saturating_sub(MOST_TOLD);
    let mut shown = Vec::new(alloc);
    for number in numbers {
        if over > 0 && !needed.contains(number) {
            over -= 1;
        } else {
            shown.push(*number)?;
        }
    }
    Ok(shown)
}

// The slices of the stores that the crash loses.
fn lost_told(
    alloc: Global,
    trace: &Trace,
    crash: Option<&DrawnCrash>,
) -> Result<DrawnEvents, OutOfMemory> {
    match crash {
        Some(crash) => stores_told(alloc, trace, crash.lost.as_slice()),
        None => stores_told(alloc, trace, &[]),
    }
}

// The slices of these stores, which are lost or late: of the first ones, as far as a picture has room.
fn stores_told(alloc: Global, trace: &Trace, stores: &[u64]) -> Result<DrawnEvents, OutOfMemory> {
    let mut numbers = Vec::new(alloc);
    for store in stores {
        let Some(slice) = store_sliced(alloc, trace, *store)? else {
            continue;
        };
        let joined = joined_of(alloc, numbers.as_slice(), slice.numbers.numbers())?;
        if joined.len() > MOST_TOLD {
            break;
        }
        numbers = joined;
    }
    let all = numbers.len() as u64;
    Ok(DrawnEvents { numbers, all })
}

// The numbers of both lists, rising and each once.
fn joined_of(alloc: Global, some: &[u64], others: &[u64]) -> Result<Vec<u64>, OutOfMemory> {
    let mut joined = Vec::new(alloc);
    joined.extend_from_slice(some)?;
    joined.extend_from_slice(others)?;
    joined.sort_unstable();
    joined.dedup();
    Ok(joined)
}
