//! The labels that a page has room for.

use pmt_asked::Labels;
use pmt_model::OutOfMemory;
use pmt_page::{Label, labels_text};
use std::alloc::{AllocError, Global};
use std::collections::BTreeSet;

// The most bytes of a label.
const MOST_LABEL: usize = 1_000;

// The most bytes of the texts of labels on a page, each text counted once.
const MOST_TEXTS: usize = 4_000_000;

// What an event is called whose label has no room.
const LEFT_OUT: &str = "…";

/// The labels of a page.
#[derive(Drop)]
pub struct PageLabels<'a> {
    /// What the events are called.
    pub list: Vec<Label<'a>>,
    /// They as JSON.
    pub text: Vec<u8>,
    /// How many events have a label that is left out.
    pub left_out: u64,
}

/// What the first so many events are called, in at most so many bytes on the page: texts that are cut, and after the room for them a
/// sign that they are left out. The texts have 4,000,000 bytes; half of that, a quarter or nothing where all has no room with them. Where
/// the signs have no room either there are none.
///
/// # Errors
/// Where memory was refused.
pub fn page_labels<'a>(
    alloc: Global,
    labels: &'a Labels,
    events: u64,
    most: usize,
) -> Result<PageLabels<'a>, OutOfMemory> {
    for room in [MOST_TEXTS, MOST_TEXTS / 2, MOST_TEXTS / 4, 0] {
        let found = labels_within(alloc, labels, events, room)?;
        if size_on_page(found.text.as_slice()) <= most {
            return Ok(found);
        }
    }
    let list: Vec<Label<'a>> = Vec::new(alloc);
    let text = labels_text(alloc, list.as_slice())?;
    Ok(PageLabels {
        list,
        text,
        left_out: labelled(labels, events),
    })
}

// How many of the first so many events have a label.
fn labelled(labels: &Labels, events: u64) -> u64 {
    (1..=events)
        .filter(|event| labels.get(*event).is_some())
        .count() as u64
}

// The same with texts of at most so many bytes.
fn labels_within<'a>(
    alloc: Global,
    labels: &'a Labels,
    events: u64,
    mut room: usize,
) -> Result<PageLabels<'a>, OutOfMemory> {
    let mut seen: BTreeSet<&'a str> = BTreeSet::new(alloc);
    let mut list = Vec::new(alloc);
    let mut left_out: u64 = 0;
    for event in 1..=events {
        let Some(text) = labels.get(event) else {
            continue;
        };
        let short = cut(text.as_str());
        let has_room = take_room(&mut seen, &mut room, short)?;
        left_out = left_out.saturating_add(if has_room { 0 } else { 1 });
        list.push(Label {
            event,
            text: if has_room { short } else { LEFT_OUT },
        })?;
    }
    let text = labels_text(alloc, list.as_slice())?;
    Ok(PageLabels {
        list,
        text,
        left_out,
    })
}

// Whether the text was seen before, or has room, which it takes then.
fn take_room<'a>(
    seen: &mut BTreeSet<&'a str>,
    room: &mut usize,
    text: &'a str,
) -> Result<bool, AllocError> {
    if seen.contains(text) {
        return Ok(true);
    }
    let size = size_quoted(text.as_bytes());
    if size > *room {
        return Ok(false);
    }
    *room -= size;
    match seen.insert(text) {
        Ok(_) => Ok(true),
        Err(_) => Err(AllocError),
    }
}

/// How many bytes the text has on a page: a `<` is written as six bytes there.
pub fn size_on_page(text: &[u8]) -> usize {
    let signs = text.iter().filter(|byte| **byte == b'<').count();
    text.len().saturating_add(signs.saturating_mul(5))
}

/// How many bytes the text has on a page inside of a string of JSON, where quotation marks, backslashes and control characters are
/// written longer too.
pub fn size_quoted(text: &[u8]) -> usize {
    let marks = text
        .iter()
        .filter(|byte| **byte == b'"' || **byte == b'\\')
        .count();
    let controls = text.iter().filter(|byte| **byte < 32).count();
    size_on_page(text)
        .saturating_add(marks)
        .saturating_add(controls.saturating_mul(5))
}

// The text, or its beginning where it is long.
fn cut(text: &str) -> &str {
    if text.len() <= MOST_LABEL {
        return text;
    }
    for short in 0..4 {
        if let Some(start) = text.get(..MOST_LABEL - short) {
            return start;
        }
    }
    LEFT_OUT
}
