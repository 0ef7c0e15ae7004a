//! An entry in words, its parts apart: lines of source are asked for before they are laid out.

use crate::words::pen_of;
use pmt_pen::Pen;
use std::alloc::Global;

/// An event that tells why, and what it is to the entry.
#[derive(Drop)]
pub struct StoryRow {
    /// The event's number.
    pub event: u64,
    /// What it is.
    pub note: Pen,
}

/// Crashes after these events, and between them, show what the entry tells.
#[derive(Clone, Copy)]
pub struct Crashes {
    /// The first of them.
    pub from: u64,
    /// The last of them.
    pub to: u64,
}

/// An entry in words. What remembers that memory was refused to its lists is `what`.
#[derive(Drop)]
pub struct Told<'a> {
    /// What, and where: the entry begins with it.
    pub what: Pen,
    /// Why, which follows after a colon; empty where nothing is known.
    pub why: Pen,
    /// What else is known, a paragraph each.
    pub asides: Vec<Pen>,
    /// The frame of a label whose line of source stands below these.
    pub call: Option<&'a str>,
    /// The events that tell why; of two rows of one event the first stands.
    pub story: Vec<StoryRow>,
    /// What fixes it; empty where nothing is known.
    pub fix: Pen,
    /// The event of the story at whose line of source the fix goes.
    pub edited: Option<u64>,
    /// Where it is, for the verdict.
    pub site: Pen,
    /// What it is in a few words, for the verdict.
    pub gist: Pen,
    /// What shows it, if crashes do.
    pub crashes: Option<Crashes>,
}

impl<'a> Told<'a> {
    /// Nothing is told yet.
    pub fn new(alloc: Global) -> Self {
        Told {
            what: Pen::new(alloc),
            why: Pen::new(alloc),
            asides: Vec::new(alloc),
            call: None,
            story: Vec::new(alloc),
            fix: Pen::new(alloc),
            edited: None,
            site: Pen::new(alloc),
            gist: Pen::new(alloc),
            crashes: None,
        }
    }

    // Adds the paragraph, if it has words.
    pub(crate) fn aside(&mut self, aside: Pen) {
        if aside.len() > 0 && self.asides.push(aside).is_err() {
            self.what.refuse();
        }
    }

    // Adds the event with these words to the story, if there is one.
    pub(crate) fn row(&mut self, event: Option<u64>, words: &str) {
        if let Some(event) = event {
            let note = pen_of(self.what.alloc(), words);
            self.noted(event, note);
        }
    }

    // Adds the event with this note to the story.
    pub(crate) fn noted(&mut self, event: u64, note: Pen) {
        if self.story.push(StoryRow { event, note }).is_err() {
            self.what.refuse();
        }
    }
}
