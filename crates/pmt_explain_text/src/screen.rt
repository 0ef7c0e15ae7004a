//! The text for people: what stands where, and how much of it has room.

use crate::closing::{push_closing, push_recorded};
use crate::covered::push_not_covered;
use crate::entries::{Shown, shown_entries};
use crate::in_full::push_failure_in_full;
use crate::only::push_rows;
use crate::small::push_small;
use crate::verdict::push_verdict;
use crate::volatile::volatile_sites;
use pmt_asked::Labels;
use pmt_explanation::{Explanation, summary_of};
use pmt_pen::Pen;
use pmt_sources::{SourcePlace, place_at, place_of};
use pmt_telling::{
    Made, Screen, Telling, failure_entry, has_threads, lines_of, pen_of, push_brief,
    push_frame_source, push_full, push_text, push_wrapped, spot_of,
};
use std::alloc::Global;
use std::collections::HashSet;

// So many lines are kept for what may be meant: the heading and one question.
const KEPT: usize = 3;

// So many lines at most stand last on each screen.
const NEEDED: usize = 6;

/// The explanation for people: the verdict in a sentence, and then what was found, what weighs most first. What is left out is counted, with
/// the words that show it.
///
/// # Errors
/// Where memory was refused.
pub fn text(
    alloc: Global,
    explanation: &Explanation,
    labels: &Labels,
    screen: &Screen<'_>,
) -> Made<Vec<u8>> {
    let told = telling_of(alloc, explanation, labels, screen)?;
    let mut pen = pen_of(alloc, screen.lacking);
    if screen.choice.failure().is_some() {
        push_full(&mut pen, &told, "", &failure_entry(&told, 0, 1, true)?)?;
        push_failure_in_full(&mut pen, &told)?;
    } else {
        push_screen(&mut pen, &told)?;
    }
    let written = pen.finish()?;
    Ok(written.into_bytes())
}

// What is told of the explanation.
fn telling_of<'a>(
    alloc: Global,
    explanation: &'a Explanation,
    labels: &'a Labels,
    screen: &'a Screen<'a>,
) -> Made<Telling<'a>> {
    let trace = explanation.analysis.trace();
    let mut told = Telling {
        alloc,
        trace,
        explanation,
        labels,
        screen,
        has_threads: has_threads(trace),
        volatile: HashSet::new(alloc),
    };
    told.volatile = volatile_sites(&told)?;
    Ok(told)
}

// Adds the verdict, and entries with what stands below them; or rows of what is asked for.
fn push_screen(pen: &mut Pen, told: &Telling<'_>) -> Made<()> {
    let counts = summary_of(told.explanation);
    let entries = shown_entries(told, false)?;
    push_verdict(pen, told, entries.entries.first());
    if !told.screen.choice.tells_all() {
        pen.put("told below: what is asked for\n");
        return push_rows(pen, told);
    }
    let meant = shown_entries(told, true)?;
    let rows = told.screen.rows.unwrap_or(usize::MAX);
    let left = rows.saturating_sub(lines_of(pen)).saturating_sub(1);
    let mut first = Pen::new(told.alloc);
    if let Some(entry) = entries.entries.first() {
        push_full(&mut first, told, "", entry)?;
    }
    let mut closing = Pen::new(told.alloc);
    closing.share(&first);
    let room = left.saturating_sub(lines_of(&first)).saturating_sub(NEEDED);
    let mut covered = Pen::new(told.alloc);
    push_not_covered(&mut covered, told, &counts)?;
    if lines_of(&covered) <= room {
        push_text(&mut closing, &covered);
    }
    push_closing(&mut closing, told, &entries)?;
    let mut body = Body {
        pen: Pen::new(told.alloc),
        left: left.saturating_sub(lines_of(&closing)),
    };
    body.add_entries(told, &entries, meant.total)?;
    body.add_meant(told, &meant);
    let mut small = Pen::new(told.alloc);
    push_small(&mut small, told, &counts)?;
    if body.has_room(&small, 0) {
        body.add(&small);
    }
    let mut notes = Pen::new(told.alloc);
    push_recorded(&mut notes, told, &counts);
    if body.has_room(&notes, 0) {
        body.add(&notes);
    }
    body.add(&closing);
    push_text(pen, &body.pen);
    Ok(())
}

// What stands between the verdict and the end, and how many more lines have room.
#[derive(Drop)]
struct Body {
    pen: Pen,
    left: usize,
}

impl Body {
    // Whether these lines have room, and so many others besides.
    fn has_room(&self, lines: &Pen, others: usize) -> bool {
        lines_of(lines).saturating_add(others) <= self.left
    }

    // Adds the lines.
    fn add(&mut self, lines: &Pen) {
        self.left = self.left.saturating_sub(lines_of(lines));
        push_text(&mut self.pen, lines);
    }

    // Adds how many entries are left, if some are.
    fn add_left(&mut self, count: usize) {
        if count > 0 {
            let mut line = Pen::new(self.pen.alloc());
            line.fill("   .. # more (--limit all)\n", &[count as u64]);
            self.add(&line);
        }
    }

    // Adds the first entry in full, and the next ones in full or in a line as long as there is room, with lines kept for a question if there are some.
    fn add_entries(&mut self, told: &Telling<'_>, entries: &Shown<'_>, meant: usize) -> Made<()> {
        let kept = if meant > 0 { KEPT } else { 0 };
        let mut done = 0usize;
        for entry in entries.entries.iter() {
            let mut rank = Pen::new(told.alloc);
            if entries.total > 1 {
                rank.fill("#. ", &[done.saturating_add(1) as u64]);
            }
            let mut full = Pen::new(told.alloc);
            push_full(&mut full, told, rank.as_str(), entry)?;
            let mut brief = Pen::new(told.alloc);
            self.pen.share(&rank);
            push_brief(&mut brief, rank.as_str(), entry);
            let later = entries.total.saturating_sub(done).saturating_sub(1);
            let others = later.min(6).saturating_add(kept);
            let is_airy = done == 0 || self.has_room(&full, others.saturating_add(1));
            if is_airy || self.has_room(&full, others) {
                self.add(&pen_of(told.alloc, if is_airy { "\n" } else { "" }));
                self.add(&full);
            } else if self.has_room(&brief, 1) {
                self.add(&brief);
            } else {
                break;
            }
            done = done.saturating_add(1);
        }
        self.add_left(entries.total.saturating_sub(done));
        self.pen.put("\n");
        Ok(())
    }

    // Adds what may be meant, as much of it as there is room for.
    fn add_meant(&mut self, told: &Telling<'_>, meant: &Shown<'_>) {
        if meant.total == 0 {
            return;
        }
        self.add(&pen_of(told.alloc, "Maybe meant; you must know:\n"));
        let mut done = 0usize;
        for entry in meant.entries.iter() {
            let mut line = pen_of(told.alloc, "  - ");
            push_text(&mut line, &entry.what);
            let mut lines = Pen::new(told.alloc);
            push_wrapped(&mut lines, &line, 4);
            if let Some(call) = entry.call {
                push_frame_source(&mut lines, told, call);
            }
            if done > 0 && !self.has_room(&lines, 1) {
                break;
            }
            self.add(&lines);
            done = done.saturating_add(1);
        }
        self.add_left(meant.total.saturating_sub(done));
    }
}

/// The places of source files that the text for this screen may have rows of, some of them more than once.
///
/// # Errors
/// Where memory was refused.
pub fn source_places<'a>(
    alloc: Global,
    explanation: &'a Explanation,
    labels: &'a Labels,
    screen: &'a Screen<'a>,
) -> Made<Vec<SourcePlace<'a>>> {
    let told = telling_of(alloc, explanation, labels, screen)?;
    let mut found = Vec::new(alloc);
    let mut pen = Pen::new(alloc);
    for are_meant in [false, true] {
        for entry in shown_entries(&told, are_meant)?.entries.iter() {
            pen.share(&entry.what);
            for row in entry.story.iter() {
                if let Some(place) = place_at(labels, row.event) {
                    found.push(place)?;
                }
            }
            if let Some(place) = entry.call.and_then(|call| place_of(spot_of(call))) {
                found.push(place)?;
            }
        }
    }
    let _ = pen.finish()?;
    Ok(found)
}
