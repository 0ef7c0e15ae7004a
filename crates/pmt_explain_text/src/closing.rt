//! What stands below the entries of a screen.

use crate::commands::push_command;
use crate::entries::Shown;
use crate::meant::{push_ignored, push_replay};
use pmt_asked::{ByteRange, IgnoredPlace, is_at_place};
use pmt_entries::Verdict;
use pmt_explanation::{Summary, summary_of};
use pmt_model::Finding;
use pmt_pen::Pen;
use pmt_telling::{Bytes, Crashes, Made, Telling, pen_of, push_line, push_wrapped};

// The crashes of so many entries are named.
const FEW: usize = 3;

// Adds what to do next, and how large the trace is; these are the entries.
pub(crate) fn push_closing(pen: &mut Pen, told: &Telling<'_>, entries: &Shown<'_>) -> Made<()> {
    let counts = &summary_of(told.explanation);
    if counts.stores > 0 {
        push_next(pen, told, entries)?;
    }
    push_idle(pen, told);
    push_source_note(pen, told);
    push_size(pen, told, counts);
    Ok(())
}

// Adds the command that tells most next, whole in its line.
fn push_next(pen: &mut Pen, told: &Telling<'_>, entries: &Shown<'_>) -> Made<()> {
    if let Some(failing) = told.explanation.failing.first() {
        pen.put("next: ");
        push_command(pen, told, "pmtrim explain --failure #", *failing);
    } else if told.explanation.entries.verdict == Verdict::Lost && !told.volatile.is_empty() {
        pen.put("next: pmtrim explain");
        let sites = told.explanation.entries.sites.iter();
        for site in sites.filter(|site| told.volatile.contains(&site.row.place)) {
            push_ignored(pen, told, site, false);
        }
        push_command(pen, told, "", 0);
    } else {
        let first = entries.entries.first().and_then(|entry| entry.crashes);
        let few = entries.entries.iter().take(FEW).filter(|_| first.is_some());
        let mut crashes: Vec<Crashes> = few.filter_map(|entry| entry.crashes).collect(told.alloc)?;
        crashes.sort_unstable_by_key(|crash| crash.from);
        let all = crashes.is_empty();
        pen.put("next: run your recovery on each ");
        pen.put(if all { "crash" } else { "of these crashes" });
        pen.put(" (recorded with --base):\n  ");
        push_replay(pen, told, crashes.as_slice());
    }
    pen.put("\n");
    Ok(())
}

// Adds what the trace may lack of its run: flushes, labels, and claims of several threads.
pub(crate) fn push_recorded(pen: &mut Pen, told: &Telling<'_>, counts: &Summary) {
    if counts.events == 0 {
        pen.put("No events: was the recorder on, and of which file?\n");
    } else if counts.flushes == 0 {
        pen.put("No flushes: does the recorder take the program's?\n");
    }
    if told.labels.is_empty() {
        pen.put(NO_LABELS);
    }
    if told.has_threads && counts.assertions == 0 {
        pen.put(NO_CLAIMS);
    }
}

const NO_CLAIMS: &str =
    "Threads: claim what must be saved before another one goes on (pmtrace.h), and record with --seeds.\n";

const NO_LABELS: &str =
    "No labels: a site is a thread here. pmtrim-record and pmtrim-lines make them: lines of source.\n";

// Adds the first reason why a line of source is not there.
fn push_source_note(pen: &mut Pen, told: &Telling<'_>) {
    let sources = told.screen.sources;
    if let Some(note) = sources.and_then(|sources| sources.notes.first()) {
        let mut line = pen_of(told.alloc, "note: no source line: ");
        line.put(note.as_str());
        push_line(pen, &line);
    }
}

// Adds how large the trace is, and how it is read.
fn push_size(pen: &mut Pen, told: &Telling<'_>, counts: &Summary) {
    let form = "(% event~, % thread~; event N: line N + 1";
    let mut line = told.said(form, &[counts.events, counts.threads]);
    if told.explanation.places.iter().any(|row| row.late > 0) {
        line.put("; late: 2 or more fences went by");
    }
    line.put("; all: --limit all)");
    push_wrapped(pen, &line, 1);
}

// Adds how many of the ranges and of the labels to ignore leave out nothing, if some do.
pub(crate) fn push_idle(pen: &mut Pen, told: &Telling<'_>) {
    let ignored = told.screen.ignored;
    let ranges = ignored.ranges.iter();
    let idle = ranges.filter(|range| !has_byte(told, **range)).count();
    push_idle_ones(pen, "note: ranges", idle, ignored.ranges.len());
    let places = ignored.places.iter();
    let idle = places.filter(|place| !has_store(told, *place)).count();
    push_idle_ones(pen, "note: labels", idle, ignored.places.len());
}

// Adds how many of those that are given leave out nothing, if some do.
fn push_idle_ones(pen: &mut Pen, what: &str, idle: usize, given: usize) {
    if idle > 0 {
        pen.put(what);
        let numbers = [idle as u64, given as u64];
        pen.fill(" to ignore that leave out nothing: # of #\n", &numbers);
    }
}

// Whether a store that is lost or overwritten has a byte of the range.
fn has_byte(told: &Telling<'_>, range: ByteRange) -> bool {
    let bytes = Bytes::of(range.addr, range.len);
    let findings = told.explanation.analysis.findings();
    findings.iter().any(|finding| {
        let stored = told.stored(store_of(*finding));
        stored.is_some_and(|stored| stored.meets(bytes))
    })
}

// Whether a store that is lost or overwritten is at the place.
fn has_store(told: &Telling<'_>, place: &IgnoredPlace) -> bool {
    let findings = told.explanation.analysis.findings();
    findings.iter().any(|finding| is_at_place(told.labels, place, store_of(*finding)))
}

// The store that may be left out for the finding; 0 where it is none of a store.
fn store_of(finding: Finding) -> u64 {
    match finding {
        Finding::NeverPersisted { event, flushed: _ } => event,
        Finding::Overwritten { earlier, later: _ } => earlier,
        Finding::RedundantFlush { event: _ } | Finding::FenceWithoutFlush { event: _ } => 0,
    }
}
