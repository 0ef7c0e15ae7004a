//! Rows of stores that are never persisted, late or overwritten, and of flushes and fences that do nothing.

use crate::only::{push_table, row_of};
use pmt_causes::{DroppedKey, Group, LateSpot, LostKey, Origin, ReasonKind, Spot};
use pmt_explain::OverwrittenGroup;
use pmt_explanation::{first, first_of};
use pmt_pen::Pen;
use pmt_reasons::{Cause, Reason};
use pmt_telling::{Made, Telling, push_site};
use pmt_text::word_of;

// Adds the stores that are never persisted, a row for each cause and site.
pub(crate) fn push_lost(pen: &mut Pen, told: &Telling<'_>) -> Made<()> {
    let lost = told.explanation.lost.iter();
    let count = lost.fold(0u64, |sum, group| sum.saturating_add(group.count));
    let causes = told.explanation.lost_causes.as_slice();
    let what = "Stores never saved: %, by cause and site:";
    let rows = first(causes, told.explanation.limit).iter();
    let rows: Vec<Pen> = rows.map(|one| lost_row(told, one)).collect(told.alloc)?;
    push_table(pen, told, what, count, causes.len(), rows)
}

// The row of the stores that are lost for one cause: in how many cache lines, the first one, and why.
fn lost_row(told: &Telling<'_>, cause: &Group<LostKey>) -> Pen {
    let store = first_of(cause);
    let numbers = [cause.members.len() as u64, told.line_start(store), store];
    let mut row = told.said("  % cache line~, first @, $", &numbers);
    let lost = told.explanation.lost.as_slice();
    if let Ok(index) = lost.binary_search_by_key(&store, |group| group.first) {
        match lost.get(index).map(|group| group.cause) {
            Some(Cause::Unflushed) => row.put(": not flushed"),
            Some(Cause::Unfenced { flush, thread, .. }) => row.fill(
                ": flushed by event #, and never fenced by thread #",
                &[flush, thread as u64],
            ),
            Some(Cause::Later) | None => {}
        }
    }
    row
}

// Adds the late stores, a row for each site.
pub(crate) fn push_late(pen: &mut Pen, told: &Telling<'_>) -> Made<()> {
    let late = told.explanation.late.as_slice();
    let counts = late.iter().map(|group| group.members.len() as u64);
    let count = counts.fold(0u64, |sum, count| sum.saturating_add(count));
    let what = "Stores saved late or never: %, by site:";
    let rows = first(late, told.explanation.limit).iter();
    let rows: Vec<Pen> = rows.map(|one| late_row(told, one)).collect(told.alloc)?;
    push_table(pen, told, what, count, late.len(), rows)
}

// The row of late stores, with how many fences left the first one unsafe.
fn late_row(told: &Telling<'_>, group: &Group<LateSpot>) -> Pen {
    let store = first_of(group);
    let mut row = told.said("  % store~", &[group.members.len() as u64]);
    match group.key {
        LateSpot::Label(label) => {
            row.put(" at ");
            push_site(&mut row, told, Origin::Label(label));
        }
        LateSpot::Line(line) => row.fill(" to line @", &[told.line_address(line)]),
    }
    let form = ", first event #: % fence~ left it unsafe";
    told.say(&mut row, form, &[store, told.waited(store)]);
    row
}

// Adds the overwritten stores, a row for each cache line, those with other bytes first.
pub(crate) fn push_overwritten(pen: &mut Pen, told: &Telling<'_>) -> Made<()> {
    let found = told.explanation.overwritten.iter();
    let mut groups: Vec<OverwrittenGroup> = found.copied().collect(told.alloc)?;
    groups.sort_by_key(|group| group.same == group.count)?;
    let pairs = groups.iter();
    let count = pairs.fold(0u64, |sum, group| sum.saturating_add(group.count));
    let what = "Stores overwritten before any flush of their cache line: %, by cache line:";
    let rows = first(groups.as_slice(), told.explanation.limit).iter();
    let rows = rows.map(|one| overwritten_row(told, one));
    let rows: Vec<Pen> = rows.collect(told.alloc)?;
    push_table(pen, told, what, count, groups.len(), rows)
}

// The row of a cache line.
fn overwritten_row(told: &Telling<'_>, group: &OverwrittenGroup) -> Pen {
    let numbers = [group.count, told.line_address(group.line)];
    let mut row = told.said("  % store~ to line @, ", &numbers);
    let others = group.count.saturating_sub(group.same);
    let numbers = [others, group.first.earlier, group.first.later];
    told.say(&mut row, "% with other bytes: first $, by $", &numbers);
    row
}

// Adds the flushes and fences that do nothing, a row for each place and reason.
pub(crate) fn push_dropped(pen: &mut Pen, told: &Telling<'_>) -> Made<()> {
    let count = told.explanation.asked_dropped.len() as u64;
    let groups = told.explanation.dropped_groups.as_slice();
    let what = "Flushes and fences that do nothing: %, by place and reason:";
    let rows = first(groups, told.explanation.limit).iter();
    let rows: Vec<Pen> = rows.map(|one| dropped_row(told, one)).collect(told.alloc)?;
    push_table(pen, told, what, count, groups.len(), rows)
}

// The row of the group.
fn dropped_row(told: &Telling<'_>, group: &Group<DroppedKey>) -> Pen {
    let event = first_of(group);
    let mut row = row_of(told);
    if let Some(op) = told.op(event) {
        row.put(word_of(&op));
    }
    match group.key.spot {
        Spot::Label(label) => {
            row.put(" at ");
            row.put(told.label(label).unwrap_or(""));
        }
        Spot::Line { thread, line } => {
            let numbers = [told.line_address(line), thread as u64];
            row.fill(" of @ by thread #", &numbers);
        }
        Spot::Thread(thread) => row.fill(" by thread #", &[thread as u64]),
    }
    let count = group.members.len() as u64;
    told.say(&mut row, " (*), first event #: ", &[count, event]);
    row.put(words_of(group.key.reason));
    if let Some(by) = by_of(told, event) {
        row.fill(" (event #)", &[by]);
    }
    row
}

// The event in whose favour this one is dropped, if there is one.
fn by_of(told: &Telling<'_>, event: u64) -> Option<u64> {
    let dropped = told.explanation.asked_dropped.as_slice();
    let found = dropped.binary_search_by_key(&event, |entry| entry.event);
    match dropped.get(found.ok()?)?.reason {
        Reason::Repeated { by } | Reason::Overtaken { by } => Some(by),
        Reason::Safe | Reason::Unfenced | Reason::Empty | Reason::Useless => None,
    }
}

// Why the events of a group do nothing.
fn words_of(reason: ReasonKind) -> &'static str {
    match reason {
        ReasonKind::Safe => "all stores to its line are safe already",
        ReasonKind::Unfenced => "no fence of its thread follows; add that one",
        ReasonKind::Repeated => "flushed again before its fence",
        ReasonKind::Overtaken => "another flush saves its stores first",
        ReasonKind::Empty => "no flush of its thread waits for it",
        ReasonKind::Useless => "all that it completes is safe already",
    }
}
