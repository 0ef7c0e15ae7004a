//! Entries of sites and paths each of whose stores is saved one fence late.

use crate::failures::push_flush_when;
use crate::hints::push_caller;
use crate::partners::saving_of;
use crate::sites::{push_site, push_sites};
use crate::{Crashes, Made, Telling, Told, pen_of};
use pmt_causes::Origin;
use pmt_entries::{Entry, Subject};
use pmt_fates::PlaceRow;
use pmt_pen::Pen;

/// The row of the entry, if it is of such a site or path.
pub fn left_row(told: &Telling<'_>, entry: Entry) -> Option<PlaceRow> {
    match entry.subject {
        Subject::Left(index) => told.explanation.places.get(index as usize).copied(),
        Subject::LeftPath(index) => told.explanation.left_paths.get(index as usize).copied(),
        Subject::Failure(_) | Subject::Loss(_) | Subject::Hint(_) => None,
    }
}

/// What is told of the sites, or the path, of these entries: what a crash keeps without the first store, and what to do.
///
/// # Errors
/// Where memory was refused.
pub fn left_entry<'a>(told: &Telling<'a>, entries: &[Entry], has_story: bool) -> Made<Told<'a>> {
    let mut entry = Told::new(told.alloc);
    let row = entries.first().and_then(|first| left_row(told, *first));
    let Some((row, store)) = row.and_then(|row| Some((row, row.first_left?))) else {
        return Ok(entry);
    };
    push_left_head(&mut entry.what, told, entries)?;
    push_site(&mut entry.site, told, told.origin(row.first));
    entry.gist.put("saved one fence late");
    if is_path(entries) {
        let mut aside = pen_of(told.alloc, "on the path ");
        aside.put(told.label(row.first).unwrap_or(""));
        entry.aside(aside);
    }
    let saves = saving_of(told, store, has_story)?.saves;
    let before = row.saved_before.map(|saved| saved.store);
    entry.row(Some(store), "a crash can lose it");
    entry.row(before, "a crash can keep it");
    entry.row(saves, "safe only here");
    push_fix(&mut entry, told, store, before);
    entry.crashes = saves.map(|to| Crashes { from: store, to });
    entry.edited = Some(store);
    Ok(entry)
}

// Whether the entries are one of a path.
fn is_path(entries: &[Entry]) -> bool {
    let first = entries.first().map(|entry| entry.subject);
    matches!(first, Some(Subject::LeftPath(_)))
}

/// Adds how many stores of the sites, or the path, of these entries are saved one fence late, and where.
///
/// # Errors
/// Where memory was refused.
pub fn push_left_head(pen: &mut Pen, told: &Telling<'_>, entries: &[Entry]) -> Made<()> {
    let rows = entries.iter().filter_map(|entry| left_row(told, *entry));
    let rows: Vec<PlaceRow> = rows.collect(told.alloc)?;
    let counts = rows.iter().map(|row| row.left);
    let left = counts.fold(0u64, |sum, count| sum.saturating_add(count));
    told.say(pen, "% store~ saved one fence late, at ", &[left]);
    let events = rows.iter().map(|row| row.first);
    let places: Vec<Origin> = events.map(|event| told.origin(event)).collect(told.alloc)?;
    push_sites(pen, told, places.as_slice());
    if let Some(row) = rows.first().filter(|_| is_path(entries)) {
        push_caller(pen, told, row.first);
    }
    Ok(())
}

// Adds what to do about the store, and why, where a crash keeps the one before which it has to be safe.
fn push_fix(entry: &mut Told<'_>, told: &Telling<'_>, store: u64, before: Option<u64>) {
    let fix = &mut entry.fix;
    fix.fill("flush line @", &[told.line_start(store)]);
    match before.filter(|before| store < *before) {
        Some(before) => told.say(fix, " and fence before $", &[before]),
        None => push_flush_when(fix, told, store, None),
    }
    if let Some(before) = before {
        let form = ", or see that recovery does not follow event # to what event # stores";
        fix.fill(form, &[before, store]);
        told.say(&mut entry.why, "a crash can keep $ without them", &[before]);
    }
}
