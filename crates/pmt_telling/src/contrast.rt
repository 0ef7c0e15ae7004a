//! By way of which caller a site goes wrong, where by others it does not.

use crate::sites::{frame_at, frames_up_to, push_call, push_spot};
use crate::{Made, Telling, Told};
use pmt_entries::Site;
use pmt_fates::PlaceRow;
use pmt_pen::Pen;

// The most callers of a path that are compared.
const DEEPEST: usize = 64;

// So many of so many.
#[derive(Clone, Copy)]
struct Share {
    part: u64,
    all: u64,
}

impl Share {
    // Adds these.
    fn add(&mut self, part: u64, all: u64) {
        self.part = self.part.saturating_add(part);
        self.all = self.all.saturating_add(all);
    }
}

// Nothing of nothing.
const EMPTY: Share = Share { part: 0, all: 0 };

// What becomes of what comes by way of a caller, and of what comes by others.
#[derive(Clone, Copy)]
struct Split<'a> {
    frame: &'a str,
    own: Share,
    others: Share,
}

impl Split<'_> {
    // Whether none goes wrong by way of others.
    fn is_only(&self) -> bool {
        self.others.part == self.others.all
    }
}

// Adds what becomes of both, by these forms.
fn push_split(pen: &mut Pen, told: &Telling<'_>, split: &Split<'_>, own: &str, others: &str) {
    pen.put(if split.is_only() { "only by " } else { "by " });
    push_call(pen, split.frame);
    told.say(pen, own, &[split.own.part, split.own.all]);
    pen.put("; by other callers");
    told.say(pen, others, &[split.others.part, split.others.all]);
}

// Adds by way of which caller the site of an entry of so many misses stores, where others save all; or else how many it misses.
pub(crate) fn add_contrast<'a>(
    told: &Telling<'a>,
    site: &Site,
    sites: usize,
    entry: &mut Told<'a>,
) -> Made<()> {
    let rows = told.explanation.paths.iter();
    let rows = rows.filter(|row| told.origin(row.first) == site.row.place);
    let paths: Vec<&PlaceRow> = rows.collect(told.alloc)?;
    let label = told.label(site.first).unwrap_or("");
    let mut line = Pen::new(told.alloc);
    if let Some(split) = split_of(told, paths.as_slice(), label) {
        let own = words_of(&site.row);
        push_split(&mut line, told, &split, own, ": % of % in time");
        entry.call = Some(split.frame);
        entry.site.put(", called by ");
        push_call(&mut entry.site, split.frame);
        if split.is_only() {
            entry.gist.put(" by this caller alone; meant?");
        }
    } else if stores_of(&site.row) > 1 {
        push_share(&mut line, told, &site.row, sites);
    }
    entry.aside(line);
    Ok(())
}

// The split by the innermost caller of the label through which all goes that is missed, or no path saves any in time; another path saves all.
fn split_of<'a>(told: &Telling<'a>, paths: &[&PlaceRow], label: &'a str) -> Option<Split<'a>> {
    for depth in 1..DEEPEST {
        let frame = frame_at(label, depth)?;
        let frames = depth.saturating_add(1);
        let call = frames_up_to(label, frames);
        let (mut own, mut others) = (EMPTY, EMPTY);
        let mut is_split = true;
        let mut has_good = false;
        for path in paths {
            let missed = missed_of(*path);
            let other = told.label(path.first).unwrap_or("");
            if frames_up_to(other, frames) == call {
                own.add(missed, stores_of(*path));
                is_split = is_split && missed > 0 && path.in_time == 0;
            } else {
                others.add(path.in_time, stores_of(*path));
                has_good = has_good || missed == 0;
            }
        }
        let split = Split { frame, own, others };
        if has_good && (is_split || split.is_only()) {
            return Some(split);
        }
    }
    None
}

// What becomes of the site's stores by way of the caller.
fn words_of(row: &PlaceRow) -> &'static str {
    match (row.lost, row.late) {
        (_, 0) => ": % of % never saved",
        (0, _) => ": % of % saved late",
        _ => ": % of % lost or late",
    }
}

/// How many stores the row loses or delays.
pub fn missed_of(row: &PlaceRow) -> u64 {
    row.lost.saturating_add(row.late)
}

// How many stores the row has that are not ignored.
fn stores_of(row: &PlaceRow) -> u64 {
    row.stores.saturating_sub(row.ignored)
}

// Adds how many stores of the site are not saved in time; it is named if it is one of several.
pub(crate) fn push_share(pen: &mut Pen, told: &Telling<'_>, row: &PlaceRow, sites: usize) {
    told.say(pen, "% of % stores", &[missed_of(row), stores_of(row)]);
    if sites > 1 {
        pen.put(" of ");
        push_spot(pen, told, row.place);
    }
    match row.in_time {
        0 => pen.put("; none is saved in time"),
        1 => pen.put("; the other one in time"),
        count => pen.fill("; the other # in time", &[count]),
    }
}

// Adds by which caller assertions of the site of the failed one fail, if some pass by others. It takes a look at all assertions.
pub(crate) fn add_failing_call<'a>(entry: &mut Told<'a>, told: &Telling<'a>, event: u64) {
    let Some(frame) = told.caller(event) else {
        return;
    };
    let site = told.origin(event);
    let (mut own, mut others) = (EMPTY, EMPTY);
    for verdict in told.explanation.analysis.verdicts() {
        if told.origin(verdict.event) == site {
            let holds = if verdict.pass { 1 } else { 0 };
            if told.caller(verdict.event) == Some(frame) {
                own.add(1u64.saturating_sub(holds), 1);
            } else {
                others.add(holds, 1);
            }
        }
    }
    if others.part > 0 {
        let mut line = Pen::new(told.alloc);
        let split = Split { frame, own, others };
        push_split(&mut line, told, &split, ": % of % fail", ": % of % hold");
        entry.aside(line);
        entry.call = Some(frame);
    }
}
