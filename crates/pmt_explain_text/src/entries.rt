//! Entries in words.

use crate::meant::meant_entry;
use crate::volatile::is_volatile;
use pmt_causes::Origin;
use pmt_entries::{Entry, Site, Subject, Weight};
use pmt_telling::{
    Made, Telling, Told, failure_entry, hint_entry, left_entry, loss_entry, sites_of, tells_loss,
    together,
};
use std::collections::HashSet;

// The most entries of a screen that are told.
const MOST: usize = 5;

// So many entries are told with a story: each looks at all events after its store.
const STORIES: usize = 32;

// Entries in words: the first ones of so many.
#[derive(Drop)]
pub(crate) struct Shown<'a> {
    pub(crate) entries: Vec<Told<'a>>,
    pub(crate) total: usize,
}

// The first of the entries that are meant, or of those that are not: as many as a screen tells, or as are asked for.
pub(crate) fn shown_entries<'a>(told: &Telling<'a>, are_meant: bool) -> Made<Shown<'a>> {
    let limit = told.explanation.limit;
    let is_screen = told.screen.rows.is_some();
    let most = if is_screen { MOST.min(limit) } else { limit };
    let entries = Vec::new(told.alloc);
    let mut found = Shown { entries, total: 0 };
    let mut asked = HashSet::new(told.alloc);
    // How many of the next entries stand in the one before.
    let mut within = 0usize;
    let entries = told.explanation.entries.entries.as_slice();
    for (place, entry) in entries.iter().enumerate() {
        if is_asked(told, *entry) != are_meant || is_in_failure(told, *entry)? {
            continue;
        }
        let sites = asked_sites(told, *entry, &mut asked)?;
        if within > 0 || are_meant && sites.is_empty() {
            within = within.saturating_sub(1);
            continue;
        }
        let together = together(told, entries.get(place..).unwrap_or(&[]));
        within = together.len().saturating_sub(1);
        if found.total < most {
            let words = if are_meant {
                meant_entry(told, sites)?
            } else {
                entry_of(told, together, found.total < STORIES)?
            };
            found.entries.push(words)?;
        }
        found.total = found.total.saturating_add(1);
    }
    Ok(found)
}

// Whether the entry is told as a question.
fn is_asked(told: &Telling<'_>, entry: Entry) -> bool {
    is_volatile(told, entry) || entry.weight == Weight::Meant
}

// The sites that the question about the entry is of, but for those that are asked about already.
fn asked_sites(told: &Telling<'_>, entry: Entry, asked: &mut HashSet<Origin>) -> Made<Vec<Site>> {
    let own = match entry.subject {
        Subject::Loss(index) if is_asked(told, entry) => sites_of(told, index)?,
        _ => return Ok(Vec::new(told.alloc)),
    };
    let mut found = Vec::new(told.alloc);
    for site in told.explanation.entries.sites.iter() {
        if own.iter().any(|other| is_with(told, site, other)) && asked.insert(site.row.place)? {
            found.push(*site)?;
        }
    }
    Ok(found)
}

// Whether one question is of both sites: they are one, or both may be volatile, or both may be scratch in one cache line.
fn is_with(told: &Telling<'_>, site: &Site, other: &Site) -> bool {
    let places = [site.row.place, other.row.place];
    site.row.place == other.row.place
        || places.iter().all(|place| told.volatile.contains(place))
        || site.is_scratch && other.is_scratch && told.line(site.first) == told.line(other.first)
}

// Whether a failure tells it: a loss of which nothing else tells why, but that assertions fail for a store of each of its sites.
fn is_in_failure(told: &Telling<'_>, entry: Entry) -> Made<bool> {
    let Subject::Loss(index) = entry.subject else {
        return Ok(false);
    };
    let sites = sites_of(told, index)?;
    let is_told = |site: &Site| !site.has_contrast && tells_loss(told, site);
    Ok(!sites.is_empty() && sites.iter().all(|site| is_told(site)))
}

// The entry in words that the first of these is told by.
fn entry_of<'a>(told: &Telling<'a>, entries: &[Entry], has_story: bool) -> Made<Told<'a>> {
    match entries.first().map(|entry| entry.subject) {
        Some(Subject::Failure(index)) => failure_entry(told, index, entries.len(), has_story),
        Some(Subject::Loss(index)) => loss_entry(told, index, has_story),
        Some(Subject::Hint(index)) => Ok(hint_entry(told, index)),
        Some(Subject::Left(_) | Subject::LeftPath(_)) => left_entry(told, entries, has_story),
        None => Ok(Told::new(told.alloc)),
    }
}
