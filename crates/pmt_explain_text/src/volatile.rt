//! Fields that are stored again and again, and never saved in time: where a program has many, they are mostly meant to be volatile.

use pmt_causes::Origin;
use pmt_entries::{Entry, Site, Subject, Weight, weight_of_site};
use pmt_explanation::summary_of;
use pmt_telling::{Made, Telling, missed_of, site_frame};
use std::collections::{HashMap, HashSet};

// A slip concerns one in so many stores at most: it would be seen else.
const SLIP: u64 = 3;

// So many stores of a site, or more, come again and again.
const AGAIN: u64 = 10;

// How many stores to a field are missed if it is saved at other times.
const SAVED: u64 = u64::MAX;

// Whether the part is more than a slip concerns.
fn is_much(part: u64, all: u64) -> bool {
    all / SLIP < part
}

// The sites that store to such fields, if a trace never saves more than a slip misses: hardly any of their stores are in time, and most go to
// addresses that are missed twice or more, and that no site which saves much of what it stores saves after that.
pub(crate) fn volatile_sites(told: &Telling<'_>) -> Made<HashSet<Origin>> {
    let mut found = HashSet::new(told.alloc);
    let counts = summary_of(told.explanation);
    let ignored = counts.ignored_never_persisted;
    let lost = counts.never_persisted.saturating_add(ignored);
    if told.labels.is_empty() || !is_much(lost, counts.stores) {
        return Ok(found);
    }
    let missed = missed_by_address(told)?;
    let mut again: HashMap<Origin, u64> = HashMap::new(told.alloc);
    for number in (1..told.end()).filter(|number| is_missed(told, *number)) {
        let address = told.address(number).unwrap_or(0);
        let count = missed.get(&address);
        if count.is_some_and(|count| 2 <= *count && *count < SAVED) {
            let place = told.origin(number);
            let count = again.get(&place).copied().unwrap_or(0);
            again.insert(place, count.saturating_add(1))?;
        }
    }
    for site in told.explanation.entries.sites.iter() {
        let row = &site.row;
        let count = again.get(&row.place).copied().unwrap_or(0);
        let others = missed_of(row).saturating_sub(count);
        let is_again = AGAIN <= count && others < count;
        let is_told = weight_of_site(site) != Weight::Meant
            && site_frame(told, row.place).is_some();
        if is_again && is_told && !is_much(row.in_time, row.stores) {
            found.insert(row.place)?;
        }
    }
    Ok(found)
}

// Of each address how many stores to it are lost or late, or that it is saved after one.
fn missed_by_address(told: &Telling<'_>) -> Made<HashMap<u64, u64>> {
    let rows = told.explanation.places.iter();
    let rows = rows.filter(|row| is_much(row.in_time, row.stores));
    let saving: HashSet<Origin> = rows.map(|row| row.place).collect(told.alloc)?;
    let mut missed: HashMap<u64, u64> = HashMap::new(told.alloc);
    for number in 1..told.end() {
        if let Some(stored) = told.stored(number) {
            let count = missed.get(&stored.start).copied().unwrap_or(0);
            if is_missed(told, number) {
                missed.insert(stored.start, count.saturating_add(1))?;
            } else if 0 < count && saving.contains(&told.origin(number)) {
                missed.insert(stored.start, SAVED)?;
            }
        }
    }
    Ok(missed)
}

// Whether the event is a store that is lost or late.
fn is_missed(told: &Telling<'_>, number: u64) -> bool {
    told.is_lost(number) || told.waited(number) >= 2
}

// Whether the entry is of such sites alone.
pub(crate) fn is_volatile(told: &Telling<'_>, entry: Entry) -> bool {
    let entries = &told.explanation.entries;
    let is_told = |member: &u64| {
        let site = entries.sites.get(*member as usize);
        site.is_some_and(|site| told.volatile.contains(&site.row.place))
    };
    let Subject::Loss(index) = entry.subject else {
        return false;
    };
    let loss = entries.losses.get(index as usize);
    loss.is_some_and(|loss| loss.members.iter().all(is_told))
}
