//! Entries that are told as one.

use crate::Telling;
use crate::partners::function_at;
use pmt_causes::{CauseKind, Origin};
use pmt_entries::{Entry, Subject};

/// The first of these entries, and those behind it that are told with it.
pub fn together<'e>(told: &Telling<'_>, entries: &'e [Entry]) -> &'e [Entry] {
    let common = entries.first().and_then(|entry| told_with(told, *entry));
    let others = entries.iter().skip(1).filter(|_| common.is_some());
    let others = others.take_while(|entry| told_with(told, **entry) == common);
    let count = others.count().saturating_add(1);
    entries.get(..count).unwrap_or(entries)
}

// What entries that are told together have in common: of failures the site of the lost store, the kind of cause, and whether another thread
// asserts; of sites that are saved one fence late their function, and the site of what a crash keeps.
fn told_with<'a>(
    told: &Telling<'a>,
    entry: Entry,
) -> Option<(Origin, Option<CauseKind>, bool, &'a str)> {
    match entry.subject {
        Subject::Failure(index) => {
            let shown = told.explanation.failures.get(index as usize)?;
            let group = told.explanation.causes.get(index as usize)?;
            let lost = shown.failure.lost.store;
            let is_crossing = told.thread(lost) != told.thread(shown.event);
            Some((told.origin(lost), Some(group.key.cause), is_crossing, ""))
        }
        Subject::Left(index) => {
            let row = told.explanation.places.get(index as usize)?;
            let function = function_at(told.label(row.first)?, 0);
            let kept = told.origin(row.saved_before?.store);
            Some((kept, None, false, function)).filter(|_| !function.is_empty())
        }
        Subject::Loss(_) | Subject::Hint(_) | Subject::LeftPath(_) => None,
    }
}
