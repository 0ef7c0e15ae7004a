//! What is told of a trace first, as a picture shows it.

use pmt_entries::{Site, Subject};
use pmt_explanation::Explanation;
use pmt_picture::{DrawnSubject, line_of_op};

/// What the first entry tells; where there is none the events around the first flush or fence that has no effect, or else the first ones.
pub(crate) fn first_subject(explanation: &Explanation) -> DrawnSubject {
    for entry in &explanation.entries.entries {
        if let Some(subject) = subject_of(explanation, entry.subject) {
            return subject;
        }
    }
    match explanation.dropped.first() {
        Some(dropped) => DrawnSubject::Around(dropped.event),
        None => DrawnSubject::Around(0),
    }
}

// What the entry of this subject tells.
fn subject_of(explanation: &Explanation, told: Subject) -> Option<DrawnSubject> {
    match told {
        Subject::Failure(index) => {
            let group = explanation.causes.get(index as usize)?;
            let first = group.members.as_slice().first().copied()?;
            Some(DrawnSubject::Failure(first))
        }
        Subject::Loss(index) => {
            let group = explanation.entries.losses.get(index as usize)?;
            let first = group.members.as_slice().first().copied()?;
            let site = explanation.entries.sites.get(first as usize)?;
            missed_subject(explanation, site)
        }
        Subject::Hint(index) => {
            let hint = explanation.hints.get(index as usize)?;
            Some(DrawnSubject::Around(hint.first))
        }
        Subject::Left(index) => {
            let place = explanation.places.get(index as usize)?;
            Some(DrawnSubject::Around(place.first_left?))
        }
        Subject::LeftPath(index) => {
            let path = explanation.left_paths.get(index as usize)?;
            Some(DrawnSubject::Around(path.first_left?))
        }
    }
}

// The stores that are lost with the first one of the site, or that one alone, which is late.
fn missed_subject(explanation: &Explanation, site: &Site) -> Option<DrawnSubject> {
    if site.row.first_lost.is_none() {
        return Some(DrawnSubject::Late(site.first));
    }
    let trace = explanation.analysis.trace();
    let op = trace.get(site.first)?.op;
    let line = line_of_op(trace.format(), op)?;
    for group in &explanation.lost {
        if group.line == line && group.first <= site.first && site.first <= group.last {
            return Some(DrawnSubject::Lost(*group));
        }
    }
    None
}
