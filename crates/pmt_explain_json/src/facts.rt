//! What an entry tells, whatever it is of.
ghost use Rattle.std.specs.Prelude.{◌≡◌, slice_get};
ghost use Rattle.pmt_explain_json.specs.Lines.{facts_of as facts_in, failure_facts, hint_facts, left_facts, left_path as left_path_in, loss_facts, missed_why as missed_why_in, plain_facts, sign_of as sign_in, site_facts as site_facts_in};

use pmt_causes::{CauseKind, FailureKey, Group, Origin};
use pmt_entries::{Entries, Site, Subject};
use pmt_explanation::{Explanation, first_of};
use pmt_fates::PlaceRow;
use pmt_hints::{Hint, HintKind};

// Why an entry is told.
#[derive(Clone, Copy)]
pub(crate) enum Why {
    // A crash can lose for this cause what is claimed.
    Failure(CauseKind),
    // Stores are never persisted.
    Lost,
    // Stores are persisted late.
    Late,
    // Hints of this kind.
    Hint(HintKind),
    // Each store is saved one fence late.
    Left,
}

// What an entry tells.
#[derive(Clone, Copy)]
pub(crate) struct Facts {
    // The site, of several the first.
    pub(crate) site: Origin,
    // The call path, by the number of its label, where it is told of that alone.
    pub(crate) path: Option<u64>,
    // How many events it tells of there, and of how many stores, where these are stores.
    pub(crate) count: u64,
    pub(crate) of: Option<u64>,
    // The first of these events.
    pub(crate) first: Option<u64>,
    pub(crate) why: Why,
    // The hint that is a sign of the loss, and what else is known of the first site of one.
    pub(crate) sign: Option<HintKind>,
    pub(crate) has_contrast: bool,
    pub(crate) is_claimed: bool,
    pub(crate) is_scratch: bool,
}

// What the entry of this subject tells, if the explanation has that.
pub(crate) fn facts_of(explanation: &Explanation, subject: Subject) -> Option<Facts>
    ensures { result ≡ facts_in explanation.now subject }
{
    match subject {
        Subject::Failure(index) => failure_at(explanation.causes.as_slice(), index),
        Subject::Loss(index) => loss_at(&explanation.entries, explanation.hints.as_slice(), index),
        Subject::Hint(index) => hint_at(explanation.hints.as_slice(), index),
        Subject::Left(index) => left_at(explanation.places.as_slice(), false, index),
        Subject::LeftPath(index) => left_at(explanation.left_paths.as_slice(), true, index),
    }
}

// What is told of the group of failed assertions with this index.
fn failure_at(groups: &[Group<FailureKey>], index: u64) -> Option<Facts>
    ensures { result ≡ failure_facts (slice_get groups.now index) }
{
    let Some(group) = groups.get(index as usize) else {
        return None;
    };
    let count = group.members.len() as u64;
    let first = Some(first_of(group));
    let key = group.key;
    Some(plain(
        key.origin,
        None,
        count,
        None,
        first,
        Why::Failure(key.cause),
    ))
}

// What is told of the loss with this index.
fn loss_at(entries: &Entries, hints: &[Hint], index: u64) -> Option<Facts>
    ensures { result ≡ loss_facts entries.now hints.now (slice_get entries.now.losses.items index) }
{
    let Some(group) = entries.losses.get(index as usize) else {
        return None;
    };
    let Some(site) = entries.sites.get(first_of(group) as usize) else {
        return None;
    };
    Some(site_facts(group.key.loses, site, hints))
}

// What is told of sites of which this is the first, where they lose stores or only delay some.
fn site_facts(loses: bool, site: &Site, hints: &[Hint]) -> Facts
    ensures { result ≡ site_facts_in loses hints.now site.now }
{
    let row = site.row;
    Facts {
        site: row.place,
        path: None,
        count: row.lost.saturating_add(row.late),
        of: Some(row.stores),
        first: Some(site.first),
        why: missed_why(loses),
        sign: sign_of(hints, site.sign),
        has_contrast: site.has_contrast,
        is_claimed: site.is_claimed,
        is_scratch: site.is_scratch,
    }
}

fn missed_why(loses: bool) -> Why
    ensures { result ≡ missed_why_in loses }
{
    if loses { Why::Lost } else { Why::Late }
}

// The kind of the hint with this index.
fn sign_of(hints: &[Hint], index: Option<u64>) -> Option<HintKind>
    ensures { result ≡ sign_in hints.now index }
{
    let Some(index) = index else {
        return None;
    };
    match hints.get(index as usize) {
        Some(hint) => Some(hint.kind),
        None => None,
    }
}

// What is told of the hint with this index.
fn hint_at(hints: &[Hint], index: u64) -> Option<Facts>
    ensures { result ≡ hint_facts (slice_get hints.now index) }
{
    let Some(hint) = hints.get(index as usize) else {
        return None;
    };
    let first = Some(hint.first);
    Some(plain(
        hint.place,
        hint.path,
        hint.count,
        None,
        first,
        Why::Hint(hint.kind),
    ))
}

// What is told of the site or path of the row with this index, each of whose stores is saved one fence late.
fn left_at(rows: &[PlaceRow], whole: bool, index: u64) -> Option<Facts>
    ensures { result ≡ left_facts whole (slice_get rows.now index) }
{
    let Some(row) = rows.get(index as usize) else {
        return None;
    };
    let path = left_path(whole, row.place);
    Some(plain(
        row.place,
        path,
        row.left,
        Some(row.stores),
        row.first_left,
        Why::Left,
    ))
}

// The label that the place is, if it is a whole one.
fn left_path(whole: bool, place: Origin) -> Option<u64>
    ensures { result ≡ left_path_in whole place }
{
    match place {
        Origin::Label(number) if whole => Some(number),
        _ => None,
    }
}

// What is told of what loses and delays nothing.
fn plain(
    site: Origin,
    path: Option<u64>,
    count: u64,
    of: Option<u64>,
    first: Option<u64>,
    why: Why,
) -> Facts
    ensures { result ≡ plain_facts site path count of first why }
{
    Facts {
        site,
        path,
        count,
        of,
        first,
        why,
        sign: None,
        has_contrast: false,
        is_claimed: false,
        is_scratch: false,
    }
}
