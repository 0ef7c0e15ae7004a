//! Sites that lose or delay stores, and what tells whether that is meant.

ghost use Rattle.std.specs.Prelude.{◌≡◌, filter, map, IfOk, IfSome};
ghost use Rattle.pmt_laws.specs.Prelude.{list_any, event};
ghost use Rattle.pmt_explain.specs.Following.{IsUpcoming};
ghost use Rattle.pmt_fates.specs.Places.{misses as misses_in};
ghost use Rattle.pmt_entries.specs.Sites.{contrast_by, scratch_by, claimed_by, site_by, AreSites, first_missed as first_missed_in, thread_in};

use crate::claimed::unclaimed_places;
use crate::contrast::{misses, misses_few, mixed_paths};
use crate::place_sets::{Places, places_of};
use crate::scratch::{Lines, first_line, loses_all, scratch_lines, touched_places};
use crate::signs::{Signs, sign_of, signs_of};
use pmt_explain::{Upcoming, fences_by, number_of};
use pmt_fates::{PlaceRow, PlaceTable};
use pmt_hints::Hint;
use pmt_model::{OutOfMemory, Trace};
use std::alloc::Global;

/// A site that loses or delays stores: a line of source, or a thread.
#[derive(Clone, Copy)]
pub struct Site {
    /// What the site has in the trace.
    pub row: PlaceRow,
    /// The first of its stores that is lost, or else the first that is late.
    pub first: u64,
    /// That store's thread.
    pub thread: u8,
    /// The next fence of that thread after it; one more than the number of the last event where there is none.
    pub fence: u64,
    /// The index of the first hint that tells why, if one does.
    pub sign: Option<u64>,
    /// Fewer than half of its stores are lost or late, and each call path by which one is has none in time. Without labels it is not so.
    pub has_contrast: bool,
    /// It loses all that it stores, in lines that nothing flushes or asserts after the first lost store of the trace: to one address again and
    /// again, or first to a line of a site that does so.
    pub is_scratch: bool,
    /// Each of its stores that is lost or late is claimed by an assertion that passes.
    pub is_claimed: bool,
}

/// What sites are judged by.
#[derive(Drop)]
pub(crate) struct Facts {
    // Of each event, in order, the next fence of its thread.
    pub(crate) fences: Vec<u64>,
    // The first sign of each site.
    pub(crate) signs: Signs,
    // Whether there are rows of paths.
    pub(crate) has_paths: bool,
    // The sites that have a path by which some stores are lost or late and others are in time.
    pub(crate) mixed: Places,
    // The sites that lose a store to a line that an event after the first lost store of the trace flushes, or an assertion after it has a
    // byte of; none where no site loses all that it stores to one address.
    pub(crate) touched: Places,
    // The first lines of the sites that are scratch by themselves.
    pub(crate) scratch: Lines,
    // The sites with an unclaimed store that two fences or more of its thread leave unsafe; none where no site is only late.
    pub(crate) unclaimed: Places,
}

/// The sites of the table that lose or delay stores, in its order.
///
/// `frames` are the numbers of the innermost frames of the events' labels, by which `table` was made. `told` are the stores told as never
/// persisted; of each event, in order, `waited` tells for how many fences it waits, and `claimed` whether it is a store that an assertion
/// claims. `upcoming` is what comes next after each event, if that is known.
///
/// It takes one look at each row. Where one loses or delays a store, it takes another look at each event and each hint; where one loses all
/// that it stores to one address, one more at each event, with a look-up at each flush and each line of an assertion; and where one delays
/// stores and loses none, one more.
///
/// # Errors
/// Where memory was refused.
pub fn sites_of(
    alloc: Global,
    trace: &Trace,
    frames: &[Option<u64>],
    table: &PlaceTable,
    hints: &[Hint],
    told: &[u64],
    waited: &[u64],
    claimed: &[bool],
    upcoming: &Option<Upcoming>,
) -> Result<Vec<Site>, OutOfMemory>
    requires { IfSome upcoming.now (IsUpcoming trace.now) }
    ensures { IfOk result (λ sites. AreSites trace.now frames.now table.now hints.now told.now waited.now claimed.now sites.items) }
{
    let rows = table.places.as_slice();
    if !is_any_missed(rows) {
        return Ok(Vec::new(alloc));
    }
    let fences = fences_by(alloc, trace, upcoming)?;
    let signs = signs_of(alloc, trace, fences.as_slice(), hints)?;
    let paths = table.paths.as_slice();
    let mixed = mixed_paths(alloc, paths)?;
    let mixed = places_of(alloc, trace, frames, mixed.as_slice())?;
    let touched = touched_places(alloc, trace, frames, rows, told)?;
    let scratch = scratch_lines(alloc, trace, &touched, rows)?;
    let unclaimed = unclaimed_places(alloc, trace, frames, rows, waited, claimed)?;
    let facts = Facts {
        fences,
        signs,
        has_paths: !paths.is_empty(),
        mixed,
        touched,
        scratch,
        unclaimed,
    };
    sites_by(alloc, trace, &facts, rows)
}

// Whether one of these sites loses or delays a store.
fn is_any_missed(rows: &[PlaceRow]) -> bool
    ensures { result ≡ list_any misses_in rows.now }
{
    rows.iter().any(|row| misses(row))
}

// The sites of these rows that lose or delay stores.
fn sites_by(
    alloc: Global,
    trace: &Trace,
    facts: &Facts,
    rows: &[PlaceRow],
) -> Result<Vec<Site>, OutOfMemory>
    ensures { IfOk result (λ sites. sites.items ≡ map (site_by trace.now facts.now) (filter misses_in rows.now)) }
{
    rows.iter()
        .filter(|row| misses(*row))
        .map(|row| site_of(trace, facts, row))
        .collect(alloc)
}

// The site with this row.
fn site_of(trace: &Trace, facts: &Facts, row: &PlaceRow) -> Site
    ensures { result ≡ site_by trace.now facts.now row.now }
{
    let first = first_missed(row);
    let fences = facts.fences.as_slice();
    Site {
        row: *row,
        first,
        thread: thread_of(trace, first),
        fence: number_of(fences, first),
        sign: sign_of(&facts.signs, trace, fences, row.place, first),
        has_contrast: has_contrast(facts, row),
        is_scratch: is_scratch(trace, facts, row),
        is_claimed: is_claimed(facts, row),
    }
}

// The thread of the event with this number.
fn thread_of(trace: &Trace, number: u64) -> u8
    ensures { result ≡ thread_in (event trace.now number) }
{
    match trace.get(number) {
        Some(event) => event.thread,
        None => 0,
    }
}

// The first store of the site that is lost, or else the first that is late.
fn first_missed(row: &PlaceRow) -> u64
    ensures { result ≡ first_missed_in row.now }
{
    match row.first_lost {
        Some(store) => store,
        None => row.first_late.unwrap_or(0),
    }
}

// Whether there are labels, fewer than half of its stores are lost or late, and each path by which one is has none in time.
fn has_contrast(facts: &Facts, row: &PlaceRow) -> bool
    ensures { result ≡ contrast_by facts.now row.now }
{
    facts.has_paths && misses_few(row) && !facts.mixed.contains(&row.place)
}

// Whether it loses all that it stores, in lines that nothing flushes or asserts after the first lost store of the trace, and first to one of
// the lines of scratch.
fn is_scratch(trace: &Trace, facts: &Facts, row: &PlaceRow) -> bool
    ensures { result ≡ scratch_by trace.now facts.now row.now }
{
    loses_all(row)
        && !facts.touched.contains(&row.place)
        && facts.scratch.contains(&first_line(trace, row))
}

// Whether it loses no store, and each late one is claimed.
fn is_claimed(facts: &Facts, row: &PlaceRow) -> bool
    ensures { result ≡ claimed_by facts.now row.now }
{
    row.lost == 0 && !facts.unclaimed.contains(&row.place)
}
