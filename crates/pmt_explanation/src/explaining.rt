//! The explanation of a trace.
ghost use Rattle.std.specs.Prelude.{◌≡◌, IfOk};
ghost use Rattle.pmt_explanation.specs.Explaining.{AreParts, IsExplanation};
ghost use Rattle.pmt_asked.specs.declared.options.Options.{Options};
ghost use Rattle.pmt_asked.specs.declared.labels.Labels.{Labels};
ghost use Rattle.pmt_explain.specs.Following.{AreSafePlaces};

use crate::firsts::Firsts;
use crate::found::{Begun, Found, found_of};
use crate::frames::frame_numbers;
use crate::numbering::label_numbers;
use crate::risks::{Broken, Lost, Risks};
use pmt_analysis::Analysis;
use pmt_asked::{Labels, Options};
use pmt_causes::{DroppedKey, FailureKey, Group, LateSpot, LostKey};
use pmt_entries::Entries;
use pmt_explain::{Dropped, LostGroup, OverwrittenGroup, SafePlaces};
use pmt_failures::{ShownFailure, Unwritten};
use pmt_fates::PlaceRow;
use pmt_hints::Hint;
use pmt_model::OutOfMemory;
use std::alloc::Global;
use std::thread::Threads;

/// What is to be told of a trace.
#[derive(Drop)]
pub struct Explanation {
    /// The trace and its analysis.
    pub analysis: Analysis,
    /// The most entries of each kind that are shown.
    pub limit: usize,
    /// The assertions that fail, by rising event number.
    pub failing: Vec<u64>,
    /// Those of them that are asked for.
    pub asked_failing: Vec<u64>,
    /// Of each event, in order, the number of its label: that of the first event with it. Nothing where no event has a label.
    pub label_numbers: Vec<Option<u64>>,
    /// Of each event, in order, the number of the innermost frame of its label: that of the first event with it.
    pub frames: Vec<Option<u64>>,
    /// What each place of the source has in the trace: each innermost frame by its number, and each thread that has events without label.
    pub places: Vec<PlaceRow>,
    /// Those call paths of which one fence leaves each store unsafe, though not each of their place: whole labels by their numbers.
    pub left_paths: Vec<PlaceRow>,
    /// The rows of call paths, by whole labels, if a site loses or delays a store, or one fence leaves a part of a site's stores unsafe.
    pub paths: Vec<PlaceRow>,
    /// All hints, by kind and place.
    pub hints: Vec<Hint>,
    /// Those of them that are asked for by their first event.
    pub asked_hints: Vec<Hint>,
    /// What is told first, by weight, and the verdict. Failures are the indexes of `causes`.
    pub entries: Entries,
    /// Those of `asked_failing`, by cause and place.
    pub causes: Vec<Group<FailureKey>>,
    /// The first failure of each of the first `limit` causes in full, in the order of the causes.
    pub failures: Vec<ShownFailure>,
    /// The stores that are never persisted, by rising event number, without those that are ignored.
    pub stores: Vec<u64>,
    /// How many stores that are never persisted are ignored.
    pub ignored_never_persisted: u64,
    /// Those of `stores` that are asked for, by line and cause.
    pub lost: Vec<LostGroup>,
    /// These by cause, each by the number of its first store.
    pub lost_causes: Vec<Group<LostKey>>,
    /// The flushes and fences that are dropped, by rising event number.
    pub dropped: Vec<Dropped>,
    /// Those of them that are asked for.
    pub asked_dropped: Vec<Dropped>,
    /// Those in groups by place, word and reason.
    pub dropped_groups: Vec<Group<DroppedKey>>,
    /// The late stores that are asked for, by place.
    pub late: Vec<Group<LateSpot>>,
    /// Of each event, in order, for how many fences of its thread it is left unsafe; 0 of an event that is no store.
    pub waited: Vec<u64>,
    /// What is overwritten and asked for, by line, without what is ignored.
    pub overwritten: Vec<OverwrittenGroup>,
    /// How many pairs of an overwritten and an overwriting store are ignored.
    pub ignored_overwritten: u64,
    /// The assertions on bytes that no store has written, where they are asked for.
    pub unwritten: Vec<Unwritten>,
}

// What is found in a trace, where its events have these numbers of labels and of innermost frames.
#[derive(Drop)]
struct Parts {
    label_numbers: Vec<Option<u64>>,
    frames: Vec<Option<u64>>,
    found: Found,
}

/// The explanation of the trace that was analysed, where these are its safe places, as `pmt_explain::safe_places` gives them. Up to four
/// threads find what it has.
///
/// # Errors
/// Where memory was refused.
pub fn explanation_of<R: Threads + Sync>(
    rt: &R,
    alloc: Global,
    analysis: Analysis,
    places: Vec<u64>,
    labels: &Labels,
    options: &Options,
) -> Result<Explanation, OutOfMemory>
    requires { AreSafePlaces analysis.trace places.items }
    ensures explained { IfOk result (IsExplanation analysis labels.now options.now) }
    ensures analysis { IfOk result (λ x. x.analysis ≡ analysis) }
    ensures limit { IfOk result (λ x. x.limit ≡ options.now.limit) }
{
    let parts = parts_of(rt, alloc, &analysis, places, labels, options)?;
    Ok(explained(analysis, options.limit, parts))
}

// What is found in the trace that was analysed, where these are its safe places.
fn parts_of<R: Threads + Sync>(
    rt: &R,
    alloc: Global,
    analysis: &Analysis,
    places: Vec<u64>,
    labels: &Labels,
    options: &Options,
) -> Result<Parts, OutOfMemory>
    requires { AreSafePlaces analysis.now.trace places.items }
    ensures { IfOk result (AreParts analysis.now labels.now options.now) }
{
    let label_numbers = label_numbers(alloc, labels, analysis.trace().len())?;
    let numbers = label_numbers.as_slice();
    let frames = frame_numbers(alloc, labels, numbers, analysis.trace().len())?;
    let safe = SafePlaces::new(analysis.trace(), places);
    let found = found_of(
        rt,
        alloc,
        analysis,
        &safe,
        labels,
        numbers,
        frames.as_slice(),
        options,
    )?;
    Ok(Parts {
        label_numbers,
        frames,
        found,
    })
}

// The explanation with these parts.
fn explained(analysis: Analysis, limit: usize, parts: Parts) -> Explanation
    ensures explained { (labels : Labels) (o : Options) → AreParts analysis labels o parts → limit ≡ o.limit → IsExplanation analysis labels o result }
    ensures analysis { result.analysis ≡ analysis }
    ensures limit { result.limit ≡ limit }
{
    let Parts {
        label_numbers,
        frames,
        found,
    } = parts;
    let Found {
        begun,
        drops,
        told,
        table,
    } = found;
    let Begun {
        firsts,
        risks,
        early: _,
    } = begun;
    let Firsts {
        upcoming: _,
        dropped,
        waited,
        late,
    } = firsts;
    let Risks { lost, broken } = risks;
    let Lost {
        stores,
        losses,
        unwritten,
    } = lost;
    let Broken { failed, overwrites } = broken;
    Explanation {
        analysis,
        limit,
        failing: failed.failing,
        asked_failing: failed.asked,
        label_numbers,
        frames,
        causes: failed.causes,
        failures: failed.shown,
        stores,
        ignored_never_persisted: losses.ignored,
        lost: losses.groups,
        lost_causes: losses.causes,
        dropped,
        asked_dropped: drops.asked,
        dropped_groups: drops.groups,
        late,
        waited,
        places: table.places,
        paths: table.paths,
        left_paths: table.left_paths,
        hints: told.hints,
        asked_hints: told.asked,
        entries: told.entries,
        overwritten: overwrites.groups,
        ignored_overwritten: overwrites.ignored,
        unwritten,
    }
}
