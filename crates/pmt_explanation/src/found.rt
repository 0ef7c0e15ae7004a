//! What is found in an analysed trace, by up to four threads side by side: first what the analysis alone tells, and then what needs that.
ghost use Rattle.std.specs.Prelude.{◌≡◌, ℕ, IfOk, IfSome, List, Option};
ghost use Rattle.std.specs.Thread.{IsSync};
ghost use Rattle.pmt_asked.specs.Choosing.{is_asked_for as asked_for};
ghost use Rattle.pmt_asked.specs.declared.choosing.Kind.TheVariants.{Late};
ghost use Rattle.pmt_explanation.specs.Prelude.{AreDropped, AreWaited, IsUpcoming};
ghost use Rattle.pmt_explanation.specs.Explaining.{AreAskedLate, AreBegun, AreBroken, AreDrops, AreFound, AreLost, ArePlacesOf, AreTold, AreEarly, AreHints, AreLate};

use crate::asking::asked_hints;
use crate::causing::{AskedLate, asked_late};
use crate::drops::{Drops, drops_of};
use crate::firsts::{Firsts, Following, following_of};
use crate::hinting::{EarlyHints, LateHints, early_hints, hints_in_order, late_hints};
use crate::risks::{Lost, Risks, lost_of};
use pmt_analysis::Analysis;
use pmt_asked::{Labels, Options};
use pmt_entries::{Entries, entries_of};
use pmt_explain::SafePlaces;
use pmt_fates::{PlaceTable, place_table};
use pmt_hints::Hint;
use pmt_model::OutOfMemory;
use std::alloc::Global;
use std::thread::{Threads, join_mut};

/// What is found in a trace.
#[derive(Drop)]
pub(crate) struct Found {
    /// What is found by the analysis alone.
    pub(crate) begun: Begun,
    /// What is told of flushes and fences that are dropped.
    pub(crate) drops: Drops,
    /// Hints, and what is told first.
    pub(crate) told: Told,
    /// What each place has.
    pub(crate) table: PlaceTable,
}

/// Hints, and what is told first.
#[derive(Drop)]
pub(crate) struct Told {
    /// All hints.
    pub(crate) hints: Vec<Hint>,
    /// Those that are asked for.
    pub(crate) asked: Vec<Hint>,
    /// The entries.
    pub(crate) entries: Entries,
}

/// What is found by the analysis alone.
#[derive(Drop)]
pub(crate) struct Begun {
    /// What others need.
    pub(crate) firsts: Firsts,
    /// What a crash may lose.
    pub(crate) risks: Risks,
    /// Hints that need none of it.
    pub(crate) early: EarlyHints,
}

// What is lost, and hints.
type Missed = (Result<Lost, OutOfMemory>, Result<EarlyHints, OutOfMemory>);

// The late stores, and these.
type Beside = (Result<AskedLate, OutOfMemory>, Missed);

// What each place has, and the other hints.
type Placed = (
    Result<PlaceTable, OutOfMemory>,
    Result<LateHints, OutOfMemory>,
);

// What is found in the trace that was analysed, where its events have these numbers of labels and of innermost frames. Where the system
// refuses a thread, its part is done by another one.
pub(crate) fn found_of<R: Threads + Sync>(
    rt: &R,
    alloc: Global,
    analysis: &Analysis,
    safe: &SafePlaces<'_>,
    labels: &Labels,
    numbers: &[Option<u64>],
    frames: &[Option<u64>],
    options: &Options,
) -> Result<Found, OutOfMemory>
    requires { safe.now.trace.now ≡ analysis.now.trace }
    ensures { IfOk result (AreFound analysis.now labels.now numbers.now frames.now options.now) }
{
    let first = begun_of(rt, alloc, analysis, safe, labels, numbers, frames, options)?;
    let begun = &first;
    let (drops, (table, late)) = join_mut(
        rt,
        &mut || -> Result<Drops, OutOfMemory>
            ensures { IfOk result (AreDrops analysis.entry.now.trace labels.entry.now numbers.entry.now options.entry.now begun.entry.now.firsts.dropped.items) }
        { listed_of(alloc, analysis, labels, numbers, options, begun) },
        &mut || -> Placed
            requires { IsSync R.row × (safe.now.trace.now ≡ analysis.now.trace) × AreBegun analysis.now labels.now numbers.now frames.now options.now begun.now }
            ensures table { IfOk result.0 (ArePlacesOf analysis.entry.now.trace numbers.entry.now frames.entry.now begun.entry.now.risks.lost.stores.items begun.entry.now.firsts.dropped.items) }
            ensures late { IfOk result.1 (AreLate analysis.entry.now.trace frames.entry.now) }
        {
            placed_of(
                rt, alloc, analysis, safe, labels, numbers, frames, options, begun,
            )
        },
    );
    let drops = drops?;
    let table = table?;
    let late = late?;
    let hints = hints_in_order(alloc, &begun.early, &late)?;
    let told = told_of(
        alloc, analysis, labels, frames, options, begun, &table, hints,
    )?;
    Ok(Found {
        begun: first,
        drops,
        told,
        table,
    })
}

// Of these hints those that are asked for, and the entries, where these are the rows of places, and this was found by the analysis alone.
fn told_of(
    alloc: Global,
    analysis: &Analysis,
    labels: &Labels,
    frames: &[Option<u64>],
    options: &Options,
    begun: &Begun,
    table: &PlaceTable,
    hints: Vec<Hint>,
) -> Result<Told, OutOfMemory>
    requires { IfSome begun.now.firsts.upcoming (IsUpcoming analysis.now.trace) }
    ensures { (numbers : List (Option ℕ)) → AreHints analysis.now.trace frames.now numbers hints.items → IfOk result (AreTold analysis.now labels.now numbers frames.now options.now begun.now table.now) }
{
    let trace = analysis.trace();
    let asked = asked_hints(alloc, trace, labels, &options.choice, hints.as_slice())?;
    let entries = entries_of(
        alloc,
        trace,
        analysis.verdicts(),
        begun.risks.broken.failed.causes.len(),
        frames,
        table,
        hints.as_slice(),
        begun.risks.lost.stores.as_slice(),
        begun.firsts.waited.as_slice(),
        &begun.firsts.upcoming,
    )?;
    Ok(Told {
        hints,
        asked,
        entries,
    })
}

// What the analysis alone tells.
fn begun_of<R: Threads + Sync>(
    rt: &R,
    alloc: Global,
    analysis: &Analysis,
    safe: &SafePlaces<'_>,
    labels: &Labels,
    numbers: &[Option<u64>],
    frames: &[Option<u64>],
    options: &Options,
) -> Result<Begun, OutOfMemory>
    requires { safe.now.trace.now ≡ analysis.now.trace }
    ensures { IfOk result (AreBegun analysis.now labels.now numbers.now frames.now options.now) }
{
    let (following, (late, (lost, early))) = join_mut(
        rt,
        &mut || -> Result<Following, OutOfMemory>
            requires { IsSync R.row × (safe.now.trace.now ≡ analysis.now.trace) }
            ensures upcoming { IfOk result (λ x. IfSome x.upcoming (IsUpcoming analysis.entry.now.trace)) }
            ensures dropped { IfOk result (λ x. AreDropped analysis.entry.now.trace x.dropped.items) }
            ensures broken { IfOk result (λ x. AreBroken analysis.entry.now labels.entry.now frames.entry.now options.entry.now x.broken) }
        { following_of(rt, alloc, analysis, safe, labels, frames, options) },
        &mut || -> Beside
            requires { IsSync R.row × (safe.now.trace.now ≡ analysis.now.trace) }
            ensures waited { IfOk result.0 (λ x. AreWaited analysis.entry.now.trace x.waited.items) }
            ensures late { IfOk result.0 (λ x. AreAskedLate analysis.entry.now.trace frames.entry.now (asked_for analysis.entry.now.trace labels.entry.now options.entry.now.choice Late) x.groups.items) }
            ensures lost { IfOk result.1.0 (AreLost analysis.entry.now labels.entry.now frames.entry.now options.entry.now) }
            ensures early { IfOk result.1.1 (AreEarly analysis.entry.now.trace frames.entry.now numbers.entry.now) }
        { beside_of(rt, alloc, analysis, safe, labels, numbers, frames, options) },
    );
    let Following {
        upcoming,
        dropped,
        broken,
    } = following?;
    let AskedLate {
        waited,
        groups: late,
    } = late?;
    let lost = lost?;
    let early = early?;
    Ok(Begun {
        firsts: Firsts {
            upcoming,
            dropped,
            waited,
            late,
        },
        risks: Risks { lost, broken },
        early,
    })
}

// Late stores, beside what is lost and hints that need none of it.
fn beside_of<R: Threads + Sync>(
    rt: &R,
    alloc: Global,
    analysis: &Analysis,
    safe: &SafePlaces<'_>,
    labels: &Labels,
    numbers: &[Option<u64>],
    frames: &[Option<u64>],
    options: &Options,
) -> Beside
    requires { safe.now.trace.now ≡ analysis.now.trace }
    ensures waited { IfOk result.0 (λ x. AreWaited analysis.now.trace x.waited.items) }
    ensures late { IfOk result.0 (λ x. AreAskedLate analysis.now.trace frames.now (asked_for analysis.now.trace labels.now options.now.choice Late) x.groups.items) }
    ensures lost { IfOk result.1.0 (AreLost analysis.now labels.now frames.now options.now) }
    ensures early { IfOk result.1.1 (AreEarly analysis.now.trace frames.now numbers.now) }
{
    let choice = &options.choice;
    join_mut(
        rt,
        &mut || asked_late(alloc, safe, labels, frames, choice),
        &mut || missed_of(alloc, analysis, labels, numbers, frames, options),
    )
}

// What is lost, and then hints.
fn missed_of(
    alloc: Global,
    analysis: &Analysis,
    labels: &Labels,
    numbers: &[Option<u64>],
    frames: &[Option<u64>],
    options: &Options,
) -> Missed
    ensures lost { IfOk result.0 (AreLost analysis.now labels.now frames.now options.now) }
    ensures early { IfOk result.1 (AreEarly analysis.now.trace frames.now numbers.now) }
{
    let lost = lost_of(alloc, analysis, labels, frames, options);
    let early = early_hints(alloc, analysis, frames, numbers);
    (lost, early)
}

// What is told of dropped flushes and fences.
fn listed_of(
    alloc: Global,
    analysis: &Analysis,
    labels: &Labels,
    numbers: &[Option<u64>],
    options: &Options,
    begun: &Begun,
) -> Result<Drops, OutOfMemory>
    ensures { IfOk result (AreDrops analysis.now.trace labels.now numbers.now options.now begun.now.firsts.dropped.items) }
{
    let dropped = begun.firsts.dropped.as_slice();
    drops_of(alloc, analysis.trace(), dropped, labels, numbers, options)
}

// What each place has, beside the other hints.
fn placed_of<R: Threads + Sync>(
    rt: &R,
    alloc: Global,
    analysis: &Analysis,
    safe: &SafePlaces<'_>,
    labels: &Labels,
    numbers: &[Option<u64>],
    frames: &[Option<u64>],
    options: &Options,
    begun: &Begun,
) -> Placed
    requires same { safe.now.trace.now ≡ analysis.now.trace }
    requires begun { AreBegun analysis.now labels.now numbers.now frames.now options.now begun.now }
    ensures table { IfOk result.0 (ArePlacesOf analysis.now.trace numbers.now frames.now begun.now.risks.lost.stores.items begun.now.firsts.dropped.items) }
    ensures late { IfOk result.1 (AreLate analysis.now.trace frames.now) }
{
    let dropped = begun.firsts.dropped.as_slice();
    let waited = begun.firsts.waited.as_slice();
    let stores = begun.risks.lost.stores.as_slice();
    let upcoming = &begun.firsts.upcoming;
    join_mut(
        rt,
        &mut || {
            place_table(
                alloc, safe, waited, frames, numbers, stores, dropped, upcoming,
            )
        },
        &mut || late_hints(alloc, safe, waited, frames, upcoming),
    )
}
