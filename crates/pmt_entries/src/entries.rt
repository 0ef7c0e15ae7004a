//! What is told of a trace, what weighs most first.

ghost use Rattle.std.specs.Prelude.{◌≡◌, IfOk, IfSome, OnOk, map};
ghost use Rattle.pmt_explain.specs.Following.{IsUpcoming};
ghost use Rattle.pmt_laws.specs.Prelude.{enumerate_from, range_with_len, IsVerdicts, list_any};
ghost use Rattle.pmt_entries.specs.Entries.{AreByWeight, AreContrastsIf, AreEntries, entries_in_turn, failure_entry, loss_entry, is_any_with, is_open_hint as is_open_hint_in};

use crate::claimed::claimed_of;
use crate::hints::hint_entries;
use crate::left::{left_entries, left_path_entries};
use crate::losses::{LossKey, losses_of, weight_of_loss};
use crate::sites::{Site, sites_of};
use crate::verdict::{Verdict, verdict_of};
use crate::weight::{Weight, rank_of};
use pmt_causes::Group;
use pmt_explain::Upcoming;
use pmt_fates::PlaceTable;
use pmt_hints::{Contrast, Hint, HintKind, contrasts_of};
use pmt_model::{OutOfMemory, Trace, Verdict as Judged};
use std::alloc::Global;

/// What an entry tells of.
#[derive(Clone, Copy)]
pub enum Subject {
    /// Failed assertions with one cause, by the index of their group.
    Failure(u64),
    /// Sites that lose or delay stores, by the index in `losses`.
    Loss(u64),
    /// A hint, by its index.
    Hint(u64),
    /// A site each of whose stores is saved one fence late, by the index of its row in `places`.
    Left(u64),
    /// The same of a call path, by its index in `left_paths`.
    LeftPath(u64),
}

/// What is told in one piece.
#[derive(Clone, Copy)]
pub struct Entry {
    pub weight: Weight,
    pub subject: Subject,
}

/// What is told of a trace, by weight.
#[derive(Drop)]
pub struct Entries {
    /// The sites that lose or delay stores, in the order of `places`.
    pub sites: Vec<Site>,
    /// These in groups, by their first sites: members are indexes of `sites`.
    pub losses: Vec<Group<LossKey>>,
    /// Of each hint how often the place that stores while its flush is open does so with nothing open. Empty if no hint is of such flushes.
    pub contrasts: Vec<Contrast>,
    /// All entries, by weight; those of one weight failures first, then losses, hints, and sites and paths saved one fence late.
    pub entries: Vec<Entry>,
    /// The verdict.
    pub verdict: Verdict,
}

/// The entries of a trace with these verdicts on its assertions, so many causes of failed ones, these rows of sites and paths, and all of
/// these hints. Its events have these numbers of innermost frames; these stores are told as never persisted, and each event waits for so
/// many fences. `upcoming` is what comes next after each event, if that is known.
///
/// It takes a look-up at each row and hint, and a few looks at each event where a site loses or delays stores, or there is a hint.
///
/// # Errors
/// Where memory was refused.
pub fn entries_of(
    alloc: Global,
    trace: &Trace,
    verdicts: &[Judged],
    failures: usize,
    frames: &[Option<u64>],
    table: &PlaceTable,
    hints: &[Hint],
    told: &[u64],
    waited: &[u64],
    upcoming: &Option<Upcoming>,
) -> Result<Entries, OutOfMemory>
    requires verdicts { IsVerdicts trace.now verdicts.now }
    requires upcoming { IfSome upcoming.now (IsUpcoming trace.now) }
    ensures { IfOk result (AreEntries trace.now verdicts.now failures frames.now table.now hints.now told.now waited.now) }
{
    let claimed = claimed_of(alloc, trace, verdicts, table.places.as_slice())?;
    let sites = sites_of(
        alloc,
        trace,
        frames,
        table,
        hints,
        told,
        waited,
        claimed.as_slice(),
        upcoming,
    )?;
    let losses = losses_of(alloc, sites.as_slice())?;
    let contrasts = contrasts_if(alloc, trace, frames, hints)?;
    let mut entries = all_entries(
        alloc,
        trace,
        failures,
        frames,
        table,
        hints,
        contrasts.as_slice(),
        sites.as_slice(),
        losses.as_slice(),
    )?;
    sort(&mut entries)?;
    let verdict = verdict_of(table.places.as_slice(), verdicts, entries.as_slice());
    Ok(Entries {
        sites,
        losses,
        contrasts,
        entries,
        verdict,
    })
}

// The contrasts of these hints. The trace is looked at only where one is of flushes that are open at a store: no other has any.
fn contrasts_if(
    alloc: Global,
    trace: &Trace,
    frames: &[Option<u64>],
    hints: &[Hint],
) -> Result<Vec<Contrast>, OutOfMemory>
    ensures { IfOk result (λ contrasts. AreContrastsIf trace.now frames.now hints.now contrasts.items) }
{
    if !is_any_open(hints) {
        return Ok(Vec::new(alloc));
    }
    let contrasts = contrasts_of(alloc, trace, frames, hints)?;
    Ok(contrasts)
}

// Whether one of these hints is of flushes that are open at a store.
fn is_any_open(hints: &[Hint]) -> bool
    ensures { result ≡ list_any is_open_hint_in hints.now }
{
    hints.iter().any(|hint| is_open_hint(hint))
}

fn is_open_hint(hint: &Hint) -> bool
    ensures { result ≡ is_open_hint_in hint.now }
{
    matches!(hint.kind, HintKind::OpenAtStore)
}

// All entries of these, before they are sorted.
fn all_entries(
    alloc: Global,
    trace: &Trace,
    failures: usize,
    frames: &[Option<u64>],
    table: &PlaceTable,
    hints: &[Hint],
    contrasts: &[Contrast],
    sites: &[Site],
    losses: &[Group<LossKey>],
) -> Result<Vec<Entry>, OutOfMemory>
    ensures { IfOk result (λ entries. entries.items ≡ entries_in_turn trace.now failures frames.now table.now hints.now contrasts.now sites.now losses.now) }
{
    let mut entries = failure_entries(alloc, failures)?;
    let lost = loss_entries(alloc, sites, losses)?;
    let hinted = hint_entries(alloc, sites, hints, contrasts)?;
    let left = left_entries(alloc, hints, table.places.as_slice())?;
    let paths = left_path_entries(alloc, trace, frames, hints, table.left_paths.as_slice())?;
    entries.extend_from_slice(lost.as_slice())?;
    entries.extend_from_slice(hinted.as_slice())?;
    entries.extend_from_slice(left.as_slice())?;
    entries.extend_from_slice(paths.as_slice())?;
    Ok(entries)
}

// An entry for each of so many causes of failed assertions.
fn failure_entries(alloc: Global, failures: usize) -> Result<Vec<Entry>, OutOfMemory>
    ensures { IfOk result (λ entries. entries.items ≡ map failure_entry (range_with_len 0 failures)) }
{
    (0..failures)
        .map(|index| Entry {
            weight: Weight::Fail,
            subject: Subject::Failure(index as u64),
        })
        .collect(alloc)
}

// An entry for each of these losses of these sites.
fn loss_entries(
    alloc: Global,
    sites: &[Site],
    losses: &[Group<LossKey>],
) -> Result<Vec<Entry>, OutOfMemory>
    ensures { IfOk result (λ entries. entries.items ≡ map (loss_entry sites.now) (enumerate_from 0 losses.now)) }
{
    losses
        .iter()
        .enumerate()
        .map(|(index, loss)| Entry {
            weight: weight_of_loss(sites, loss),
            subject: Subject::Loss(index as u64),
        })
        .collect(alloc)
}

// Puts the entries into their order: those of a greater weight first.
fn sort(entries: &mut Vec<Entry>) -> Result<(), OutOfMemory>
    ensures { OnOk result (AreByWeight entries.old.items entries.new.items) }
{
    entries.sort_by_key(|entry| rank_of(entry.weight))?;
    Ok(())
}

/// Whether one of these entries has this weight.
pub fn is_any_of(entries: &[Entry], weight: Weight) -> bool
    ensures { result ≡ is_any_with weight entries.now }
{
    entries
        .iter()
        .any(|entry| rank_of(entry.weight) == rank_of(weight))
}
