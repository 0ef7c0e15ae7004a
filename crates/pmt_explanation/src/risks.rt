//! What an explanation has of what a crash may lose, in two parts that need nothing of each other.
ghost use Rattle.std.specs.Prelude.{◌≡◌, IfOk, IfSome};
ghost use Rattle.pmt_explanation.specs.Prelude.{IsUpcoming};
ghost use Rattle.pmt_explanation.specs.Explaining.{asked_unwritten, AreBroken, AreLost};
ghost use Rattle.pmt_failures.specs.Showing.{unwritten_of};

use crate::asking::asked_unwrittens;
use crate::failed::{Failed, failed_of};
use crate::losing::lost_stores;
use crate::losses::{Losses, losses_of};
use crate::overwrites::{Overwrites, overwrites_of};
use pmt_analysis::Analysis;
use pmt_asked::{Choice, Labels, Options};
use pmt_explain::{SafePlaces, Upcoming};
use pmt_failures::{Unwritten, unwritten_assertions};
use pmt_model::{OutOfMemory, Trace};
use std::alloc::Global;

/// What a crash may lose.
#[derive(Drop)]
pub(crate) struct Risks {
    /// Stores that are never persisted, and assertions on bytes that no store has written.
    pub(crate) lost: Lost,
    /// Assertions that fail, and stores that are overwritten.
    pub(crate) broken: Broken,
}

/// Stores that are never persisted, and assertions on bytes that no store has written.
#[derive(Drop)]
pub(crate) struct Lost {
    /// The stores that are never persisted, by rising event number, without those that are ignored.
    pub(crate) stores: Vec<u64>,
    /// What is told of them.
    pub(crate) losses: Losses,
    /// The assertions on bytes that no store has written, where they are asked for.
    pub(crate) unwritten: Vec<Unwritten>,
}

/// Assertions that fail, and stores that are overwritten.
#[derive(Drop)]
pub(crate) struct Broken {
    /// Assertions that fail.
    pub(crate) failed: Failed,
    /// Stores that are overwritten.
    pub(crate) overwrites: Overwrites,
}

// The stores that are never persisted in the trace that was analysed, where its events have these numbers of innermost frames, and its
// assertions on bytes that no store has written.
pub(crate) fn lost_of(
    alloc: Global,
    analysis: &Analysis,
    labels: &Labels,
    frames: &[Option<u64>],
    options: &Options,
) -> Result<Lost, OutOfMemory>
    ensures { IfOk result (AreLost analysis.now labels.now frames.now options.now) }
{
    let trace = analysis.trace();
    let choice = &options.choice;
    let findings = analysis.findings();
    let stores = lost_stores(alloc, trace, labels, &options.ignored, findings)?;
    let losses = losses_of(alloc, analysis, labels, frames, choice, stores.as_slice())?;
    let unwritten = unwritten_asked(alloc, trace, labels, choice)?;
    Ok(Lost {
        stores,
        losses,
        unwritten,
    })
}

// The assertions that fail in the trace that was analysed, where its events have these numbers of innermost frames, and its stores that
// are overwritten. `upcoming` is what comes next after each event, if that is known.
pub(crate) fn broken_of(
    alloc: Global,
    analysis: &Analysis,
    safe: &SafePlaces<'_>,
    labels: &Labels,
    frames: &[Option<u64>],
    options: &Options,
    upcoming: &Option<Upcoming>,
) -> Result<Broken, OutOfMemory>
    requires same { safe.now.trace.now ≡ analysis.now.trace }
    requires upcoming { IfSome upcoming.now (IsUpcoming safe.now.trace.now) }
    ensures { IfOk result (AreBroken analysis.now labels.now frames.now options.now) }
{
    let verdicts = analysis.verdicts();
    let failed = failed_of(alloc, safe, verdicts, labels, frames, options, upcoming)?;
    let overwrites = overwrites_of(alloc, analysis, labels, options)?;
    Ok(Broken { failed, overwrites })
}

// The assertions on bytes that no store has written, where they are asked for.
fn unwritten_asked(
    alloc: Global,
    trace: &Trace,
    labels: &Labels,
    choice: &Choice,
) -> Result<Vec<Unwritten>, OutOfMemory>
    ensures { IfOk result (λ found. found.items ≡ asked_unwritten trace.now labels.now choice.now (unwritten_of trace.now)) }
{
    let found = unwritten_assertions(alloc, trace)?;
    asked_unwrittens(alloc, trace, labels, choice, found.as_slice())
}
