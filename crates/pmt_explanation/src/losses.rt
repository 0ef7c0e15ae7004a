//! What an explanation has of stores that are never persisted.
ghost use Rattle.std.specs.Prelude.{◌≡◌, ◌-◌, IfOk, count_by, is_some, length};
ghost use Rattle.std.specs.List.{filter_map};
ghost use Rattle.pmt_entries.specs.Prelude.{AreGrouped, lost_item, AreLostGroups};
ghost use Rattle.pmt_explanation.specs.Explaining.{asked_numbers as numbers_asked, lost_store as lost_of};
ghost use Rattle.pmt_asked.specs.declared.choosing.Kind.TheVariants.{NeverPersisted};

use crate::asking::asked_numbers;
use crate::losing::lost_store;
use pmt_analysis::Analysis;
use pmt_asked::{Choice, Kind, Labels};
use pmt_causes::{Group, LostKey, lost_causes};
use pmt_explain::{LostGroup, lost_groups};
use pmt_model::{Finding, OutOfMemory, Trace};
use std::alloc::Global;

/// Stores that are never persisted.
#[derive(Drop)]
pub(crate) struct Losses {
    /// How many of them are ignored.
    pub(crate) ignored: u64,
    /// Those that are told and asked for, by line and cause.
    pub(crate) groups: Vec<LostGroup>,
    /// These by cause, each by its first store.
    pub(crate) causes: Vec<Group<LostKey>>,
}

// What is never persisted, where the events have these numbers of innermost frames, and these stores are told.
pub(crate) fn losses_of(
    alloc: Global,
    analysis: &Analysis,
    labels: &Labels,
    frames: &[Option<u64>],
    choice: &Choice,
    stores: &[u64],
) -> Result<Losses, OutOfMemory>
    ensures ignored { IfOk result (λ l. l.ignored ≡ count_by (λ f. is_some (lost_of f)) analysis.now.findings - length stores.now) }
    ensures groups { IfOk result (λ l. AreLostGroups analysis.now.trace (numbers_asked analysis.now.trace labels.now choice.now NeverPersisted stores.now) l.groups.items) }
    ensures causes { IfOk result (λ l. AreGrouped (filter_map (lost_item analysis.now.trace frames.now) l.groups.items) l.causes.items) }
{
    let trace = analysis.trace();
    let ignored = count_lost(analysis.findings()).saturating_sub(stores.len()) as u64;
    let groups = asked_losses(alloc, trace, labels, choice, stores)?;
    let causes = lost_causes(alloc, trace, frames, groups.as_slice())?;
    Ok(Losses {
        ignored,
        groups,
        causes,
    })
}

// The groups of those of these stores that are asked for.
fn asked_losses(
    alloc: Global,
    trace: &Trace,
    labels: &Labels,
    choice: &Choice,
    stores: &[u64],
) -> Result<Vec<LostGroup>, OutOfMemory>
    ensures { IfOk result (λ groups. AreLostGroups trace.now (numbers_asked trace.now labels.now choice.now NeverPersisted stores.now) groups.items) }
{
    let asked = asked_numbers(alloc, trace, labels, choice, Kind::NeverPersisted, stores)?;
    lost_groups(alloc, trace, asked.as_slice())
}

// How many of the findings are stores that are never persisted.
fn count_lost(findings: &[Finding]) -> usize
    ensures { result ≡ count_by (λ f. is_some (lost_of f)) findings.now }
{
    findings
        .iter()
        .filter(|finding| lost_store(**finding).is_some())
        .count()
}
