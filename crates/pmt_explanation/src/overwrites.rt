//! What an explanation has of stores that are overwritten.
ghost use Rattle.std.specs.Prelude.{◌≡◌, ◌-◌, IfOk, count_by, is_some, length};
ghost use Rattle.pmt_explain.specs.OverwrittenGroups.{AreOverwrittenGroups};
ghost use Rattle.pmt_explanation.specs.Explaining.{asked_pairs as pairs_asked, overwriting as overwriting_of, told_pairs};

use crate::asking::keep_asked_pairs;
use crate::losing::{overwriting, overwritings};
use pmt_analysis::Analysis;
use pmt_asked::{Labels, Options};
use pmt_explain::{OverwrittenGroup, overwritten_groups};
use pmt_model::{Finding, OutOfMemory};
use std::alloc::Global;

/// Stores that are overwritten.
#[derive(Drop)]
pub(crate) struct Overwrites {
    /// How many pairs of an overwritten and an overwriting store are ignored.
    pub(crate) ignored: u64,
    /// What is overwritten and asked for, by line, without what is ignored.
    pub(crate) groups: Vec<OverwrittenGroup>,
}

// What is overwritten.
pub(crate) fn overwrites_of(
    alloc: Global,
    analysis: &Analysis,
    labels: &Labels,
    options: &Options,
) -> Result<Overwrites, OutOfMemory>
    ensures ignored { IfOk result (λ x. x.ignored ≡ count_by (λ f. is_some (overwriting_of f)) analysis.now.findings - length (told_pairs analysis.now.trace labels.now options.now.ignored analysis.now.findings)) }
    ensures groups { IfOk result (λ x. AreOverwrittenGroups analysis.now.trace (pairs_asked analysis.now.trace labels.now options.now.choice (told_pairs analysis.now.trace labels.now options.now.ignored analysis.now.findings)) x.groups.items) }
{
    let trace = analysis.trace();
    let findings = analysis.findings();
    let mut pairs = overwritings(alloc, trace, labels, &options.ignored, findings)?;
    let ignored = count_overwritten(findings).saturating_sub(pairs.len()) as u64;
    keep_asked_pairs(trace, labels, &options.choice, &mut pairs);
    let groups = overwritten_groups(alloc, trace, pairs.as_slice())?;
    Ok(Overwrites { ignored, groups })
}

// How many of the findings are overwritten stores.
fn count_overwritten(findings: &[Finding]) -> usize
    ensures { result ≡ count_by (λ f. is_some (overwriting_of f)) findings.now }
{
    findings
        .iter()
        .filter(|finding| overwriting(**finding).is_some())
        .count()
}
