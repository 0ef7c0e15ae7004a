//! The lines of JSON that tell an explanation.
ghost use Rattle.std.specs.Prelude.{◌≡◌, ◌++◌, IfOk, List, OnOk, false};
ghost use Rattle.std.specs.List.{flat_map};
ghost use Rattle.serde_json.specs.View.{view};
ghost use Rattle.serde_json.specs.Written.{has_float};
ghost use Rattle.pmt_explanation.specs.Prelude.{ShownCrash, AreShownCrashes, IsShownCrash};
ghost use Rattle.pmt_explain_json.specs.Entries.{json_line, dropped_line, failure_line, lost_line, overwritten_line, unwritten_line};
ghost use Rattle.pmt_explain_json.specs.Places.{cause_line};
ghost use Rattle.pmt_explain_json.specs.Lines.{IsJsonText, summary_line};

use crate::causes::cause_group_value;
use crate::entries::{dropped_value, lost_value, overwritten_value, unwritten_value};
use crate::failures::failure_value;
use crate::lacking::Lack;
use crate::summary::{more_value, summary_value};
use crate::tables::push_tables;
use crate::weighed::{push_entries, told_entries};
use pmt_asked::{Choice, Labels};
use pmt_causes::{FailureKey, Group};
use pmt_explain::{Dropped, LostGroup, OverwrittenGroup};
use pmt_explanation::{Explanation, Summary, first, summary_of};
use pmt_failures::{ShownFailure, Unwritten, shown_crash};
use pmt_model::{OutOfMemory, Trace};
use serde_json::Value;
use std::alloc::Global;

/// The explanation as JSON, an object a line: the summary, with the verdict, what was asked for and what the trace lacks; where no option
/// chooses findings the entries by weight; and what there is of each kind. Of all these at most as many as the limit says.
///
/// # Errors
/// Where memory was refused.
pub fn json_text(
    alloc: Global,
    explanation: &Explanation,
    labels: &Labels,
    choice: &Choice,
    lacks: &[Lack],
) -> Result<Vec<u8>, OutOfMemory>
    ensures { IfOk result (λ text. IsJsonText explanation.now labels.now choice.now lacks.now text.items) }
{
    let trace = explanation.analysis.trace();
    let limit = explanation.limit;
    let entries = first(told_entries(explanation, choice), limit);
    let causes = first(explanation.causes.as_slice(), limit);
    let failures = explanation.failures.as_slice();
    let lost = first(explanation.lost.as_slice(), limit);
    let dropped = first(explanation.asked_dropped.as_slice(), limit);
    let overwritten = first(explanation.overwritten.as_slice(), limit);
    let unwritten = first(explanation.unwritten.as_slice(), limit);
    let counts = summary_of(explanation);
    let mut text = Vec::new(alloc);
    push_summary(alloc, &mut text, explanation, choice, &counts, lacks)?;
    push_entries(alloc, &mut text, explanation, labels, entries)?;
    push_causes(alloc, &mut text, labels, causes)?;
    push_failures(alloc, &mut text, trace, labels, failures)?;
    push_losses(alloc, &mut text, trace, labels, lost)?;
    push_drops(alloc, &mut text, trace, labels, dropped)?;
    push_overwritings(alloc, &mut text, trace, labels, overwritten)?;
    push_unwrittens(alloc, &mut text, trace, labels, unwritten)?;
    push_tables(alloc, &mut text, explanation, labels)?;
    Ok(text)
}

// Adds the value and an LF.
pub(crate) fn push_value(
    alloc: Global,
    text: &mut Vec<u8>,
    value: &Value,
) -> Result<(), OutOfMemory>
    requires { has_float (view value.now) ≡ false }
    ensures { OnOk result (text.new.items ≡ text.old.items ++ json_line (view value.now)) }
{
    let line = value.to_vec(alloc)?;
    text.extend_from_slice(line.as_slice())?;
    text.push(b'\n')?;
    Ok(())
}

// Adds the counts.
fn push_summary(
    alloc: Global,
    text: &mut Vec<u8>,
    explanation: &Explanation,
    choice: &Choice,
    counts: &Summary,
    lacks: &[Lack],
) -> Result<(), OutOfMemory>
    ensures { OnOk result (text.new.items ≡ text.old.items ++ summary_line explanation.now choice.now counts.now lacks.now) }
{
    let more = more_value(alloc, explanation, choice)?;
    let limit = explanation.limit;
    let verdict = explanation.entries.verdict;
    let value = summary_value(alloc, counts, limit, choice, more, lacks, verdict)?;
    push_value(alloc, text, &value)
}

// Adds the causes of failed assertions.
fn push_causes(
    alloc: Global,
    text: &mut Vec<u8>,
    labels: &Labels,
    groups: &[Group<FailureKey>],
) -> Result<(), OutOfMemory>
    ensures { OnOk result (text.new.items ≡ text.old.items ++ flat_map (cause_line labels.now) groups.now) }
{
    for group in groups {
        push_cause(alloc, text, labels, group)?;
    }
    Ok(())
}

// Adds the cause, with the failed assertions that have it.
fn push_cause(
    alloc: Global,
    text: &mut Vec<u8>,
    labels: &Labels,
    group: &Group<FailureKey>,
) -> Result<(), OutOfMemory>
    ensures { OnOk result (text.new.items ≡ text.old.items ++ cause_line labels.now group.now) }
{
    let value = cause_group_value(alloc, labels, group)?;
    push_value(alloc, text, &value)
}

// Adds the failed assertions in full.
fn push_failures(
    alloc: Global,
    text: &mut Vec<u8>,
    trace: &Trace,
    labels: &Labels,
    failures: &[ShownFailure],
) -> Result<(), OutOfMemory>
    ensures { OnOk result ((crashes : List ShownCrash) × AreShownCrashes trace.now failures.now crashes × (text.new.items ≡ text.old.items ++ flat_map (failure_line trace.now labels.now) crashes)) }
{
    for shown in failures {
        push_failure(alloc, text, trace, labels, shown)?;
    }
    Ok(())
}

// Adds the failed assertion, with what its crash leaves.
fn push_failure(
    alloc: Global,
    text: &mut Vec<u8>,
    trace: &Trace,
    labels: &Labels,
    shown: &ShownFailure,
) -> Result<(), OutOfMemory>
    ensures { OnOk result ((crash : ShownCrash) × IsShownCrash trace.now crash × (crash.shown ≡ shown.now) × (text.new.items ≡ text.old.items ++ failure_line trace.now labels.now crash)) }
{
    let crash = shown_crash(alloc, trace, shown)?;
    let value = failure_value(alloc, trace, labels, &crash)?;
    push_value(alloc, text, &value)?;
    Ok(())
}

// Adds the groups of stores that are never persisted.
fn push_losses(
    alloc: Global,
    text: &mut Vec<u8>,
    trace: &Trace,
    labels: &Labels,
    groups: &[LostGroup],
) -> Result<(), OutOfMemory>
    ensures { OnOk result (text.new.items ≡ text.old.items ++ flat_map (lost_line trace.now labels.now) groups.now) }
{
    for group in groups {
        push_lost(alloc, text, trace, labels, group)?;
    }
    Ok(())
}

// Adds the stores that are never persisted.
fn push_lost(
    alloc: Global,
    text: &mut Vec<u8>,
    trace: &Trace,
    labels: &Labels,
    group: &LostGroup,
) -> Result<(), OutOfMemory>
    ensures { OnOk result (text.new.items ≡ text.old.items ++ lost_line trace.now labels.now group.now) }
{
    let value = lost_value(alloc, trace, labels, group)?;
    push_value(alloc, text, &value)
}

// Adds the flushes and fences that are dropped.
fn push_drops(
    alloc: Global,
    text: &mut Vec<u8>,
    trace: &Trace,
    labels: &Labels,
    entries: &[Dropped],
) -> Result<(), OutOfMemory>
    ensures { OnOk result (text.new.items ≡ text.old.items ++ flat_map (dropped_line trace.now labels.now) entries.now) }
{
    for dropped in entries {
        push_dropped(alloc, text, trace, labels, dropped)?;
    }
    Ok(())
}

// Adds the flush or fence that is dropped.
fn push_dropped(
    alloc: Global,
    text: &mut Vec<u8>,
    trace: &Trace,
    labels: &Labels,
    dropped: &Dropped,
) -> Result<(), OutOfMemory>
    ensures { OnOk result (text.new.items ≡ text.old.items ++ dropped_line trace.now labels.now dropped.now) }
{
    let value = dropped_value(alloc, trace, labels, *dropped)?;
    push_value(alloc, text, &value)
}

// Adds the groups of overwritten stores.
fn push_overwritings(
    alloc: Global,
    text: &mut Vec<u8>,
    trace: &Trace,
    labels: &Labels,
    groups: &[OverwrittenGroup],
) -> Result<(), OutOfMemory>
    ensures { OnOk result (text.new.items ≡ text.old.items ++ flat_map (overwritten_line trace.now labels.now) groups.now) }
{
    for group in groups {
        push_overwritten(alloc, text, trace, labels, group)?;
    }
    Ok(())
}

// Adds the overwritten stores.
fn push_overwritten(
    alloc: Global,
    text: &mut Vec<u8>,
    trace: &Trace,
    labels: &Labels,
    group: &OverwrittenGroup,
) -> Result<(), OutOfMemory>
    ensures { OnOk result (text.new.items ≡ text.old.items ++ overwritten_line trace.now labels.now group.now) }
{
    let value = overwritten_value(alloc, trace, labels, group)?;
    push_value(alloc, text, &value)
}

// Adds the assertions on bytes that no store has written.
fn push_unwrittens(
    alloc: Global,
    text: &mut Vec<u8>,
    trace: &Trace,
    labels: &Labels,
    entries: &[Unwritten],
) -> Result<(), OutOfMemory>
    ensures { OnOk result (text.new.items ≡ text.old.items ++ flat_map (unwritten_line trace.now labels.now) entries.now) }
{
    for found in entries {
        push_unwritten(alloc, text, trace, labels, found)?;
    }
    Ok(())
}

// Adds the assertion on bytes that no store has written.
fn push_unwritten(
    alloc: Global,
    text: &mut Vec<u8>,
    trace: &Trace,
    labels: &Labels,
    found: &Unwritten,
) -> Result<(), OutOfMemory>
    ensures { OnOk result (text.new.items ≡ text.old.items ++ unwritten_line trace.now labels.now found.now) }
{
    let value = unwritten_value(alloc, trace, labels, found)?;
    push_value(alloc, text, &value)
}
