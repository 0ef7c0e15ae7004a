//! The counts of an explanation as JSON.
ghost use Rattle.std.specs.Prelude.{◌≡◌, IfOk, string_bytes};
ghost use Rattle.serde_json.specs.Data.{string};
ghost use Rattle.serde_json.specs.View.{view};
ghost use Rattle.pmt_explain_json.specs.Entries.{or_null, count_data};
ghost use Rattle.pmt_asked.specs.Choosing.{kind_name};
ghost use Rattle.pmt_explain_json.specs.Lines.{asked_data, byte_range_data, more_data, summary_data};

use crate::lacking::{Lack, lacks_value};
use crate::objects::{object_made, object_value};
use crate::parts::count_or_null;
use crate::weighed::{told_entries, verdict_name};
use crate::words::address_text;
use pmt_asked::{ByteRange, Choice, Kind};
use pmt_entries::Verdict;
use pmt_explanation::{Explanation, Summary, per_cent};
use pmt_model::OutOfMemory;
use serde_json::Value;
use std::alloc::Global;

// The counts and the verdict; `more` tells how many entries of each kind are not shown, `limit` how many may be, and `lacks` what the trace lacks.
pub(crate) fn summary_value(
    alloc: Global,
    summary: &Summary,
    limit: usize,
    choice: &Choice,
    more: Value,
    lacks: &[Lack],
    verdict: Verdict,
) -> Result<Value, OutOfMemory>
    ensures { IfOk result (λ v. view v ≡ summary_data summary.now limit choice.now (view more) lacks.now verdict) }
{
    let asked = asked_value(alloc, choice);
    let kind = Value::try_from_str(alloc, "summary");
    let lacks = lacks_value(alloc, lacks);
    let verdict = Value::try_from_str(alloc, verdict_name(verdict));
    let of_fences = per_cent(summary.fences_dropped, summary.fences);
    let of_flushes = per_cent(summary.flushes_dropped, summary.flushes);
    let fields = vec![in alloc;
        ("asked", asked),
        ("assertions", Ok(Value::from(summary.assertions))),
        ("cache_lines", Ok(Value::from(summary.cache_lines))),
        ("events", Ok(Value::from(summary.events))),
        ("failing", Ok(Value::from(summary.failing))),
        ("fences", Ok(Value::from(summary.fences))),
        ("fences_dropped", Ok(Value::from(summary.fences_dropped))),
        ("fences_dropped_percent", Ok(Value::from(of_fences))),
        ("flushes", Ok(Value::from(summary.flushes))),
        ("flushes_dropped", Ok(Value::from(summary.flushes_dropped))),
        ("flushes_dropped_percent", Ok(Value::from(of_flushes))),
        (
            "ignored_never_persisted",
            Ok(Value::from(summary.ignored_never_persisted))
        ),
        (
            "ignored_overwritten",
            Ok(Value::from(summary.ignored_overwritten))
        ),
        ("kind", kind),
        ("lacks", lacks),
        ("limit", Ok(Value::from(limit))),
        ("more", Ok(more)),
        ("never_persisted", Ok(Value::from(summary.never_persisted))),
        ("schema", Ok(Value::from(4u64))),
        ("stores", Ok(Value::from(summary.stores))),
        ("threads", Ok(Value::from(summary.threads))),
        ("verdict", verdict),
    ]?;
    object_made(alloc, fields)
}

// How many entries of each kind are not shown.
pub(crate) fn more_value(
    alloc: Global,
    explanation: &Explanation,
    choice: &Choice,
) -> Result<Value, OutOfMemory>
    ensures { IfOk result (λ v. view v ≡ more_data explanation.now choice.now) }
{
    let limit = explanation.limit;
    let fields = vec![in alloc;
        (
            "cause",
            Value::from(explanation.causes.len().saturating_sub(limit))
        ),
        (
            "dropped",
            Value::from(explanation.asked_dropped.len().saturating_sub(limit))
        ),
        (
            "entry",
            Value::from(
                told_entries(explanation, choice)
                    .len()
                    .saturating_sub(limit)
            )
        ),
        (
            "failure",
            Value::from(explanation.causes.len().saturating_sub(limit))
        ),
        (
            "hint",
            Value::from(explanation.asked_hints.len().saturating_sub(limit))
        ),
        (
            "late",
            Value::from(explanation.late.len().saturating_sub(limit))
        ),
        (
            "never_persisted",
            Value::from(explanation.lost.len().saturating_sub(limit))
        ),
        (
            "overwritten",
            Value::from(explanation.overwritten.len().saturating_sub(limit))
        ),
        (
            "path",
            Value::from(explanation.left_paths.len().saturating_sub(limit))
        ),
        (
            "place",
            Value::from(explanation.places.len().saturating_sub(limit))
        ),
        (
            "unwritten",
            Value::from(explanation.unwritten.len().saturating_sub(limit))
        ),
    ]?;
    object_value(alloc, fields)
}

// What is asked for.
fn asked_value(alloc: Global, choice: &Choice) -> Result<Value, OutOfMemory>
    ensures { IfOk result (λ v. view v ≡ asked_data choice.now) }
{
    let label = text_or_null(alloc, &choice.label);
    let only = kind_or_null(alloc, choice.only);
    let range = range_or_null(alloc, choice.range);
    let fields = vec![in alloc;
        ("from", Ok(count_or_null(choice.from))),
        ("label", label),
        ("only", only),
        ("range", range),
        ("thread", Ok(thread_or_null(choice.thread))),
        ("to", Ok(count_or_null(choice.to))),
    ]?;
    object_made(alloc, fields)
}

fn text_or_null(alloc: Global, text: &Option<String>) -> Result<Value, OutOfMemory>
    ensures { IfOk result (λ v. view v ≡ or_null (λ s. string (string_bytes s)) text.now) }
{
    match text {
        Some(text) => Value::try_from_str(alloc, text.as_str()),
        None => Ok(Value::Null),
    }
}

fn kind_or_null(alloc: Global, kind: Option<Kind>) -> Result<Value, OutOfMemory>
    ensures { IfOk result (λ v. view v ≡ or_null (λ k. string (kind_name k)) kind) }
{
    match kind {
        Some(kind) => Value::try_from_str(alloc, kind.name()),
        None => Ok(Value::Null),
    }
}

fn range_or_null(alloc: Global, range: Option<ByteRange>) -> Result<Value, OutOfMemory>
    ensures { IfOk result (λ v. view v ≡ or_null byte_range_data range) }
{
    let Some(range) = range else {
        return Ok(Value::Null);
    };
    let address = address_text(alloc, range.addr)?;
    object_value(
        alloc,
        vec![in alloc;
            ("address", Value::String(address)),
            ("length", Value::from(range.len)),
        ]?,
    )
}

fn thread_or_null(thread: Option<u8>) -> Value
    ensures { view result ≡ or_null count_data thread }
{
    match thread {
        Some(thread) => Value::from(thread),
        None => Value::Null,
    }
}
