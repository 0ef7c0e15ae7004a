//! The entries of an explanation as JSON.
ghost use Rattle.std.specs.Prelude.{◌≡◌, ◌++◌, IfOk, OnOk, map};
ghost use Rattle.serde_json.specs.View.{view};
ghost use Rattle.pmt_explain_json.specs.Entries.{array_of, range_data, dropped_data, lost_data, overwritten_data, ranges_of, unwritten_data};

use crate::objects::object_made;
use crate::parts::{cause_value, event_value, line_value, mend_value, range_value, reason_value};
use pmt_asked::Labels;
use pmt_explain::{Dropped, LostGroup, OverwrittenGroup};
use pmt_failures::{Unwritten, mend_for};
use pmt_model::{OutOfMemory, Range, Trace};
use serde_json::Value;
use std::alloc::Global;

// Stores that are never persisted.
pub(crate) fn lost_value(
    alloc: Global,
    trace: &Trace,
    labels: &Labels,
    group: &LostGroup,
) -> Result<Value, OutOfMemory>
    ensures { IfOk result (λ v. view v ≡ lost_data trace.now labels.now group.now) }
{
    let kind = Value::try_from_str(alloc, "never_persisted");
    let line = line_value(alloc, trace, group.line);
    let cause = cause_value(alloc, trace, labels, group.cause);
    let first = event_value(alloc, trace, labels, group.first);
    let last = event_value(alloc, trace, labels, group.last);
    let mend = mend_for(group.cause, group.line, group.last, None, false);
    let mend = mend_value(alloc, trace, mend);
    let fields = vec![in alloc;
        ("cache_line", line),
        ("cause", cause),
        ("count", Ok(Value::from(group.count))),
        ("first", first),
        ("kind", kind),
        ("last", last),
        ("mend", mend),
    ]?;
    object_made(alloc, fields)
}

// A flush or fence that is dropped.
pub(crate) fn dropped_value(
    alloc: Global,
    trace: &Trace,
    labels: &Labels,
    dropped: Dropped,
) -> Result<Value, OutOfMemory>
    ensures { IfOk result (λ v. view v ≡ dropped_data trace.now labels.now dropped) }
{
    let kind = Value::try_from_str(alloc, "dropped");
    let event = event_value(alloc, trace, labels, dropped.event);
    let reason = reason_value(alloc, trace, labels, dropped.reason);
    let fields = vec![in alloc; ("event", event), ("kind", kind), ("reason", reason)]?;
    object_made(alloc, fields)
}

// Stores that are overwritten.
pub(crate) fn overwritten_value(
    alloc: Global,
    trace: &Trace,
    labels: &Labels,
    group: &OverwrittenGroup,
) -> Result<Value, OutOfMemory>
    ensures { IfOk result (λ v. view v ≡ overwritten_data trace.now labels.now group.now) }
{
    let kind = Value::try_from_str(alloc, "overwritten");
    let line = line_value(alloc, trace, group.line);
    let earlier = event_value(alloc, trace, labels, group.first.earlier);
    let later = event_value(alloc, trace, labels, group.first.later);
    let fields = vec![in alloc;
        ("cache_line", line),
        ("count", Ok(Value::from(group.count))),
        ("earlier", earlier),
        ("kind", kind),
        ("later", later),
        ("same", Ok(Value::from(group.same))),
    ]?;
    object_made(alloc, fields)
}

// An assertion on bytes that no store has written.
pub(crate) fn unwritten_value(
    alloc: Global,
    trace: &Trace,
    labels: &Labels,
    found: &Unwritten,
) -> Result<Value, OutOfMemory>
    ensures { IfOk result (λ v. view v ≡ unwritten_data trace.now labels.now found.now) }
{
    let kind = Value::try_from_str(alloc, "unwritten");
    let event = event_value(alloc, trace, labels, found.event);
    let ranges = ranges_value(alloc, found.first, found.second);
    let fields = vec![in alloc; ("event", event), ("kind", kind), ("ranges", ranges)]?;
    object_made(alloc, fields)
}

// The ranges that there are of these two.
fn ranges_value(
    alloc: Global,
    first: Option<Range>,
    second: Option<Range>,
) -> Result<Value, OutOfMemory>
    ensures { IfOk result (λ v. view v ≡ array_of (map range_data (ranges_of first ++ ranges_of second))) }
{
    let mut ranges = Vec::with_capacity(alloc, 2)?;
    push_range(alloc, &mut ranges, first)?;
    push_range(alloc, &mut ranges, second)?;
    Ok(Value::Array(ranges))
}

// Adds the range, if there is one.
fn push_range(
    alloc: Global,
    values: &mut Vec<Value>,
    range: Option<Range>,
) -> Result<(), OutOfMemory>
    ensures { OnOk result (map (λ v. view v) values.new.items ≡ map (λ v. view v) values.old.items ++ map range_data (ranges_of range)) }
{
    if let Some(range) = range {
        values.push(range_value(alloc, &range)?)?;
    }
    Ok(())
}
