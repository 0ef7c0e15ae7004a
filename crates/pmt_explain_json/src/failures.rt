//! Failed assertions as JSON.
ghost use Rattle.std.specs.Prelude.{◌≡◌, IfOk, map};
ghost use Rattle.serde_json.specs.View.{view};
ghost use Rattle.pmt_explain_json.specs.Entries.{array_of, byte_store_data, or_null, byte_store, byte_value, failure_data, line_count_data, range_after_data};

use crate::objects::{object_made, object_value};
use crate::parts::{byte_store_value, cause_value, event_value, line_value, mend_value};
use crate::words::address_text;
use pmt_asked::Labels;
use pmt_explain::{CrashByte, LineCount};
use pmt_failures::{RangeAfter, ShownCrash};
use pmt_model::{OutOfMemory, Trace};
use pmt_reasons::ByteStore;
use serde_json::Value;
use std::alloc::Global;

// The failed assertion in full.
pub(crate) fn failure_value(
    alloc: Global,
    trace: &Trace,
    labels: &Labels,
    crash: &ShownCrash,
) -> Result<Value, OutOfMemory>
    ensures { IfOk result (λ v. view v ≡ failure_data trace.now labels.now crash.now) }
{
    let shown = &crash.shown;
    let kind = Value::try_from_str(alloc, "failure");
    let event = event_value(alloc, trace, labels, shown.event);
    let kept = kept_value(alloc, trace, labels, shown.failure.kept);
    let lost = byte_store_value(alloc, trace, labels, shown.failure.lost);
    let cause = cause_value(alloc, trace, labels, shown.cause);
    let mend = mend_value(alloc, trace, shown.mend);
    let lines = lines_value(alloc, trace, crash.lines.as_slice());
    let ranges = ranges_value(alloc, crash.ranges.as_slice());
    let fields = vec![in alloc;
        ("cause", cause),
        ("event", event),
        ("kept", kept),
        ("kind", kind),
        ("lines", lines),
        ("lost", lost),
        ("mend", mend),
        ("more_lines", Ok(Value::from(crash.more_lines))),
        ("place", Ok(Value::from(shown.failure.place))),
        ("ranges", ranges),
        ("whole_lines", Ok(Value::from(crash.whole_lines))),
    ]?;
    object_made(alloc, fields)
}

// The store that the crash keeps, if it is told.
fn kept_value(
    alloc: Global,
    trace: &Trace,
    labels: &Labels,
    kept: Option<ByteStore>,
) -> Result<Value, OutOfMemory>
    ensures { IfOk result (λ v. view v ≡ or_null (byte_store_data trace.now labels.now) kept) }
{
    match kept {
        Some(kept) => byte_store_value(alloc, trace, labels, kept),
        None => Ok(Value::Null),
    }
}

// How many stores the crash leaves persisted, of lines that lose one.
fn lines_value(alloc: Global, trace: &Trace, lines: &[LineCount]) -> Result<Value, OutOfMemory>
    ensures { IfOk result (λ v. view v ≡ array_of (map (line_count_data trace.now) lines.now)) }
{
    let mut values = Vec::with_capacity(alloc, lines.len())?;
    for line in lines {
        values.push(line_count_value(alloc, trace, *line)?)?;
    }
    Ok(Value::Array(values))
}

fn line_count_value(alloc: Global, trace: &Trace, count: LineCount) -> Result<Value, OutOfMemory>
    ensures { IfOk result (λ v. view v ≡ line_count_data trace.now count) }
{
    let line = line_value(alloc, trace, count.line)?;
    let fields = vec![in alloc;
        ("cache_line", line),
        ("persisted", Value::from(count.persisted)),
        ("stores", Value::from(count.stores)),
    ]?;
    object_value(alloc, fields)
}

// What memory holds in the ranges.
fn ranges_value(alloc: Global, ranges: &[RangeAfter]) -> Result<Value, OutOfMemory>
    ensures { IfOk result (λ v. view v ≡ array_of (map range_after_data ranges.now)) }
{
    let mut values = Vec::with_capacity(alloc, ranges.len())?;
    for range in ranges {
        values.push(range_after_value(alloc, range)?)?;
    }
    Ok(Value::Array(values))
}

fn range_after_value(alloc: Global, after: &RangeAfter) -> Result<Value, OutOfMemory>
    ensures { IfOk result (λ v. view v ≡ range_after_data after.now) }
{
    let address = address_text(alloc, after.range.addr().get())?;
    let stores = stores_value(alloc, after.bytes.as_slice());
    let values = values_value(alloc, after.bytes.as_slice());
    let fields = vec![in alloc;
        ("address", Ok(Value::String(address))),
        ("length", Ok(Value::from(after.range.len()))),
        ("stores", stores),
        ("values", values),
    ]?;
    object_made(alloc, fields)
}

// The numbers of the stores that the bytes are from.
fn stores_value(alloc: Global, bytes: &[CrashByte]) -> Result<Value, OutOfMemory>
    ensures { IfOk result (λ v. view v ≡ array_of (map byte_store bytes.now)) }
{
    let mut values = Vec::with_capacity(alloc, bytes.len())?;
    for byte in bytes {
        values.push(store_value(*byte))?;
    }
    Ok(Value::Array(values))
}

fn store_value(byte: CrashByte) -> Value
    ensures { view result ≡ byte_store byte }
{
    match byte.last {
        Some(last) => Value::from(last.store),
        None => Value::Null,
    }
}

// What the bytes hold.
fn values_value(alloc: Global, bytes: &[CrashByte]) -> Result<Value, OutOfMemory>
    ensures { IfOk result (λ v. view v ≡ array_of (map byte_value bytes.now)) }
{
    let mut values = Vec::with_capacity(alloc, bytes.len())?;
    for byte in bytes {
        values.push(held_value(*byte))?;
    }
    Ok(Value::Array(values))
}

fn held_value(byte: CrashByte) -> Value
    ensures { view result ≡ byte_value byte }
{
    match byte.last {
        Some(last) => Value::from(last.value),
        None => Value::Null,
    }
}
