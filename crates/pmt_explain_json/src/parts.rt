//! Events, causes, reasons and mends as JSON.
ghost use Rattle.std.specs.Prelude.{◌≡◌, IfOk, string_bytes};
ghost use Rattle.serde_json.specs.Data.{string};
ghost use Rattle.serde_json.specs.View.{view};
ghost use Rattle.pmt_asked.specs.Choosing.{frame_of as frame_in, label_of};
ghost use Rattle.pmt_explain_json.specs.Entries.{address_data, by_of as by_in, byte_store_data, cause_data, count_data, event_data, fence_data, flush_data, line_data, mend_data, named_cause, or_null, range_data, reason_data, reason_name as name_in, store_first_data, unfenced_data};

use crate::objects::{object_made, object_value};
use crate::words::{address_of, address_text, words_of};
use pmt_asked::{Labels, frame_of};
use pmt_model::{OutOfMemory, Range, Trace};
use pmt_reasons::{ByteStore, Cause, Mend, Reason};
use pmt_text::line_address;
use serde_json::Value;
use std::alloc::Global;

// The event as a person finds it again; null where there is none with this number.
pub(crate) fn event_value(
    alloc: Global,
    trace: &Trace,
    labels: &Labels,
    number: u64,
) -> Result<Value, OutOfMemory>
    ensures { IfOk result (λ v. view v ≡ event_data trace.now labels.now number) }
{
    let Some(event) = trace.get(number) else {
        return Ok(Value::Null);
    };
    let thread = event.thread;
    let op = event.op;
    let words = words_of(alloc, event)?;
    let address = address_value(alloc, address_of(op));
    let label = label_value(alloc, labels, number);
    let fields = vec![in alloc;
        ("address", address),
        ("event", Ok(Value::from(number))),
        ("label", label),
        ("line", Ok(Value::from(number.saturating_add(1)))),
        ("thread", Ok(Value::from(thread))),
        ("words", Ok(Value::String(words))),
    ]?;
    object_made(alloc, fields)
}

// The event, if there is a number.
pub(crate) fn event_or_null(
    alloc: Global,
    trace: &Trace,
    labels: &Labels,
    number: Option<u64>,
) -> Result<Value, OutOfMemory>
    ensures { IfOk result (λ v. view v ≡ or_null (event_data trace.now labels.now) number) }
{
    match number {
        Some(number) => event_value(alloc, trace, labels, number),
        None => Ok(Value::Null),
    }
}

// The address, if there is one.
fn address_value(alloc: Global, addr: Option<u64>) -> Result<Value, OutOfMemory>
    ensures { IfOk result (λ v. view v ≡ or_null address_data addr) }
{
    match addr {
        Some(addr) => Ok(Value::String(address_text(alloc, addr)?)),
        None => Ok(Value::Null),
    }
}

// The label of the event, if it has one.
pub(crate) fn label_value(alloc: Global, labels: &Labels, number: u64) -> Result<Value, OutOfMemory>
    ensures { IfOk result (λ v. view v ≡ or_null string (label_of labels.now number)) }
{
    match labels.get(number) {
        Some(label) => Value::try_from_str(alloc, label.as_str()),
        None => Ok(Value::Null),
    }
}

// The innermost frame of the event's label, if it has one.
pub(crate) fn frame_value(alloc: Global, labels: &Labels, number: u64) -> Result<Value, OutOfMemory>
    ensures { IfOk result (λ v. view v ≡ or_null string (frame_in labels.now number)) }
{
    match labels.get(number) {
        Some(label) => Value::try_from_str(alloc, frame_of(label.as_str())),
        None => Ok(Value::Null),
    }
}

// The line by the address of its first byte.
pub(crate) fn line_value(alloc: Global, trace: &Trace, line: u64) -> Result<Value, OutOfMemory>
    ensures { IfOk result (λ v. view v ≡ line_data trace.now line) }
{
    Ok(Value::String(address_text(alloc, line_address(trace.format(), line))?))
}

// A byte, and the store that writes it.
pub(crate) fn byte_store_value(
    alloc: Global,
    trace: &Trace,
    labels: &Labels,
    found: ByteStore,
) -> Result<Value, OutOfMemory>
    ensures { IfOk result (λ v. view v ≡ byte_store_data trace.now labels.now found) }
{
    let byte = address_text(alloc, found.byte)?;
    let store = event_value(alloc, trace, labels, found.store)?;
    object_value(
        alloc,
        vec![in alloc; ("byte", Value::String(byte)), ("store", store)]?,
    )
}

// The range by its address and length.
pub(crate) fn range_value(alloc: Global, range: &Range) -> Result<Value, OutOfMemory>
    ensures { IfOk result (λ v. view v ≡ range_data range.now) }
{
    let address = address_text(alloc, range.addr().get())?;
    object_value(
        alloc,
        vec![in alloc;
            ("address", Value::String(address)),
            ("length", Value::from(range.len())),
        ]?,
    )
}

// Why a store is not safe.
pub(crate) fn cause_value(
    alloc: Global,
    trace: &Trace,
    labels: &Labels,
    cause: Cause,
) -> Result<Value, OutOfMemory>
    ensures { IfOk result (λ v. view v ≡ cause_data trace.now labels.now cause) }
{
    match cause {
        Cause::Later => named_value(alloc, "later"),
        Cause::Unflushed => named_value(alloc, "unflushed"),
        Cause::Unfenced {
            flush,
            thread,
            other,
        } => unfenced_value(alloc, trace, labels, flush, thread, other),
    }
}

// A cause that has nothing but its name.
fn named_value(alloc: Global, name: &str) -> Result<Value, OutOfMemory>
    ensures { IfOk result (λ v. view v ≡ named_cause name.now) }
{
    let cause = Value::try_from_str(alloc, name)?;
    object_value(alloc, vec![in alloc; ("cause", cause)]?)
}

// A flush that its thread does not fence.
fn unfenced_value(
    alloc: Global,
    trace: &Trace,
    labels: &Labels,
    flush: u64,
    thread: u8,
    other: Option<u64>,
) -> Result<Value, OutOfMemory>
    ensures { IfOk result (λ v. view v ≡ unfenced_data trace.now labels.now flush thread other) }
{
    let cause = Value::try_from_str(alloc, "unfenced");
    let flush = event_value(alloc, trace, labels, flush);
    let other = event_or_null(alloc, trace, labels, other);
    let fields = vec![in alloc;
        ("cause", cause),
        ("flush", flush),
        ("other", other),
        ("thread", Ok(Value::from(thread))),
    ]?;
    object_made(alloc, fields)
}

// Why an event is dropped.
pub(crate) fn reason_value(
    alloc: Global,
    trace: &Trace,
    labels: &Labels,
    reason: Reason,
) -> Result<Value, OutOfMemory>
    ensures { IfOk result (λ v. view v ≡ reason_data trace.now labels.now reason) }
{
    let by = event_or_null(alloc, trace, labels, by_of(reason))?;
    let name = Value::try_from_str(alloc, reason_name(reason))?;
    object_value(alloc, vec![in alloc; ("by", by), ("reason", name)]?)
}

// The name of the reason.
pub(crate) fn reason_name(reason: Reason) -> &'static str
    ensures { result.now ≡ name_in reason }
{
    match reason {
        Reason::Safe => "safe",
        Reason::Unfenced => "unfenced",
        Reason::Repeated { by: _ } => "repeated",
        Reason::Overtaken { by: _ } => "overtaken",
        Reason::Empty => "empty",
        Reason::Useless => "useless",
    }
}

// The event in whose favour the other is dropped.
pub(crate) fn by_of(reason: Reason) -> Option<u64>
    ensures { result ≡ by_in reason }
{
    match reason {
        Reason::Repeated { by } => Some(by),
        Reason::Overtaken { by } => Some(by),
        Reason::Safe => None,
        Reason::Unfenced => None,
        Reason::Empty => None,
        Reason::Useless => None,
    }
}

// What mends a store.
pub(crate) fn mend_value(alloc: Global, trace: &Trace, mend: Mend) -> Result<Value, OutOfMemory>
    ensures { IfOk result (λ v. view v ≡ mend_data trace.now mend) }
{
    match mend {
        Mend::Fence {
            thread,
            after,
            before,
        } => fence_value(alloc, thread, after, before),
        Mend::FlushAndFence {
            line,
            after,
            before,
        } => flush_value(alloc, trace, line, after, before),
        Mend::StoreFirst {
            store,
            before,
            same_line,
        } => store_first_value(alloc, store, before, same_line),
    }
}

// A fence that mends a store.
fn fence_value(
    alloc: Global,
    thread: u8,
    after: u64,
    before: Option<u64>,
) -> Result<Value, OutOfMemory>
    ensures { IfOk result (λ v. view v ≡ fence_data thread after before) }
{
    let mend = Value::try_from_str(alloc, "fence")?;
    let fields = vec![in alloc;
        ("after", Value::from(after)),
        ("before", count_or_null(before)),
        ("mend", mend),
        ("thread", Value::from(thread)),
    ]?;
    object_value(alloc, fields)
}

// A flush and a fence that mend a store.
fn flush_value(
    alloc: Global,
    trace: &Trace,
    line: u64,
    after: u64,
    before: Option<u64>,
) -> Result<Value, OutOfMemory>
    ensures { IfOk result (λ v. view v ≡ flush_data trace.now line after before) }
{
    let line = line_value(alloc, trace, line)?;
    let mend = Value::try_from_str(alloc, "flush_and_fence")?;
    let fields = vec![in alloc;
        ("after", Value::from(after)),
        ("before", count_or_null(before)),
        ("cache_line", line),
        ("mend", mend),
    ]?;
    object_value(alloc, fields)
}

// A store that is to be made earlier.
fn store_first_value(
    alloc: Global,
    store: u64,
    before: Option<u64>,
    same_line: bool,
) -> Result<Value, OutOfMemory>
    ensures { IfOk result (λ v. view v ≡ store_first_data store before same_line) }
{
    let mend = Value::try_from_str(alloc, "store_first")?;
    let fields = vec![in alloc;
        ("before", count_or_null(before)),
        ("mend", mend),
        ("same_line", Value::from(same_line)),
        ("store", Value::from(store)),
    ]?;
    object_value(alloc, fields)
}

// The number, if there is one.
pub(crate) fn count_or_null(number: Option<u64>) -> Value
    ensures { view result ≡ or_null count_data number }
{
    match number {
        Some(number) => Value::from(number),
        None => Value::Null,
    }
}
