//! Hints as JSON.
ghost use Rattle.std.specs.Prelude.{◌≡◌, ◌++◌, IfOk, OnOk};
ghost use Rattle.std.specs.List.{flat_map};
ghost use Rattle.serde_json.specs.Data.{string};
ghost use Rattle.serde_json.specs.View.{view};
ghost use Rattle.pmt_explain_json.specs.Entries.{or_null};
ghost use Rattle.pmt_explain_json.specs.Places.{hint_data, hint_line, hint_name as name_in, path_label};

use crate::lines::push_value;
use crate::objects::object_made;
use crate::parts::{event_value, label_value};
use crate::places::{label_or_null, thread_or_null};
use pmt_asked::Labels;
use pmt_hints::{Hint, HintKind};
use pmt_model::{OutOfMemory, Trace};
use serde_json::Value;
use std::alloc::Global;

// Adds the hints.
pub(crate) fn push_hints(
    alloc: Global,
    text: &mut Vec<u8>,
    trace: &Trace,
    labels: &Labels,
    hints: &[Hint],
) -> Result<(), OutOfMemory>
    ensures { OnOk result (text.new.items ≡ text.old.items ++ flat_map (hint_line trace.now labels.now) hints.now) }
{
    for hint in hints {
        push_hint(alloc, text, trace, labels, hint)?;
    }
    Ok(())
}

// Adds the hint.
fn push_hint(
    alloc: Global,
    text: &mut Vec<u8>,
    trace: &Trace,
    labels: &Labels,
    hint: &Hint,
) -> Result<(), OutOfMemory>
    ensures { OnOk result (text.new.items ≡ text.old.items ++ hint_line trace.now labels.now hint.now) }
{
    let value = hint_value(alloc, trace, labels, hint)?;
    push_value(alloc, text, &value)
}

// The events of one kind of hint that come from one place, or from one path.
fn hint_value(
    alloc: Global,
    trace: &Trace,
    labels: &Labels,
    hint: &Hint,
) -> Result<Value, OutOfMemory>
    ensures { IfOk result (λ v. view v ≡ hint_data trace.now labels.now hint.now) }
{
    let first = event_value(alloc, trace, labels, hint.first);
    let name = Value::try_from_str(alloc, hint_name(hint.kind));
    let kind = Value::try_from_str(alloc, "hint");
    let label = label_or_null(alloc, labels, hint.place);
    let path = path_or_null(alloc, labels, hint.path);
    let fields = vec![in alloc;
        ("count", Ok(Value::from(hint.count))),
        ("first", first),
        ("hint", name),
        ("kind", kind),
        ("label", label),
        ("path", path),
        ("thread", Ok(thread_or_null(hint.place))),
    ]?;
    object_made(alloc, fields)
}

// The label that the path is, if there is one.
pub(crate) fn path_or_null(
    alloc: Global,
    labels: &Labels,
    path: Option<u64>,
) -> Result<Value, OutOfMemory>
    ensures { IfOk result (λ v. view v ≡ or_null string (path_label labels.now path)) }
{
    match path {
        Some(number) => label_value(alloc, labels, number),
        None => Ok(Value::Null),
    }
}

// The name of the kind of hint.
pub(crate) fn hint_name(kind: HintKind) -> &'static str
    ensures { result.now ≡ name_in kind }
{
    match kind {
        HintKind::OpenAtStore => "open_at_store",
        HintKind::StoredAfterFlush => "stored_after_flush",
        HintKind::SplitWord => "split_word",
        HintKind::OneLineShort => "one_line_short",
        HintKind::StoredAfterMark => "stored_after_mark",
    }
}
