//! Places, paths, hints and late stores as JSON.
ghost use Rattle.std.specs.Prelude.{◌≡◌, ◌++◌, IfOk, OnOk};
ghost use Rattle.std.specs.List.{flat_map};
ghost use Rattle.serde_json.specs.Data.{string};
ghost use Rattle.serde_json.specs.View.{view};
ghost use Rattle.pmt_explain_json.specs.Entries.{line_data, or_null};
ghost use Rattle.pmt_explain_json.specs.Lines.{late_data, late_line, spot_label, spot_line, table_lines};

use crate::hints::push_hints;
use crate::lines::push_value;
use crate::objects::object_made;
use crate::parts::{event_value, frame_value, line_value};
use crate::places::push_places;
use pmt_asked::Labels;
use pmt_causes::{Group, LateSpot};
use pmt_explanation::{Explanation, first, first_of};
use pmt_model::{OutOfMemory, Trace};
use serde_json::Value;
use std::alloc::Global;

// Adds the rows of the places and of the paths, the hints, and the late stores.
pub(crate) fn push_tables(
    alloc: Global,
    text: &mut Vec<u8>,
    explanation: &Explanation,
    labels: &Labels,
) -> Result<(), OutOfMemory>
    ensures { OnOk result (text.new.items ≡ text.old.items ++ table_lines explanation.now labels.now) }
{
    let trace = explanation.analysis.trace();
    let limit = explanation.limit;
    let places = first(explanation.places.as_slice(), limit);
    let paths = first(explanation.left_paths.as_slice(), limit);
    let hints = first(explanation.asked_hints.as_slice(), limit);
    let late = first(explanation.late.as_slice(), limit);
    push_places(alloc, text, trace, labels, false, places)?;
    push_places(alloc, text, trace, labels, true, paths)?;
    push_hints(alloc, text, trace, labels, hints)?;
    push_late_groups(alloc, text, trace, labels, late)?;
    Ok(())
}

// Adds the groups of late stores.
fn push_late_groups(
    alloc: Global,
    text: &mut Vec<u8>,
    trace: &Trace,
    labels: &Labels,
    groups: &[Group<LateSpot>],
) -> Result<(), OutOfMemory>
    ensures { OnOk result (text.new.items ≡ text.old.items ++ flat_map (late_line trace.now labels.now) groups.now) }
{
    for group in groups {
        push_late(alloc, text, trace, labels, group)?;
    }
    Ok(())
}

// Adds the late stores.
fn push_late(
    alloc: Global,
    text: &mut Vec<u8>,
    trace: &Trace,
    labels: &Labels,
    group: &Group<LateSpot>,
) -> Result<(), OutOfMemory>
    ensures { OnOk result (text.new.items ≡ text.old.items ++ late_line trace.now labels.now group.now) }
{
    let value = late_value(alloc, trace, labels, group)?;
    push_value(alloc, text, &value)
}

// The late stores of one place.
fn late_value(
    alloc: Global,
    trace: &Trace,
    labels: &Labels,
    group: &Group<LateSpot>,
) -> Result<Value, OutOfMemory>
    ensures { IfOk result (λ v. view v ≡ late_data trace.now labels.now group.now) }
{
    let kind = Value::try_from_str(alloc, "late");
    let line = spot_line_value(alloc, trace, group.key);
    let label = spot_label_value(alloc, labels, group.key);
    let earliest = event_value(alloc, trace, labels, first_of(group));
    let fields = vec![in alloc;
        ("cache_line", line),
        ("count", Ok(Value::from(group.members.len()))),
        ("first", earliest),
        ("kind", kind),
        ("label", label),
    ]?;
    object_made(alloc, fields)
}

// The line of stores that have no label.
fn spot_line_value(alloc: Global, trace: &Trace, spot: LateSpot) -> Result<Value, OutOfMemory>
    ensures { IfOk result (λ v. view v ≡ or_null (line_data trace.now) (spot_line spot)) }
{
    match spot {
        LateSpot::Label(_) => Ok(Value::Null),
        LateSpot::Line(line) => line_value(alloc, trace, line),
    }
}

// The innermost frame of stores of one place in the program.
fn spot_label_value(alloc: Global, labels: &Labels, spot: LateSpot) -> Result<Value, OutOfMemory>
    ensures { IfOk result (λ v. view v ≡ or_null string (spot_label labels.now spot)) }
{
    match spot {
        LateSpot::Label(number) => frame_value(alloc, labels, number),
        LateSpot::Line(_) => Ok(Value::Null),
    }
}
