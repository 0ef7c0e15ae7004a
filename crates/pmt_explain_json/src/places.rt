//! What becomes of each place of the source, and of paths, as JSON.
ghost use Rattle.std.specs.Prelude.{◌≡◌, ◌++◌, IfOk, OnOk};
ghost use Rattle.std.specs.List.{flat_map};
ghost use Rattle.serde_json.specs.Data.{string};
ghost use Rattle.serde_json.specs.View.{view};
ghost use Rattle.pmt_explain_json.specs.Entries.{count_data, or_null};
ghost use Rattle.pmt_explain_json.specs.Places.{place_data, place_label, place_line, place_thread, row_kind as kind_in, row_label as label_in, saved_data};

use crate::lines::push_value;
use crate::objects::{object_made, object_value};
use crate::parts::{event_or_null, event_value, frame_value, label_value};
use pmt_asked::Labels;
use pmt_causes::Origin;
use pmt_fates::{PlaceRow, SavedBefore};
use pmt_model::{OutOfMemory, Trace};
use serde_json::Value;
use std::alloc::Global;

// Adds the rows of the places, or of paths, whose labels are whole.
pub(crate) fn push_places(
    alloc: Global,
    text: &mut Vec<u8>,
    trace: &Trace,
    labels: &Labels,
    whole: bool,
    rows: &[PlaceRow],
) -> Result<(), OutOfMemory>
    ensures { OnOk result (text.new.items ≡ text.old.items ++ flat_map (place_line trace.now labels.now whole) rows.now) }
{
    for row in rows {
        push_place(alloc, text, trace, labels, whole, row)?;
    }
    Ok(())
}

// Adds the row of the place or path.
fn push_place(
    alloc: Global,
    text: &mut Vec<u8>,
    trace: &Trace,
    labels: &Labels,
    whole: bool,
    row: &PlaceRow,
) -> Result<(), OutOfMemory>
    ensures { OnOk result (text.new.items ≡ text.old.items ++ place_line trace.now labels.now whole row.now) }
{
    let value = place_value(alloc, trace, labels, whole, row)?;
    push_value(alloc, text, &value)
}

// What the place or path has.
fn place_value(
    alloc: Global,
    trace: &Trace,
    labels: &Labels,
    whole: bool,
    row: &PlaceRow,
) -> Result<Value, OutOfMemory>
    ensures { IfOk result (λ v. view v ≡ place_data trace.now labels.now whole row.now) }
{
    let first = event_value(alloc, trace, labels, row.first);
    let first_late = event_or_null(alloc, trace, labels, row.first_late);
    let first_left = event_or_null(alloc, trace, labels, row.first_left);
    let first_lost = event_or_null(alloc, trace, labels, row.first_lost);
    let kind = Value::try_from_str(alloc, row_kind(whole));
    let label = row_label(alloc, labels, whole, row.place);
    let saved = saved_or_null(alloc, trace, labels, row.saved_before);
    let fields = vec![in alloc;
        ("fences", Ok(Value::from(row.fences))),
        ("fences_dropped", Ok(Value::from(row.idle_fences))),
        ("first", first),
        ("first_late", first_late),
        ("first_left", first_left),
        ("first_never_persisted", first_lost),
        ("flushes", Ok(Value::from(row.flushes))),
        ("flushes_dropped", Ok(Value::from(row.idle_flushes))),
        ("ignored", Ok(Value::from(row.ignored))),
        ("in_time", Ok(Value::from(row.in_time))),
        ("kind", kind),
        ("label", label),
        ("late", Ok(Value::from(row.late))),
        ("left", Ok(Value::from(row.left))),
        ("never_persisted", Ok(Value::from(row.lost))),
        ("saved_before", saved),
        ("stores", Ok(Value::from(row.stores))),
        ("thread", Ok(thread_or_null(row.place))),
    ]?;
    object_made(alloc, fields)
}

// The kind of the row.
fn row_kind(whole: bool) -> &'static str
    ensures { result.now ≡ kind_in whole }
{
    if whole { "path" } else { "place" }
}

// The label of the row, if its events have one: the innermost frame of a place, or the whole label of a path.
fn row_label(
    alloc: Global,
    labels: &Labels,
    whole: bool,
    place: Origin,
) -> Result<Value, OutOfMemory>
    ensures { IfOk result (λ v. view v ≡ or_null string (label_in labels.now whole place)) }
{
    if !whole {
        return label_or_null(alloc, labels, place);
    }
    match place {
        Origin::Label(number) => label_value(alloc, labels, number),
        Origin::Thread(_) => Ok(Value::Null),
    }
}

// What a crash keeps without the place's first store that one fence leaves unsafe, if it keeps any.
fn saved_or_null(
    alloc: Global,
    trace: &Trace,
    labels: &Labels,
    saved: Option<SavedBefore>,
) -> Result<Value, OutOfMemory>
    ensures { IfOk result (λ v. view v ≡ or_null (saved_data trace.now labels.now) saved) }
{
    match saved {
        Some(saved) => saved_value(alloc, trace, labels, saved),
        None => Ok(Value::Null),
    }
}

// What a crash keeps without a store.
fn saved_value(
    alloc: Global,
    trace: &Trace,
    labels: &Labels,
    saved: SavedBefore,
) -> Result<Value, OutOfMemory>
    ensures { IfOk result (λ v. view v ≡ saved_data trace.now labels.now saved) }
{
    let store = event_value(alloc, trace, labels, saved.store)?;
    let fields = vec![in alloc; ("place", Value::from(saved.place)), ("store", store)]?;
    object_value(alloc, fields)
}

// The place's innermost frame, if its events have a label.
pub(crate) fn label_or_null(
    alloc: Global,
    labels: &Labels,
    place: Origin,
) -> Result<Value, OutOfMemory>
    ensures { IfOk result (λ v. view v ≡ or_null string (place_label labels.now place)) }
{
    match place {
        Origin::Label(number) => frame_value(alloc, labels, number),
        Origin::Thread(_) => Ok(Value::Null),
    }
}

// The thread of the place, if its events have no label.
pub(crate) fn thread_or_null(place: Origin) -> Value
    ensures { view result ≡ or_null count_data (place_thread place) }
{
    match place {
        Origin::Label(_) => Value::Null,
        Origin::Thread(thread) => Value::from(thread),
    }
}
