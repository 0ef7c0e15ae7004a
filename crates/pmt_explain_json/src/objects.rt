//! JSON objects of fields.
ghost use Rattle.std.specs.Prelude.{◌≡◌, IfOk};
ghost use Rattle.serde_json.specs.Data.{object, no_members};
ghost use Rattle.serde_json.specs.View.{view};
ghost use Rattle.pmt_explain_json.specs.Entries.{IsMadeOf, put_all};

use pmt_model::OutOfMemory;
use serde_json::{Map, Value, put};
use std::alloc::Global;

// The object with these fields, by their keys.
pub(crate) fn object_value(
    alloc: Global,
    fields: Vec<(&'static str, Value)>,
) -> Result<Value, OutOfMemory>
    ensures { IfOk result (λ v. view v ≡ object (put_all fields.entry.items no_members)) }
{
    let mut members = Map::new(alloc);
    for (key, value) in fields {
        put(&mut members, alloc, key, value)?;
    }
    Ok(Value::Object(members))
}

// The object with these fields, if there was memory for all of their values.
pub(crate) fn object_made(
    alloc: Global,
    fields: Vec<(&'static str, Result<Value, OutOfMemory>)>,
) -> Result<Value, OutOfMemory>
    ensures { IfOk result (λ v. IsMadeOf fields.entry.items no_members (view v)) }
{
    let mut members = Map::new(alloc);
    for (key, value) in fields {
        put(&mut members, alloc, key, value?)?;
    }
    Ok(Value::Object(members))
}
