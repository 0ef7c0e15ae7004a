//! What a trace lacks, as JSON.
ghost use Rattle.std.specs.Prelude.{◌≡◌, IfOk, map, string_bytes};
ghost use Rattle.serde_json.specs.Data.{string};
ghost use Rattle.serde_json.specs.View.{view};
ghost use Rattle.pmt_explain_json.specs.Lines.{lack_data};
ghost use Rattle.pmt_explain_json.specs.Entries.{array_of};

use crate::objects::object_made;
use crate::parts::count_or_null;
use pmt_model::OutOfMemory;
use serde_json::Value;
use std::alloc::Global;

/// What a trace lacks of its run, by a line of a file beside it.
#[derive(Drop)]
pub struct Lack {
    /// How many; where the trace was cut, after which event. None where that is not known.
    pub count: Option<u64>,
    /// `cut`, or the kind that the line names.
    pub kind: String,
    /// What is missing, or why it was cut, in words.
    pub what: String,
}

// All that a trace lacks.
pub(crate) fn lacks_value(alloc: Global, lacks: &[Lack]) -> Result<Value, OutOfMemory>
    ensures { IfOk result (λ v. view v ≡ array_of (map lack_data lacks.now)) }
{
    let mut values = Vec::with_capacity(alloc, lacks.len())?;
    for lack in lacks {
        values.push(lack_value(alloc, lack)?)?;
    }
    Ok(Value::Array(values))
}

fn lack_value(alloc: Global, lack: &Lack) -> Result<Value, OutOfMemory>
    ensures { IfOk result (λ v. view v ≡ lack_data lack.now) }
{
    let kind = text_value(alloc, &lack.kind);
    let what = text_value(alloc, &lack.what);
    let fields = vec![in alloc;
        ("count", Ok(count_or_null(lack.count))),
        ("kind", kind),
        ("what", what),
    ]?;
    object_made(alloc, fields)
}

fn text_value(alloc: Global, text: &String) -> Result<Value, OutOfMemory>
    ensures { IfOk result (λ v. view v ≡ string (string_bytes text.now)) }
{
    Value::try_from_str(alloc, text.as_str())
}
