//! Groups of findings as JSON.
ghost use Rattle.std.specs.Prelude.{◌≡◌, IfOk, map};
ghost use Rattle.serde_json.specs.Data.{string};
ghost use Rattle.serde_json.specs.View.{view};
ghost use Rattle.pmt_explain_json.specs.Entries.{array_of, count_data};
ghost use Rattle.pmt_explain_json.specs.Places.{assertion_name, cause_group_data, cause_name as cause_in};

use crate::objects::object_made;
use crate::places::{label_or_null, thread_or_null};
use pmt_asked::Labels;
use pmt_causes::{AssertionKind, CauseKind, FailureKey, Group};
use pmt_model::OutOfMemory;
use serde_json::Value;
use std::alloc::Global;

// The failed assertions with one cause.
pub(crate) fn cause_group_value(
    alloc: Global,
    labels: &Labels,
    group: &Group<FailureKey>,
) -> Result<Value, OutOfMemory>
    ensures { IfOk result (λ v. view v ≡ cause_group_data labels.now group.now) }
{
    let key = group.key;
    let kind = Value::try_from_str(alloc, "cause");
    let assertion = assertion_value(alloc, key.kind);
    let events = numbers_value(alloc, group.members.as_slice());
    let label = label_or_null(alloc, labels, key.origin);
    let why = Value::try_from_str(alloc, cause_name(key.cause));
    let fields = vec![in alloc;
        ("assertion", assertion),
        ("count", Ok(Value::from(group.members.len()))),
        ("events", events),
        ("kind", kind),
        ("label", label),
        ("thread", Ok(thread_or_null(key.origin))),
        ("why", why),
    ]?;
    object_made(alloc, fields)
}

// The numbers.
fn numbers_value(alloc: Global, numbers: &[u64]) -> Result<Value, OutOfMemory>
    ensures { IfOk result (λ v. view v ≡ array_of (map count_data numbers.now)) }
{
    let mut values = Vec::with_capacity(alloc, numbers.len())?;
    for number in numbers {
        values.push(Value::from(*number))?;
    }
    Ok(Value::Array(values))
}

fn assertion_value(alloc: Global, kind: AssertionKind) -> Result<Value, OutOfMemory>
    ensures { IfOk result (λ v. view v ≡ string (assertion_name kind)) }
{
    match kind {
        AssertionKind::Persist => Value::try_from_str(alloc, "isPersist"),
        AssertionKind::Ordered => Value::try_from_str(alloc, "isOrderedBefore"),
    }
}

// The name of the kind of cause.
pub(crate) fn cause_name(cause: CauseKind) -> &'static str
    ensures { result.now ≡ cause_in cause }
{
    match cause {
        CauseKind::Later => "later",
        CauseKind::Unflushed => "unflushed",
        CauseKind::Unfenced => "unfenced",
    }
}
