//! What an explanation has of flushes and fences that are dropped.
ghost use Rattle.std.specs.Prelude.{IfOk};
ghost use Rattle.pmt_explanation.specs.Explaining.{AreDrops};

use crate::asking::asked_drops;
use pmt_asked::{Labels, Options};
use pmt_causes::{DroppedKey, Group, dropped_groups};
use pmt_explain::Dropped;
use pmt_model::{OutOfMemory, Trace};
use std::alloc::Global;

/// The flushes and fences that are dropped.
#[derive(Drop)]
pub(crate) struct Drops {
    /// Those that are asked for, by rising event number.
    pub(crate) asked: Vec<Dropped>,
    /// These in groups by place, word and reason.
    pub(crate) groups: Vec<Group<DroppedKey>>,
}

// What is told of these, which are dropped in the trace, where its events have these numbers of labels.
pub(crate) fn drops_of(
    alloc: Global,
    trace: &Trace,
    dropped: &[Dropped],
    labels: &Labels,
    numbers: &[Option<u64>],
    options: &Options,
) -> Result<Drops, OutOfMemory>
    ensures { IfOk result (AreDrops trace.now labels.now numbers.now options.now dropped.now) }
{
    let asked = asked_drops(alloc, trace, labels, &options.choice, dropped)?;
    let groups = dropped_groups(alloc, trace, numbers, asked.as_slice())?;
    Ok(Drops { asked, groups })
}
