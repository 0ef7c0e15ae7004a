//! What other parts of an explanation need, and what comes next after each event tells of the trace.
ghost use Rattle.std.specs.Prelude.{◌≡◌, IfOk, IfSome};
ghost use Rattle.pmt_explanation.specs.Prelude.{AreDropped, IsUpcoming};
ghost use Rattle.pmt_explanation.specs.Explaining.{AreBroken};

use crate::risks::{Broken, broken_of};
use pmt_analysis::Analysis;
use pmt_asked::{Labels, Options};
use pmt_causes::{Group, LateSpot};
use pmt_explain::{Dropped, SafePlaces, Upcoming, dropped_events, upcoming_of};
use pmt_model::OutOfMemory;
use std::alloc::Global;
use std::thread::{Threads, join_mut};

/// What is found first.
#[derive(Drop)]
pub(crate) struct Firsts {
    /// What comes next after each event, if it was asked for.
    pub(crate) upcoming: Option<Upcoming>,
    /// The flushes and fences that are dropped, by rising event number.
    pub(crate) dropped: Vec<Dropped>,
    /// For how many fences each event waits.
    pub(crate) waited: Vec<u64>,
    /// The late stores that are asked for, by place.
    pub(crate) late: Vec<Group<LateSpot>>,
}

/// What comes next after each event, and what is found by it.
#[derive(Drop)]
pub(crate) struct Following {
    /// What comes next, if an event is dropped or an assertion fails.
    pub(crate) upcoming: Option<Upcoming>,
    /// The flushes and fences that are dropped, by rising event number.
    pub(crate) dropped: Vec<Dropped>,
    /// What fails or is overwritten.
    pub(crate) broken: Broken,
}

// These of the trace that was analysed, where its events have these numbers of innermost frames, by two threads side by side.
pub(crate) fn following_of<R: Threads + Sync>(
    rt: &R,
    alloc: Global,
    analysis: &Analysis,
    safe: &SafePlaces<'_>,
    labels: &Labels,
    frames: &[Option<u64>],
    options: &Options,
) -> Result<Following, OutOfMemory>
    requires { safe.now.trace.now ≡ analysis.now.trace }
    ensures upcoming { IfOk result (λ x. IfSome x.upcoming (IsUpcoming analysis.now.trace)) }
    ensures dropped { IfOk result (λ x. AreDropped analysis.now.trace x.dropped.items) }
    ensures broken { IfOk result (λ x. AreBroken analysis.now labels.now frames.now options.now x.broken) }
{
    let kept = analysis.selection();
    let next = upcoming_if(alloc, analysis)?;
    let upcoming = &next;
    let (dropped, broken) = join_mut(
        rt,
        &mut || dropped_events(alloc, safe, kept, upcoming),
        &mut || broken_of(alloc, analysis, safe, labels, frames, options, upcoming),
    );
    let dropped = dropped?;
    let broken = broken?;
    Ok(Following {
        upcoming: next,
        dropped,
        broken,
    })
}

// What comes next after each event, if an event is dropped or an assertion fails.
fn upcoming_if(alloc: Global, analysis: &Analysis) -> Result<Option<Upcoming>, OutOfMemory>
    ensures { IfOk result (λ next. IfSome next (IsUpcoming analysis.now.trace)) }
{
    let trace = analysis.trace();
    if analysis.selection().len() == trace.len()
        && analysis.verdicts().iter().all(|verdict| verdict.pass)
    {
        return Ok(None);
    }
    let upcoming = upcoming_of(alloc, trace)?;
    Ok(Some(upcoming))
}
