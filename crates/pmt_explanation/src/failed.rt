//! What an explanation has of assertions that fail.
ghost use Rattle.std.specs.Prelude.{◌≡◌, take, IfOk, IfSome};
ghost use Rattle.pmt_causes.specs.Groups.{AreFailureGroups};
ghost use Rattle.pmt_explanation.specs.Prelude.{IsUpcoming};
ghost use Rattle.pmt_explanation.specs.Explaining.{asked_numbers as numbers_asked, first_members as firsts_of};
ghost use Rattle.pmt_failures.specs.Showing.{failing_events as failing_of, AreShown};
ghost use Rattle.pmt_asked.specs.declared.choosing.Kind.TheVariants.{Failure};

use crate::asking::asked_numbers;
use crate::causing::{causes_of, first_members};
use pmt_asked::{Kind, Labels, Options};
use pmt_causes::{FailureKey, Group, first};
use pmt_explain::{SafePlaces, Upcoming};
use pmt_failures::{ShownFailure, failing_events, shown_failures};
use pmt_model::{OutOfMemory, Verdict};
use std::alloc::Global;

/// Assertions that fail.
#[derive(Drop)]
pub(crate) struct Failed {
    /// All of them, by rising event number.
    pub(crate) failing: Vec<u64>,
    /// Those that are asked for.
    pub(crate) asked: Vec<u64>,
    /// Those by cause.
    pub(crate) causes: Vec<Group<FailureKey>>,
    /// The first one of each cause in full, as many as the limit allows.
    pub(crate) shown: Vec<ShownFailure>,
}

// The assertions that fail by these verdicts of the trace of these places, where the events have these numbers of
// innermost frames, and this comes next after each, if that is known.
pub(crate) fn failed_of(
    alloc: Global,
    safe: &SafePlaces<'_>,
    verdicts: &[Verdict],
    labels: &Labels,
    frames: &[Option<u64>],
    options: &Options,
    upcoming: &Option<Upcoming>,
) -> Result<Failed, OutOfMemory>
    requires { IfSome upcoming.now (IsUpcoming safe.now.trace.now) }
    ensures failing { IfOk result (λ f. f.failing.items ≡ failing_of verdicts.now) }
    ensures asked { IfOk result (λ f. f.asked.items ≡ numbers_asked safe.now.trace.now labels.now options.now.choice Failure f.failing.items) }
    ensures causes { IfOk result (λ f. AreFailureGroups safe.now.trace.now frames.now f.asked.items f.causes.items) }
    ensures shown { IfOk result (λ f. AreShown safe.now.trace.now (take options.now.limit (firsts_of f.causes.items)) f.shown.items) }
{
    let failing = failing_events(alloc, verdicts)?;
    let asked = asked_numbers(
        alloc,
        safe.trace(),
        labels,
        &options.choice,
        Kind::Failure,
        failing.as_slice(),
    )?;
    let causes = causes_of(alloc, safe, frames, asked.as_slice(), upcoming)?;
    let firsts = first_members(alloc, causes.as_slice())?;
    let few = first(firsts.as_slice(), options.limit);
    let shown = shown_failures(alloc, safe, few)?;
    Ok(Failed {
        failing,
        asked,
        causes,
        shown,
    })
}
