//! All hints of a trace.
ghost use Rattle.std.specs.Prelude.{◌≡◌, ◌++◌, IfOk, IfSome};
ghost use Rattle.pmt_explanation.specs.Prelude.{AreWaited, IsUpcoming};
ghost use Rattle.pmt_explanation.specs.Explaining.{AreEarly, AreLate, AreOpenHints};

use pmt_analysis::Analysis;
use pmt_explain::{SafePlaces, Upcoming};
use pmt_hints::{
    Hint, HintKind, hints_of, one_line_short, path_hints_of, split_words, stored_after_flush,
    stored_after_mark, told_on_paths, told_open,
};
use pmt_model::{OutOfMemory, Trace};
use std::alloc::Global;

/// The hints that are found by the trace and what is kept of it alone.
#[derive(Drop)]
pub(crate) struct EarlyHints {
    /// Those of words in two lines.
    pub(crate) words: Vec<Hint>,
    /// Those of stores after a mark.
    pub(crate) marks: Vec<Hint>,
    /// Those of flushes that are open at a store.
    pub(crate) flushes: Vec<Hint>,
}

/// The hints that need to know for how many fences each event waits.
#[derive(Drop)]
pub(crate) struct LateHints {
    /// Those of stores after their flush.
    pub(crate) stores: Vec<Hint>,
    /// Those of flushes that are one line short.
    pub(crate) runs: Vec<Hint>,
}

// The first hints of the trace that was analysed, if its events have these numbers of innermost frames and of whole labels.
pub(crate) fn early_hints(
    alloc: Global,
    analysis: &Analysis,
    frames: &[Option<u64>],
    paths: &[Option<u64>],
) -> Result<EarlyHints, OutOfMemory>
    ensures { IfOk result (AreEarly analysis.now.trace frames.now paths.now) }
{
    let trace = analysis.trace();
    let split = split_words(alloc, trace, frames)?;
    let words = hints_of(alloc, trace, frames, HintKind::SplitWord, split.numbers())?;
    let after = stored_after_mark(alloc, trace, analysis.verdicts(), frames)?;
    let marks = hints_of(
        alloc,
        trace,
        frames,
        HintKind::StoredAfterMark,
        after.numbers(),
    )?;
    let flushes = open_hints(alloc, analysis, trace, frames, paths)?;
    Ok(EarlyHints {
        words,
        marks,
        flushes,
    })
}

// The other hints of the trace of these safe places, if its events wait for so many fences, and this comes next after each, if that is
// known.
pub(crate) fn late_hints(
    alloc: Global,
    safe: &SafePlaces<'_>,
    waited: &[u64],
    frames: &[Option<u64>],
    upcoming: &Option<Upcoming>,
) -> Result<LateHints, OutOfMemory>
    requires waited { AreWaited safe.now.trace.now waited.now }
    requires upcoming { IfSome upcoming.now (IsUpcoming safe.now.trace.now) }
    ensures { IfOk result (AreLate safe.now.trace.now frames.now) }
{
    let trace = safe.trace();
    let after = stored_after_flush(alloc, safe, waited, upcoming)?;
    let kind = HintKind::StoredAfterFlush;
    let stores = hints_of(alloc, trace, frames, kind, after.numbers())?;
    let short = one_line_short(alloc, safe, waited, frames)?;
    let kind = HintKind::OneLineShort;
    let runs = hints_of(alloc, trace, frames, kind, short.numbers())?;
    Ok(LateHints { stores, runs })
}

// Both in the order in which they are told: first those of stores, and then those of flushes.
pub(crate) fn hints_in_order(
    alloc: Global,
    early: &EarlyHints,
    late: &LateHints,
) -> Result<Vec<Hint>, OutOfMemory>
    ensures { IfOk result (λ hints. hints.items ≡ ((early.now.words.items ++ late.now.stores.items) ++ early.now.marks.items) ++ (late.now.runs.items ++ early.now.flushes.items)) }
{
    let mut hints = joined(alloc, early.words.as_slice(), late.stores.as_slice())?;
    hints.extend_from_slice(early.marks.as_slice())?;
    let more = joined(alloc, late.runs.as_slice(), early.flushes.as_slice())?;
    hints.extend_from_slice(more.as_slice())?;
    Ok(hints)
}

// These hints, and then those.
fn joined(alloc: Global, these: &[Hint], those: &[Hint]) -> Result<Vec<Hint>, OutOfMemory>
    ensures { IfOk result (λ hints. hints.items ≡ these.now ++ those.now) }
{
    let mut hints = Vec::new(alloc);
    hints.extend_from_slice(these)?;
    hints.extend_from_slice(those)?;
    Ok(hints)
}

// Those of flushes that are open at a store: first those of places, and then those of paths.
fn open_hints(
    alloc: Global,
    analysis: &Analysis,
    trace: &Trace,
    frames: &[Option<u64>],
    paths: &[Option<u64>],
) -> Result<Vec<Hint>, OutOfMemory>
    requires { trace.now ≡ analysis.now.trace }
    ensures { IfOk result (λ hints. AreOpenHints trace.now frames.now paths.now hints.items) }
{
    let kept = analysis.selection();
    let verdicts = analysis.verdicts();
    let kind = HintKind::OpenAtStore;
    let unfenced = told_open(alloc, trace, kept, verdicts, frames)?;
    let mut hints = hints_of(alloc, trace, frames, kind, unfenced.numbers())?;
    let partly = told_on_paths(alloc, trace, kept, verdicts, frames, paths)?;
    let more = path_hints_of(alloc, trace, frames, paths, kind, partly.numbers())?;
    hints.extend_from_slice(more.as_slice())?;
    Ok(hints)
}
