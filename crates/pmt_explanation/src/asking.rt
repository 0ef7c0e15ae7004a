//! The findings that are asked for.
ghost use Rattle.std.specs.Prelude.{◌≡◌, IfOk};
ghost use Rattle.pmt_explanation.specs.Explaining.{asked_dropped, asked_numbers as numbers_asked, asked_hints as hints_asked, asked_pairs as pairs_asked, asked_unwritten, is_pair_asked as pair_asked, asked_items};
ghost use Rattle.pmt_asked.specs.Choosing.{is_asked_for as asked_for};
ghost use Rattle.pmt_asked.specs.declared.choosing.Kind.TheVariants.{Late};

use pmt_asked::{Choice, Kind, Labels, is_asked_for};
use pmt_causes::{Keyed, LateSpot};
use pmt_explain::{Dropped, Overwriting};
use pmt_failures::Unwritten;
use pmt_hints::Hint;
use pmt_model::{OutOfMemory, Trace};
use std::alloc::Global;

// Those of the events whose finding of this kind is asked for, in the same order.
pub(crate) fn asked_numbers(
    alloc: Global,
    trace: &Trace,
    labels: &Labels,
    choice: &Choice,
    kind: Kind,
    numbers: &[u64],
) -> Result<Vec<u64>, OutOfMemory>
    ensures { IfOk result (λ asked. asked.items ≡ numbers_asked trace.now labels.now choice.now kind numbers.now) }
{
    numbers
        .iter()
        .copied()
        .filter(|number| is_asked_for(trace, labels, choice, kind, *number))
        .collect(alloc)
}

// Those of the dropped events that are asked for, in the same order.
pub(crate) fn asked_drops(
    alloc: Global,
    trace: &Trace,
    labels: &Labels,
    choice: &Choice,
    dropped: &[Dropped],
) -> Result<Vec<Dropped>, OutOfMemory>
    ensures { IfOk result (λ asked. asked.items ≡ asked_dropped trace.now labels.now choice.now dropped.now) }
{
    dropped
        .iter()
        .copied()
        .filter(|entry| is_asked_for(trace, labels, choice, Kind::Dropped, entry.event))
        .collect(alloc)
}

// Whether the pair is asked for, by one of its stores.
fn is_pair_asked(trace: &Trace, labels: &Labels, choice: &Choice, pair: Overwriting) -> bool
    ensures { result ≡ pair_asked trace.now labels.now choice.now pair }
{
    is_asked_for(trace, labels, choice, Kind::Overwritten, pair.earlier)
        || is_asked_for(trace, labels, choice, Kind::Overwritten, pair.later)
}

// Of the pairs those are left of which one store is asked for.
pub(crate) fn keep_asked_pairs(
    trace: &Trace,
    labels: &Labels,
    choice: &Choice,
    pairs: &mut Vec<Overwriting>,
)
    ensures { pairs.new.items ≡ pairs_asked trace.now labels.now choice.now pairs.old.items }
{
    pairs.retain(|pair| is_pair_asked(trace, labels, choice, *pair));
}

// Those of the assertions that are asked for, in the same order.
pub(crate) fn asked_unwrittens(
    alloc: Global,
    trace: &Trace,
    labels: &Labels,
    choice: &Choice,
    found: &[Unwritten],
) -> Result<Vec<Unwritten>, OutOfMemory>
    ensures { IfOk result (λ asked. asked.items ≡ asked_unwritten trace.now labels.now choice.now found.now) }
{
    found
        .iter()
        .copied()
        .filter(|entry| is_asked_for(trace, labels, choice, Kind::Unwritten, entry.event))
        .collect(alloc)
}

// Those of the hints that are asked for by their first event, in the same order.
pub(crate) fn asked_hints(
    alloc: Global,
    trace: &Trace,
    labels: &Labels,
    choice: &Choice,
    hints: &[Hint],
) -> Result<Vec<Hint>, OutOfMemory>
    ensures { IfOk result (λ asked. asked.items ≡ hints_asked trace.now labels.now choice.now hints.now) }
{
    hints
        .iter()
        .copied()
        .filter(|hint| is_asked_for(trace, labels, choice, Kind::Hint, hint.first))
        .collect(alloc)
}

// Of the late stores those are left that are asked for.
pub(crate) fn keep_asked(
    trace: &Trace,
    labels: &Labels,
    choice: &Choice,
    items: &mut Vec<Keyed<LateSpot>>,
)
    ensures { items.new.items ≡ asked_items (asked_for trace.now labels.now choice.now Late) items.old.items }
{
    items.retain(|item| is_asked_for(trace, labels, choice, Kind::Late, item.number));
}
