//! Stores that are never persisted or overwritten, without those that are ignored.
ghost use Rattle.std.specs.Prelude.{◌≡◌, IfOk};
ghost use Rattle.pmt_explanation.specs.Explaining.{lost_store as lost_of, overwriting as overwriting_of, told_pairs, told_stores};

use pmt_asked::{Ignored, Labels, is_left_out};
use pmt_explain::Overwriting;
use pmt_model::{Finding, OutOfMemory, Trace};
use std::alloc::Global;

// The stores that are never persisted, by rising event number, without those that are ignored.
//
// # Errors
// Where memory was refused.
pub(crate) fn lost_stores(
    alloc: Global,
    trace: &Trace,
    labels: &Labels,
    ignored: &Ignored,
    findings: &[Finding],
) -> Result<Vec<u64>, OutOfMemory>
    ensures { IfOk result (λ stores. stores.items ≡ told_stores trace.now labels.now ignored.now findings.now) }
{
    findings
        .iter()
        .filter_map(|finding| lost_store(*finding))
        .filter(|store| !is_left_out(trace, labels, ignored, *store))
        .collect(alloc)
}

// The stores that are overwritten with those that overwrite them, in report order, without those whose earlier one is ignored.
//
// # Errors
// Where memory was refused.
pub(crate) fn overwritings(
    alloc: Global,
    trace: &Trace,
    labels: &Labels,
    ignored: &Ignored,
    findings: &[Finding],
) -> Result<Vec<Overwriting>, OutOfMemory>
    ensures { IfOk result (λ pairs. pairs.items ≡ told_pairs trace.now labels.now ignored.now findings.now) }
{
    findings
        .iter()
        .filter_map(|finding| overwriting(*finding))
        .filter(|pair| !is_left_out(trace, labels, ignored, pair.earlier))
        .collect(alloc)
}

// The store that the finding tells as never persisted.
pub(crate) fn lost_store(finding: Finding) -> Option<u64>
    ensures { result ≡ lost_of finding }
{
    match finding {
        Finding::NeverPersisted { event, flushed: _ } => Some(event),
        Finding::Overwritten {
            earlier: _,
            later: _,
        } => None,
        Finding::RedundantFlush { event: _ } => None,
        Finding::FenceWithoutFlush { event: _ } => None,
    }
}

// The pair of stores that the finding tells as overwritten.
pub(crate) fn overwriting(finding: Finding) -> Option<Overwriting>
    ensures { result ≡ overwriting_of finding }
{
    match finding {
        Finding::Overwritten { earlier, later } => Some(Overwriting { earlier, later }),
        Finding::NeverPersisted {
            event: _,
            flushed: _,
        } => None,
        Finding::RedundantFlush { event: _ } => None,
        Finding::FenceWithoutFlush { event: _ } => None,
    }
}
