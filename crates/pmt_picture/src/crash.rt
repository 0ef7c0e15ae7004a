//! The crash that is drawn.
use crate::known::KnownTrace;
use crate::ops::line_of_op;
use pmt_explain::{LostGroup, cause, failure, lost_in_range};
use pmt_model::{Op, OutOfMemory, Trace};
use pmt_reasons::{ByteStore, Cause, Failure};
use std::alloc::Global;

/// An assertion.
#[derive(Clone, Copy)]
pub struct Assertion {
    /// Its number.
    pub number: u64,
    /// Whether it is an isOrderedBefore.
    pub ordered: bool,
}

/// A crash that violates an assertion, or one at the trace's end that loses stores for good.
#[derive(Drop)]
pub struct DrawnCrash {
    /// The assertion; none of a crash at the end.
    pub assertion: Option<Assertion>,
    /// Where the crash comes, and what it keeps and loses first.
    pub failure: Failure,
    /// Why that lost store is not safe there.
    pub cause: Option<Cause>,
    /// The stores that it loses: of a failure the last ones to bytes of the range, or of the first one; at the end those to the line. By
    /// rising number, each once.
    pub lost: Vec<u64>,
}

/// The crash that violates the assertion with this number. None where it passes, or the event is no assertion.
///
/// # Errors
/// Where memory was refused.
pub(crate) fn crash_of(
    alloc: Global,
    trace: &Trace,
    number: u64,
) -> Result<Option<DrawnCrash>, OutOfMemory> {
    let Some(failure) = failure(alloc, trace, number)? else {
        return Ok(None);
    };
    let Some(event) = trace.get(number) else {
        return Ok(None);
    };
    let op = event.op;
    let (ordered, range) = match op {
        Op::IsPersist(range) => (false, range),
        Op::IsOrderedBefore(first, _) => (true, first),
        Op::Store(_) | Op::Clwb(_) | Op::ClflushOpt(_) | Op::Clflush(_) | Op::Sfence | Op::Mfence =>
            return Ok(None),
    };
    Ok(Some(DrawnCrash {
        assertion: Some(Assertion { number, ordered }),
        failure,
        cause: cause(trace, failure.lost.store, failure.place),
        lost: lost_in_range(alloc, trace, &failure, range, number)?,
    }))
}

/// The crash at the trace's end that loses the stores of the group.
///
/// # Errors
/// Where memory was refused.
pub(crate) fn crash_at_end(
    alloc: Global,
    known: KnownTrace<'_>,
    group: LostGroup,
) -> Result<DrawnCrash, OutOfMemory> {
    let format = known.trace.format();
    let mut lost = Vec::new(alloc);
    for number in known.never {
        if let Some(event) = known.trace.get(*number) {
            if line_of_op(format, event.op) == Some(group.line) {
                lost.push(*number)?;
            }
        }
    }
    Ok(DrawnCrash {
        assertion: None,
        failure: Failure {
            place: known.trace.len() as u64,
            kept: None,
            lost: ByteStore {
                store: group.first,
                byte: address_of_store(known.trace, group.first),
            },
        },
        cause: Some(group.cause),
        lost,
    })
}

// The first byte of the store with this number; 0 where the event is none.
fn address_of_store(trace: &Trace, number: u64) -> u64 {
    let Some(event) = trace.get(number) else {
        return 0;
    };
    let op = event.op;
    match op {
        Op::Store(written) => written.addr().get(),
        _ => 0,
    }
}
