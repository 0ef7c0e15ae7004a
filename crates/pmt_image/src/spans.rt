//! From when to when crashes can lose each store.
ghost use Rattle.std.specs.Prelude.{◌≡◌, ◌<◌, ℕ, IfOk, OnOk};
ghost use Rattle.pmt_model.specs.Traces.{act_of, event_limit};
ghost use Rattle.pmt_image.specs.Crashes.{count_in};
ghost use Rattle.pmt_image.specs.Spans.{AreSpans, span_by, stored_by};

use crate::crash::{StoresByLine, count_of, set_count};
use indexmap::IndexMap;
use pmt_explain::safe_places;
use pmt_model::{Format, Op, OutOfMemory, Trace, line_of};
use std::alloc::Global;

/// A store, from when it comes until no crash can lose it.
#[derive(Clone, Copy)]
pub(crate) struct StoreSpan {
    /// Its line.
    pub(crate) line: u64,
    /// How many stores to the line come by it, itself among them.
    pub(crate) rank: u64,
    /// The first place from which on no crash can lose it; 0 of an event that is no store.
    pub(crate) safe: u64,
}

// The span of each event, in order.
pub(crate) fn store_spans(alloc: Global, trace: &Trace) -> Result<Vec<StoreSpan>, OutOfMemory>
    ensures { IfOk result (λ spans. AreSpans trace.now spans.items) }
{
    let safe = safe_places(alloc, trace)?;
    let format = trace.format();
    let events = trace.events();
    let mut stored = IndexMap::new(alloc);
    let mut spans = Vec::with_capacity(alloc, events.len())?;
    for index in 0..events.len() {
        let event = events[index];
        let place = safe[index];
        let span = span_of(&mut stored, format, event.op, place)?;
        spans.push(span)?;
    }
    Ok(spans)
}

// The span of the op, which is safe at the place if it is a store; it counts in `stored`, which has the stores before it.
fn span_of(
    stored: &mut StoresByLine,
    format: Format,
    op: Op,
    safe: u64,
) -> Result<StoreSpan, OutOfMemory>
    requires { (l : ℕ) → count_in stored.old l < event_limit }
    ensures span { IfOk result (λ span. (t : ℕ) → span ≡ span_by (act_of format t op) (count_in stored.old) safe) }
    ensures stored { OnOk result ((t l : ℕ) → count_in stored.new l ≡ stored_by (act_of format t op) (count_in stored.old) l) }
{
    match op {
        Op::Store(store) => {
            let line = line_of(format, store.addr());
            let rank = count_of(stored, line) + 1;
            set_count(stored, line, rank)?;
            Ok(StoreSpan { line, rank, safe })
        }
        Op::Clwb(_)
        | Op::ClflushOpt(_)
        | Op::Clflush(_)
        | Op::Sfence
        | Op::Mfence
        | Op::IsPersist(_)
        | Op::IsOrderedBefore(_, _) => Ok(StoreSpan {
            line: 0,
            rank: 0,
            safe: 0,
        }),
    }
}
