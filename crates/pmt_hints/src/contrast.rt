//! How often a place that stores to an address while a flush is open does so with nothing open.

ghost use Rattle.std.specs.Prelude.{◌≡◌, ◌-◌, ◌<◌, true, Some, map, option_map, slice_index_or, IfOk, OnOk};
ghost use Rattle.pmt_model.specs.Traces.{act_of, event};
ghost use Rattle.pmt_hints.specs.Contrasts.{AreContrasts, AreNextStores, IsSmall, as_asked, asked_at, contrast_at, contrast_by, count_at, is_asked, is_spot, more, next_by, nothing, op_spot as spot_of_op, spot_in, spot_of as spot_at};
ghost use Rattle.pmt_hints.specs.declared.contrast.Contrast.{Contrast};

use crate::hint::{Hint, HintKind};
use crate::next_stores::NextStores;
use crate::per_thread::PerThread;
use crate::waiting::{is_clear, note_open};
use pmt_causes::{Origin, origin_of};
use pmt_model::{Format, Op, OutOfMemory, Trace, line_of};
use std::alloc::Global;
use std::collections::HashMap;

/// How many stores of a trace are to one address from one place.
#[derive(Clone, Copy)]
pub struct Contrast {
    /// Those with nothing open: their thread has made no clwb or clflushopt since its last fence.
    pub clear: u64,
    /// All of them.
    pub all: u64,
}

/// What a store is to, and whence it comes.
#[derive(Clone, Copy, PartialEq, Eq, Hash)]
pub(crate) struct Spot {
    pub(crate) address: u64,
    pub(crate) place: Origin,
}

// By spot; nothing of one that was not asked for.
type Counts = HashMap<Spot, Contrast>;

/// A contrast for each of these hints, in order, where events have these labels: of flushes that are open at a store, how many stores are
/// to the address that the thread of the first flush stores to next, in another line, from the place of that store; of any other hint 0
/// and 0.
///
/// It takes two looks at each event, and a look-up at each store and each hint.
///
/// # Errors
/// Where memory was refused.
pub fn contrasts_of(
    alloc: Global,
    trace: &Trace,
    labels: &[Option<u64>],
    hints: &[Hint],
) -> Result<Vec<Contrast>, OutOfMemory>
    ensures { IfOk result (λ contrasts. AreContrasts trace.now labels.now hints.now contrasts.items) }
{
    let nexts = next_stores(alloc, trace)?;
    let counts = counts_of(alloc, trace, labels, nexts.as_slice(), hints)?;
    let contrasts = contrasts_by(alloc, trace, labels, nexts.as_slice(), hints, &counts)?;
    Ok(contrasts)
}

// A contrast for each of these hints.
fn contrasts_by(
    alloc: Global,
    trace: &Trace,
    labels: &[Option<u64>],
    nexts: &[u64],
    hints: &[Hint],
    counts: &Counts,
) -> Result<Vec<Contrast>, OutOfMemory>
    ensures { IfOk result (λ contrasts. contrasts.items ≡ map (contrast_by trace.now labels.now nexts.now counts.now) hints.now) }
{
    hints
        .iter()
        .map(|hint| contrast_of(trace, labels, nexts, counts, hint))
        .collect(alloc)
}

// The contrast of the hint.
fn contrast_of(
    trace: &Trace,
    labels: &[Option<u64>],
    nexts: &[u64],
    counts: &Counts,
    hint: &Hint,
) -> Contrast
    ensures { result ≡ contrast_by trace.now labels.now nexts.now counts.now hint.now }
{
    match spot_of(trace, labels, nexts, hint) {
        None => none(),
        Some(spot) => counts.get(&spot).copied().unwrap_or(none()),
    }
}

// No store.
fn none() -> Contrast
    ensures { result ≡ nothing }
{
    Contrast { clear: 0, all: 0 }
}

// Of each flush the next store of its thread to another line, or the number past the end.
fn next_stores(alloc: Global, trace: &Trace) -> Result<Vec<u64>, OutOfMemory>
    ensures { IfOk result (λ nexts. AreNextStores trace.now nexts.items) }
{
    let format = trace.format();
    let events = trace.events();
    let past = events.len() as u64 + 1;
    let mut stores = NextStores::new(past);
    let mut nexts = vec![in alloc; past; events.len()]?;
    for index in (0..events.len()).rev() {
        let event = events[index];
        let next = next_of(&stores, format, event.thread, event.op);
        nexts[index] = next;
        stores.note(format, event.thread, event.op, index as u64 + 1);
    }
    Ok(nexts)
}

// If the op is a flush, the next store to another line; else 0.
fn next_of(stores: &NextStores, format: Format, thread: u8, op: Op) -> u64
    ensures value { result ≡ next_by stores.now (act_of format thread op) }
    ensures small { thread < 256 }
{
    match op {
        Op::Clwb(addr) | Op::ClflushOpt(addr) => stores.elsewhere(thread, line_of(format, addr)),
        Op::Store(_)
        | Op::Clflush(_)
        | Op::Sfence
        | Op::Mfence
        | Op::IsPersist(_)
        | Op::IsOrderedBefore(_, _) => 0,
    }
}

// The spot of what is stored while the first flush of the hint is open, if it is a hint of such flushes.
fn spot_of(trace: &Trace, labels: &[Option<u64>], nexts: &[u64], hint: &Hint) -> Option<Spot>
    ensures { result ≡ spot_in trace.now labels.now nexts.now hint.now }
{
    match hint.kind {
        HintKind::OpenAtStore => event_spot(trace, labels, next_at(nexts, hint.first)),
        HintKind::StoredAfterFlush
        | HintKind::SplitWord
        | HintKind::OneLineShort
        | HintKind::StoredAfterMark => None,
    }
}

// That of the event with this number.
fn next_at(nexts: &[u64], number: u64) -> u64
    ensures { result ≡ slice_index_or nexts.now (number - 1) 0 }
{
    let index = number.saturating_sub(1) as usize;
    match nexts.get(index) {
        Some(next) => *next,
        None => 0,
    }
}

// The spot of the event, if it is a store.
fn event_spot(trace: &Trace, labels: &[Option<u64>], number: u64) -> Option<Spot>
    ensures { result ≡ spot_at labels.now number (event trace.now number) }
{
    let Some(event) = trace.get(number) else {
        return None;
    };
    op_spot(labels, number, event.thread, event.op)
}

// The spot of the op with this number, if it is a store.
fn op_spot(labels: &[Option<u64>], number: u64, thread: u8, op: Op) -> Option<Spot>
    ensures { result ≡ spot_of_op labels.now number thread op }
{
    match op {
        Op::Store(store) => Some(Spot {
            address: store.addr().get(),
            place: origin_of(labels, number, thread),
        }),
        Op::Clwb(_)
        | Op::ClflushOpt(_)
        | Op::Clflush(_)
        | Op::Sfence
        | Op::Mfence
        | Op::IsPersist(_)
        | Op::IsOrderedBefore(_, _) => None,
    }
}

// How many stores are of each spot that these hints ask for.
fn counts_of(
    alloc: Global,
    trace: &Trace,
    labels: &[Option<u64>],
    nexts: &[u64],
    hints: &[Hint],
) -> Result<Counts, OutOfMemory>
    ensures { IfOk result (λ counts. (s : _) → count_at counts s ≡ as_asked (is_asked trace.now labels.now nexts.now hints.now s) (contrast_at trace.now labels.now s)) }
{
    let mut counts = asked_counts(alloc, trace, labels, nexts, hints)?;
    let format = trace.format();
    let events = trace.events();
    let mut waiting = PerThread::new(0);
    for index in 0..events.len() {
        let event = events[index];
        let number = index as u64 + 1;
        let is_clear = is_clear(&waiting, event.thread);
        let spot = op_spot(labels, number, event.thread, event.op);
        count(&mut counts, spot, is_clear)?;
        note_open(&mut waiting, format, event.thread, event.op);
    }
    Ok(counts)
}

// The spots that these hints ask for, without a store.
fn asked_counts(
    alloc: Global,
    trace: &Trace,
    labels: &[Option<u64>],
    nexts: &[u64],
    hints: &[Hint],
) -> Result<Counts, OutOfMemory>
    ensures { IfOk result (λ counts. (s : _) → count_at counts s ≡ as_asked (is_asked trace.now labels.now nexts.now hints.now s) nothing) }
{
    let mut counts = HashMap::new(alloc);
    for hint in hints {
        ask(&mut counts, spot_of(trace, labels, nexts, hint))?;
    }
    Ok(counts)
}

// Asks for the spot, if there is one.
fn ask(counts: &mut Counts, spot: Option<Spot>) -> Result<(), OutOfMemory>
    ensures { OnOk result ((s : _) → count_at counts.new s ≡ asked_at (is_spot s spot) (count_at counts.old s)) }
{
    match spot {
        None => Ok(()),
        Some(spot) => {
            counts.insert(spot, none())?;
            Ok(())
        }
    }
}

// Counts a store of the spot, if there is one and it is asked for.
fn count(counts: &mut Counts, spot: Option<Spot>, is_clear: bool) -> Result<(), OutOfMemory>
    requires { (s : _) (c : Contrast) → count_at counts.old s ≡ Some c → IsSmall c }
    ensures { OnOk result ((s : _) → count_at counts.new s ≡ option_map (more (is_spot s spot) is_clear) (count_at counts.old s)) }
{
    let Some(spot) = spot else {
        return Ok(());
    };
    if let Some(contrast) = counts.get(&spot).copied() {
        counts.insert(spot, one_more(contrast, is_clear))?;
    }
    Ok(())
}

// One store more.
fn one_more(contrast: Contrast, is_clear: bool) -> Contrast
    requires { IsSmall contrast }
    ensures { result ≡ more true is_clear contrast }
{
    Contrast {
        clear: contrast.clear + is_clear as u64,
        all: contrast.all + 1,
    }
}
