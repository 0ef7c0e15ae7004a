//! What comes next after each event.

ghost use Rattle.std.specs.Prelude.{◌≡◌, ◌-◌, ◌<◌, ℕ, slice_index, IfOk, IfSome, OnOk};
ghost use Rattle.pmt_model.specs.Traces.{act_of};
ghost use Rattle.pmt_explain.specs.Numbers.{number_at};
ghost use Rattle.pmt_explain.specs.Following.{AreNextFlushes, AreOwnFences, IsUpcoming, fence_by, fence_of, next_before, next_in};

use crate::numbers::Numbers;
use pmt_model::{Format, Op, OutOfMemory, Trace, line_of};
use std::alloc::Global;

/// What comes next after each event of a trace.
#[derive(Drop)]
pub struct Upcoming {
    /// The next fences, as `fences_by` gives them.
    pub fences: Vec<u64>,
    /// The next flushes, as `next_flushes` gives them.
    pub flushes: Vec<u64>,
}

/// What comes next after each event of the trace.
///
/// It takes two looks at each event, and a look-up at each store and flush.
///
/// # Errors
/// Where memory was refused.
pub fn upcoming_of(alloc: Global, trace: &Trace) -> Result<Upcoming, OutOfMemory>
    ensures { IfOk result (IsUpcoming trace.now) }
{
    let fences = own_fences(alloc, trace)?;
    let flushes = next_flushes(alloc, trace)?;
    Ok(Upcoming { fences, flushes })
}

// Of each event, in order, the next fence of its thread.
fn own_fences(alloc: Global, trace: &Trace) -> Result<Vec<u64>, OutOfMemory>
    ensures { IfOk result (λ fences. AreOwnFences trace.now fences.items) }
{
    let events = trace.events();
    let past = events.len() as u64 + 1;
    let mut next = NextFences::new(past);
    let mut fences = vec![in alloc; past; events.len()]?;
    for index in (0..events.len()).rev() {
        let event = events[index];
        let fence = next.get(event.thread);
        fences[index] = fence;
        next.note(event.thread, event.op, index as u64 + 1);
    }
    Ok(fences)
}

/// Of each event, in order, the next fence of its thread; one more than the last number where there is none. `upcoming` is what comes next
/// after each event, if that is known: then they are copied, and else it takes one look at each event.
///
/// # Errors
/// Where memory was refused.
pub fn fences_by(
    alloc: Global,
    trace: &Trace,
    upcoming: &Option<Upcoming>,
) -> Result<Vec<u64>, OutOfMemory>
    requires { IfSome upcoming.now (IsUpcoming trace.now) }
    ensures { IfOk result (λ fences. AreOwnFences trace.now fences.items) }
{
    let Some(upcoming) = upcoming else {
        return own_fences(alloc, trace);
    };
    let mut fences = Vec::new(alloc);
    fences.extend_from_slice(upcoming.fences.as_slice())?;
    Ok(fences)
}

/// Of each event that is a store or a flush, in order, the next clwb, clflushopt or clflush of its line, whichever thread makes it; one
/// more than the last number where there is none. Of another event any number.
///
/// It takes one look at each event, and a look-up at each store and flush.
///
/// # Errors
/// Where memory was refused.
pub fn next_flushes(alloc: Global, trace: &Trace) -> Result<Vec<u64>, OutOfMemory>
    ensures { IfOk result (λ list. AreNextFlushes trace.now list.items) }
{
    let format = trace.format();
    let events = trace.events();
    let past = events.len() as u64 + 1;
    let mut next = Numbers::new(alloc);
    let mut list = vec![in alloc; past; events.len()]?;
    for index in (0..events.len()).rev() {
        let event = events[index];
        let flush = next_flush(&mut next, format, event.op, index as u64 + 1, past)?;
        list[index] = flush;
    }
    Ok(list)
}

/// The number that a list of all events has of this one; 0 of no event.
pub fn number_of(list: &[u64], event: u64) -> u64
    ensures { result ≡ slice_index list.now (event - 1) }
{
    match list.get(event.saturating_sub(1) as usize) {
        Some(number) => *number,
        None => 0,
    }
}

// Goes back over the op with this number: the next flush of its line, if it is a store or a flush; `past` where there is none.
#[inline(always)]
fn next_flush(
    next: &mut Numbers,
    format: Format,
    op: Op,
    number: u64,
    past: u64,
) -> Result<u64, OutOfMemory>
    ensures told { IfOk result (λ flush. (t : ℕ) → flush ≡ next_in past next.old (act_of format t op)) }
    ensures noted { OnOk result ((t l : ℕ) → number_at past next.new l ≡ next_before (act_of format t op) number l (number_at past next.old l)) }
{
    match op {
        Op::Store(store) => Ok(next.get(line_of(format, store.addr())).unwrap_or(past)),
        Op::Clwb(addr) | Op::ClflushOpt(addr) | Op::Clflush(addr) => {
            next.replace(line_of(format, addr), past, number)
        }
        Op::Sfence | Op::Mfence | Op::IsPersist(_) | Op::IsOrderedBefore(_, _) => Ok(past),
    }
}

/// The next fence of each of the 256 threads, as events are read from the last to the first.
#[derive(Drop)]
pub(crate) struct NextFences {
    numbers: [u64; 256],
}

impl NextFences {
    // The same for all.
    fn new(number: u64) -> Self
        ensures { (t : ℕ) → t < 256 → fence_of result t ≡ number }
    {
        NextFences {
            numbers: [number; 256],
        }
    }

    // That of the thread.
    #[inline(always)]
    fn get(&self, thread: u8) -> u64
        ensures value { result ≡ fence_of self.now thread }
        ensures small { thread < 256 }
    {
        self.numbers[thread as usize]
    }

    // Goes back over the op of the thread with this number.
    #[inline(always)]
    fn note(&mut self, thread: u8, op: Op, number: u64)
        ensures { (t : ℕ) → t < 256 → fence_of self.new t ≡ fence_by op thread number t (fence_of self.old t) }
    {
        match op {
            Op::Sfence | Op::Mfence => self.numbers[thread as usize] = number,
            Op::Store(_)
            | Op::Clwb(_)
            | Op::ClflushOpt(_)
            | Op::Clflush(_)
            | Op::IsPersist(_)
            | Op::IsOrderedBefore(_, _) => {}
        }
    }
}
