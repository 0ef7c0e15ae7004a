//! The slice of an assertion, by one look back at each event before it.

ghost use Rattle.std.specs.Prelude.{◌≡◌, ℕ, suc, ◌≤◌, Bool, List, Some, length, IfOk, OnOk, MatchOption};
ghost use Rattle.pmt_laws.specs.Prelude.{Event, IsPersist, IsOrderedBefore, IsFormat, Span, Stores, Recording, IsAct, act_of, event as event_at};
ghost use Rattle.pmt_slices.specs.Slices.{IsAssertion, IsSlice, HasChosen, IsGoneBack};

use crate::choosing::{choose_store, only};
use crate::scan::Scan;
use crate::unwritten::Unwritten;
use pmt_model::{Format, Op, OutOfMemory, Range, Selection, Trace, WordStore, line_of};
use pmt_tables::marked_numbers;
use std::alloc::Global;

/// The slice of the assertion with this number: the rising numbers of the assertion, of the last stores to the bytes of its ranges, and of
/// what tells whether and why each of these stores is safe up to there. None where the event is no assertion, or there is none.
///
/// It takes one look at each event up to the assertion, or two if the assertion has two ranges.
///
/// # Errors
/// Where memory was refused.
pub fn slice_of(alloc: Global, trace: &Trace, number: u64) -> Result<Option<Selection>, OutOfMemory>
    ensures { IfOk result (λ o. MatchOption o (¬ IsAssertion trace.now number) (λ numbers. IsAssertion trace.now number × IsSlice trace.now number numbers)) }
{
    let Some(event) = trace.get(number) else {
        return Ok(None);
    };
    let op = event.op;
    match op {
        Op::IsPersist(range) => Ok(Some(persist_slice(alloc, trace, number, range)?)),
        Op::IsOrderedBefore(first, second) => {
            Ok(Some(ordered_slice(alloc, trace, number, first, second)?))
        }
        Op::Store(_) | Op::Clwb(_) | Op::ClflushOpt(_) | Op::Clflush(_) | Op::Sfence | Op::Mfence =>
            Ok(None),
    }
}

// The slice of the isPersist of the range at the event with this number.
fn persist_slice(
    alloc: Global,
    trace: &Trace,
    number: u64,
    range: Range,
) -> Result<Selection, OutOfMemory>
    requires { (e : Event) × (event_at trace.now number ≡ Some e) × (e.op ≡ IsPersist range) }
    ensures { IfOk result (IsSlice trace.now number) }
{
    let mut chosen = only(alloc, number)?;
    choose_for_range(alloc, trace, number, range, chosen.as_mut_slice())?;
    let numbers = marked_numbers(alloc, chosen.as_slice())?;
    Ok(numbers)
}

// The slice of the isOrderedBefore of the two ranges at the event with this number.
fn ordered_slice(
    alloc: Global,
    trace: &Trace,
    number: u64,
    first: Range,
    second: Range,
) -> Result<Selection, OutOfMemory>
    requires { (e : Event) × (event_at trace.now number ≡ Some e) × (e.op ≡ IsOrderedBefore first second) }
    ensures { IfOk result (IsSlice trace.now number) }
{
    let mut chosen = only(alloc, number)?;
    choose_for_range(alloc, trace, number, first, chosen.as_mut_slice())?;
    choose_for_range(alloc, trace, number, second, chosen.as_mut_slice())?;
    let numbers = marked_numbers(alloc, chosen.as_slice())?;
    Ok(numbers)
}

// Chooses the last stores to bytes of the range, among the first `number` events, and what tells of them.
fn choose_for_range(
    alloc: Global,
    trace: &Trace,
    number: u64,
    range: Range,
    chosen: &mut [bool],
) -> Result<(), OutOfMemory>
    requires number { number ≤ length trace.now.events }
    requires size { length chosen.old ≡ number }
    ensures size { length chosen.new ≡ number }
    ensures chosen { OnOk result (HasChosen trace.now range 0 number chosen.old chosen.new) }
{
    let mut scan = Scan::new(alloc, trace.format(), range, number + 1)?;
    let mut unwritten = Unwritten::new(alloc, range)?;
    go_back_to_start(trace, number, &mut scan, &mut unwritten, chosen);
    Ok(())
}

// Goes back over the first `number` events.
fn go_back_to_start(
    trace: &Trace,
    number: u64,
    scan: &mut Scan,
    unwritten: &mut Unwritten,
    chosen: &mut [bool],
)
    requires number { number ≤ length trace.now.events }
    ensures size { length chosen.new ≡ length chosen.old }
    ensures chosen { (A : Span) → IsGoneBack trace.now A number number chosen.old scan.old unwritten.old chosen.old → HasChosen trace.now A 0 number chosen.old chosen.new }
{
    let format = trace.format();
    let events = trace.events();
    for index in (0..number as usize).rev() {
        let event = events[index];
        let before = index as u64 + 1;
        go_back(
            scan,
            unwritten,
            chosen,
            format,
            event.thread,
            event.op,
            before,
        );
    }
}

// Goes back over the event with this number.
fn go_back(
    scan: &mut Scan,
    unwritten: &mut Unwritten,
    chosen: &mut [bool],
    format: Format,
    thread: u8,
    op: Op,
    number: u64,
)
    ensures size { length chosen.new ≡ length chosen.old }
    ensures goes { (T : Recording) (A : Span) (m n : ℕ) (before : List Bool) → IsFormat T.format → IsAct T (suc m) (act_of format thread op) → number ≡ suc m → suc m ≤ n → IsGoneBack T A (suc m) n before scan.old unwritten.old chosen.old → IsGoneBack T A m n before scan.new unwritten.new chosen.new }
{
    match op {
        Op::Store(store) => {
            let line = line_of(format, store.addr());
            over_store(scan, unwritten, chosen, line, store, number);
        }
        Op::Clwb(addr) => scan.flush(thread, line_of(format, addr), number),
        Op::ClflushOpt(addr) => scan.flush(thread, line_of(format, addr), number),
        Op::Clflush(addr) => scan.clflush(line_of(format, addr), number),
        Op::Sfence => scan.fence(thread, number),
        Op::Mfence => scan.fence(thread, number),
        Op::IsPersist(_) => {}
        Op::IsOrderedBefore(_, _) => {}
    }
}

// Goes back over the store to the line with this number.
fn over_store(
    scan: &Scan,
    unwritten: &mut Unwritten,
    chosen: &mut [bool],
    line: u64,
    store: WordStore,
    number: u64,
)
    ensures size { length chosen.new ≡ length chosen.old }
    ensures goes { (T : Recording) (A : Span) (m n : ℕ) (before : List Bool) → IsFormat T.format → IsAct T (suc m) (Stores line store) → number ≡ suc m → suc m ≤ n → IsGoneBack T A (suc m) n before scan.now unwritten.old chosen.old → IsGoneBack T A m n before scan.now unwritten.new chosen.new }
{
    if !unwritten.take(store) {
        return;
    }
    if let Some(coming) = scan.coming(line) {
        choose_store(chosen, number, coming);
    }
}
