//! Stores that come after a mark from the same place, by the next fence of their thread: a crash can keep the mark and lose them.

ghost use Rattle.std.specs.Prelude.{◌≡◌, ◌<◌, ℕ, length, IfOk, OnOk};
ghost use Rattle.std.specs.List.{list_any};
ghost use Rattle.pmt_model.specs.Analyses.{IsVerdicts};
ghost use Rattle.pmt_hints.specs.Hints.{AreThose, IsNamed, IsStoredAfterMark, AreFlags};
ghost use Rattle.pmt_hints.specs.Numbers.{IsAfterMark, after_mark, mark_by, mark_elsewhere, noted_by, storer_at};
ghost use Rattle.pmt_hints.specs.declared.named.Role.TheVariants.{Second};

use crate::named::{Role, named_stores};
use crate::numbers::{push_if, selection_of, unflagged};
use crate::per_thread::PerThread;
use pmt_causes::{Origin, origin_of};
use pmt_model::{Op, OutOfMemory, Selection, Trace, Verdict};
use std::alloc::Global;
use std::collections::HashMap;

/// A thread that stores from a place.
#[derive(Clone, Copy, PartialEq, Eq, Hash)]
pub(crate) struct Storer {
    pub(crate) thread: u8,
    pub(crate) place: Origin,
}

/// The last mark, its address, and the last mark at another address.
#[derive(Clone, Copy)]
pub(crate) struct LastMarks {
    pub(crate) mark: u64,
    pub(crate) addr: u64,
    pub(crate) other: u64,
}

/// The last marks of each thread from each place.
pub(crate) type MarksFrom = HashMap<Storer, LastMarks>;

/// The stores that come after a mark of their thread, from the same place and to another address, with no fence of the thread between
/// them. A mark is the last store to a byte of the second range of an isOrderedBefore that passes; such a store is no mark, and in no first
/// range. `labels` are the numbers of the labels of the events, in order; an event past their end has none. A place is a label, or
/// without one a thread. `verdicts` are those of the trace.
///
/// If such an order passes, it takes two looks at each event, and a look-up at each mark, at each store with a mark of its thread since
/// the last fence, and at each 64 bytes that such an order names; if a store comes after a mark, one look more at each event.
///
/// # Errors
/// Where memory was refused.
pub fn stored_after_mark(
    alloc: Global,
    trace: &Trace,
    verdicts: &[Verdict],
    labels: &[Option<u64>],
) -> Result<Selection, OutOfMemory>
    requires { IsVerdicts trace.now verdicts.now }
    ensures { IfOk result (AreThose (IsStoredAfterMark trace.now labels.now)) }
{
    let marks = named_stores(alloc, trace, verdicts, Role::Second)?;
    if !has_mark(marks.as_slice()) {
        return Ok(selection_of(Vec::new(alloc)));
    }
    let numbers = numbers_after(alloc, trace, labels, marks.as_slice())?;
    if numbers.is_empty() {
        return Ok(selection_of(numbers));
    }
    let firsts = named_stores(alloc, trace, verdicts, Role::First)?;
    let others = unflagged(alloc, numbers.as_slice(), firsts.as_slice())?;
    Ok(selection_of(others))
}

// Whether some event is a mark.
fn has_mark(marks: &[bool]) -> bool
    ensures { result ≡ list_any (λ is_mark. is_mark) marks.now }
{
    marks.iter().any(|is_mark| *is_mark)
}

// The numbers of the stores that come after a mark, in a first range or not, where these flags tell of each event whether it is a mark.
fn numbers_after(
    alloc: Global,
    trace: &Trace,
    labels: &[Option<u64>],
    marks: &[bool],
) -> Result<Vec<u64>, OutOfMemory>
    requires { AreFlags (IsNamed trace.now Second) (length trace.now.events) marks.now }
    ensures { IfOk result (λ numbers. AreThose (IsAfterMark trace.now labels.now) numbers.items) }
{
    let format = trace.format();
    let events = trace.events();
    let mut fences = PerThread::new(0);
    let mut recent = PerThread::new(0);
    let mut last = HashMap::new(alloc);
    let mut numbers = Vec::new(alloc);
    for index in 0..events.len() {
        let event = events[index];
        let number = index as u64 + 1;
        let is_mark = marks[index];
        let is_told = is_after_mark(
            &fences,
            &recent,
            &last,
            labels,
            is_mark,
            number,
            event.thread,
            event.op,
        );
        push_if(&mut numbers, is_told, number)?;
        fences.note_fence(format, event.thread, event.op, number);
        recent.set_if(is_mark, event.thread, number);
        note_mark(&mut last, labels, is_mark, number, event.thread, event.op)?;
    }
    Ok(numbers)
}

// Whether the op is a store and no mark, after a mark that is not fenced yet. The last marks of the thread from each place are looked up
// only where one of its marks is so.
fn is_after_mark(
    fences: &PerThread,
    recent: &PerThread,
    marks: &MarksFrom,
    labels: &[Option<u64>],
    is_mark: bool,
    number: u64,
    thread: u8,
    op: Op,
) -> bool
    ensures value { result ≡ after_mark fences.now recent.now marks.now is_mark (storer_at labels.now number thread) op }
    ensures small { thread < 256 }
{
    match op {
        Op::Store(store) => {
            let fence = fences.get(thread);
            if is_mark || recent.get(thread) <= fence {
                return false;
            }
            let storer = storer_of(labels, number, thread);
            fence < last_elsewhere(marks, storer, store.addr().get())
        }
        Op::Clwb(_)
        | Op::ClflushOpt(_)
        | Op::Clflush(_)
        | Op::Sfence
        | Op::Mfence
        | Op::IsPersist(_)
        | Op::IsOrderedBefore(_, _) => false,
    }
}

// The thread, with the place of the event with this number.
fn storer_of(labels: &[Option<u64>], number: u64, thread: u8) -> Storer
    ensures { result ≡ storer_at labels.now number thread }
{
    let place = origin_of(labels, number, thread);
    Storer { thread, place }
}

// The last mark from there at another address, or 0 where there is none.
fn last_elsewhere(marks: &MarksFrom, storer: Storer, addr: u64) -> u64
    ensures { result ≡ mark_elsewhere marks.now storer addr }
{
    match marks.get(&storer) {
        None => 0,
        Some(last) => {
            if last.addr == addr {
                last.other
            } else {
                last.mark
            }
        }
    }
}

// Notes the op with this number, if it is a mark.
fn note_mark(
    marks: &mut MarksFrom,
    labels: &[Option<u64>],
    is_mark: bool,
    number: u64,
    thread: u8,
    op: Op,
) -> Result<(), OutOfMemory>
    ensures { OnOk result ((s : _) (addr : ℕ) → mark_elsewhere marks.new s addr ≡ noted_by is_mark (storer_at labels.now number thread) op number s addr (mark_elsewhere marks.old s addr)) }
{
    if !is_mark {
        return Ok(());
    }
    let storer = storer_of(labels, number, thread);
    match op {
        Op::Store(store) => add_mark(marks, storer, store.addr().get(), number),
        Op::Clwb(_)
        | Op::ClflushOpt(_)
        | Op::Clflush(_)
        | Op::Sfence
        | Op::Mfence
        | Op::IsPersist(_)
        | Op::IsOrderedBefore(_, _) => Ok(()),
    }
}

// Notes a mark with this number at the address.
fn add_mark(
    marks: &mut MarksFrom,
    storer: Storer,
    addr: u64,
    number: u64,
) -> Result<(), OutOfMemory>
    ensures { OnOk result ((s : _) (a : ℕ) → mark_elsewhere marks.new s a ≡ mark_by storer addr number s a (mark_elsewhere marks.old s a)) }
{
    let other = last_elsewhere(marks, storer, addr);
    marks.insert(
        storer,
        LastMarks {
            mark: number,
            addr,
            other,
        },
    )?;
    Ok(())
}
