//! The pass forward over the events of a trace, which decides what is kept.

ghost use Rattle.std.specs.Prelude.{◌≡◌, ℕ, suc, ◌+◌, ◌<◌, ◌≤◌, List, [], length, map, IfOk, OnOk};
ghost use Rattle.pmt_laws.specs.Prelude.{Stores, Flushes, Clflushes, Fences, empty, with_event, Recording, act, event_limit, Written, Event};
ghost use Rattle.pmt_trimming.specs.Passing.{AreDecidedFrom, HasJudged, IsPassOf, IsPassing, taken, Settles, AreFlags, mark_from, decision_by, flag_by, AreAtFence, ArePastFence};

use crate::marks::Marks;
use pmt_model::{Event, Format, Op, OutOfMemory, line_of};
use pmt_rows::{OpenFlush, OpenFlushes, Rows};
use std::alloc::Global;

/// What is known of an event.
#[derive(Clone, Copy)]
pub(crate) enum Mark {
    /// It is a flush whose thread has not fenced since.
    Open,
    /// It is kept.
    Kept,
    /// It is not kept.
    Dropped,
}

/// A pass forward over the events of a trace, which decides of each event whether it is kept: of a flush when its thread fences,
/// of any other event when it comes. Decisions are given out in the order of the events.
///
/// It holds the lines of the trace under way, and a byte for each event that was not given out. An event takes at most one look-up, and each flush one step more at its fence.
#[derive(Drop)]
pub(crate) struct Pass {
    format: Format,
    rows: Rows,
    waiting: OpenFlushes,
    marks: Marks,
    settled: u64,
}

impl Pass {
    /// A pass of this format, before the first event.
    ///
    /// # Errors
    /// Where memory was refused.
    pub(crate) fn new(alloc: Global, format: Format) -> Result<Self, OutOfMemory>
        ensures { IfOk result (IsPassOf (empty format)) }
    {
        Ok(Pass {
            format,
            rows: Rows::new(alloc),
            waiting: OpenFlushes::new(alloc),
            marks: Marks::new(alloc),
            settled: 0,
        })
    }

    /// Takes the next event.
    ///
    /// # Errors
    /// Where memory was refused. What the pass holds then is not told.
    #[inline(always)]
    pub(crate) fn take(&mut self, event: &Event) -> Result<(), OutOfMemory>
        requires passing { IsPassing self.old }
        requires room { taken self.old < event_limit }
        ensures follows { (T : Recording) → IsPassOf T self.old → OnOk result (IsPassOf (with_event T event.now) self.new) }
        ensures settled { self.new.settled ≡ self.old.settled }
    {
        let mark = self.judge(event)?;
        self.marks.push(mark)?;
        Ok(())
    }

    /// Takes the next event where all before it are given out, and gives it out if it is decided.
    ///
    /// # Errors
    /// Where memory was refused. What the pass holds then is not told.
    #[inline(always)]
    pub(crate) fn take_alone(&mut self, event: &Event) -> Result<Option<bool>, OutOfMemory>
        requires passing { IsPassing self.old }
        requires alone { self.old.marks.items ≡ [] }
        requires room { taken self.old < event_limit }
        ensures follows { (T : Recording) → IsPassOf T self.old → OnOk result (IsPassOf (with_event T event.now) self.new) }
        ensures settles { (T : Recording) → IsPassOf T self.old → IfOk result (λ told. Settles (with_event T event.now) self.old.settled told self.new.settled) }
    {
        let mark = self.judge(event)?;
        match decision(mark) {
            Some(kept) => {
                self.settled += 1;
                Ok(Some(kept))
            }
            None => {
                self.marks.push(mark)?;
                Ok(None)
            }
        }
    }

    // Judges the next event: its mark is still to come after those of the others.
    #[inline(always)]
    fn judge(&mut self, event: &Event) -> Result<Mark, OutOfMemory>
        requires passing { IsPassing self.old }
        requires room { taken self.old < event_limit }
        ensures follows { (T : Recording) → IsPassOf T self.old → IfOk result (λ mark. HasJudged (with_event T event.now) self.new mark) }
        ensures settled { self.new.settled ≡ self.old.settled }
        ensures size { length self.new.marks.items ≡ length self.old.marks.items }
    {
        let thread = event.thread;
        let op = event.op;
        match op {
            Op::Store(store) => self.judge_store(line_of(self.format, store.addr())),
            Op::Clwb(addr) => self.judge_flush(thread, line_of(self.format, addr)),
            Op::ClflushOpt(addr) => self.judge_flush(thread, line_of(self.format, addr)),
            Op::Clflush(addr) => self.judge_clflush(line_of(self.format, addr)),
            Op::Sfence => Ok(self.judge_fence(thread)),
            Op::Mfence => Ok(self.judge_fence(thread)),
            Op::IsPersist(_) => Ok(Mark::Kept),
            Op::IsOrderedBefore(_, _) => Ok(Mark::Kept),
        }
    }

    // The number of the next event.
    #[inline(always)]
    fn next_number(&self) -> u32
        requires { taken self.now < event_limit }
        ensures { result ≡ suc (taken self.now) }
    {
        (self.settled + self.marks.len() as u64 + 1) as u32
    }

    // A store to the line.
    #[inline(always)]
    fn judge_store(&mut self, line: u64) -> Result<Mark, OutOfMemory>
        requires passing { IsPassing self.old }
        requires room { taken self.old < event_limit }
        ensures follows { (T : Recording) (e : Event) (w : Written) → act T.format e ≡ Stores line w → IsPassOf T self.old → IfOk result (λ mark. HasJudged (with_event T e) self.new mark) }
        ensures settled { self.new.settled ≡ self.old.settled }
        ensures size { length self.new.marks.items ≡ length self.old.marks.items }
    {
        let number = self.next_number();
        let slot = self.rows.slot_of(line)?;
        self.rows.store(slot, number);
        Ok(Mark::Kept)
    }

    // A flush of the line by the thread.
    #[inline(always)]
    fn judge_flush(&mut self, thread: u8, line: u64) -> Result<Mark, OutOfMemory>
        requires passing { IsPassing self.old }
        requires room { taken self.old < event_limit }
        ensures follows { (T : Recording) (e : Event) → act T.format e ≡ Flushes thread line → IsPassOf T self.old → IfOk result (λ mark. HasJudged (with_event T e) self.new mark) }
        ensures settled { self.new.settled ≡ self.old.settled }
        ensures size { length self.new.marks.items ≡ length self.old.marks.items }
    {
        let number = self.next_number();
        let slot = self.rows.slot_of(line)?;
        let flush = OpenFlush {
            number,
            slot: slot as u32,
            store: self.rows.row(slot).last_store,
        };
        self.waiting.add(thread, flush)?;
        self.rows.flush(slot, number);
        Ok(Mark::Open)
    }

    // A clflush of the line.
    fn judge_clflush(&mut self, line: u64) -> Result<Mark, OutOfMemory>
        requires passing { IsPassing self.old }
        requires room { taken self.old < event_limit }
        ensures follows { (T : Recording) (e : Event) → act T.format e ≡ Clflushes line → IsPassOf T self.old → IfOk result (λ mark. HasJudged (with_event T e) self.new mark) }
        ensures settled { self.new.settled ≡ self.old.settled }
        ensures size { length self.new.marks.items ≡ length self.old.marks.items }
    {
        let number = self.next_number();
        let slot = self.rows.slot_of(line)?;
        let row = self.rows.row(slot);
        self.rows.clflush(slot, number);
        Ok(mark_of(row.safe < row.last_store))
    }

    // A fence by the thread.
    fn judge_fence(&mut self, thread: u8) -> Mark
        requires passing { IsPassing self.old }
        ensures follows { (T : Recording) (e : Event) → act T.format e ≡ Fences thread → IsPassOf T self.old → HasJudged (with_event T e) self.new result }
        ensures settled { self.new.settled ≡ self.old.settled }
        ensures size { length self.new.marks.items ≡ length self.old.marks.items }
    {
        let flushes = self.waiting.of(thread);
        let rises = decide(&mut self.rows, &mut self.marks, self.settled, flushes);
        self.waiting.clear(thread);
        mark_of(rises)
    }

    /// Gives out the oldest event that was not given out, if it is decided: whether it is kept. Where it is not, it is a flush
    /// whose thread has not fenced since.
    pub(crate) fn next_settled(&mut self) -> Option<bool>
        requires passing { IsPassing self.old }
        requires room { taken self.old ≤ event_limit }
        ensures passing { (T : Recording) → IsPassOf T self.old → IsPassOf T self.new }
        ensures settles { (T : Recording) → IsPassOf T self.old → Settles T self.old.settled result self.new.settled }
    {
        match decision(self.marks.first()?) {
            Some(kept) => {
                self.marks.pop();
                self.settled += 1;
                Some(kept)
            }
            None => None,
        }
    }

    /// Gives out so many events, the oldest first. They are decided.
    pub(crate) fn give_out(&mut self, count: usize)
        requires within { count ≤ length self.old.marks.items }
        requires room { self.old.settled + count ≤ event_limit }
        ensures passing { (T : Recording) → IsPassOf T self.old → AreDecidedFrom T self.old.settled (self.old.settled + count) → IsPassOf T self.new }
        ensures settled { self.new.settled ≡ self.old.settled + count }
    {
        self.marks.leave(count);
        self.settled += count as u64;
    }

    /// Of each event that was not given out, the oldest first, whether it is kept if the trace ends here: open flushes are not.
    ///
    /// # Errors
    /// Where memory was refused.
    pub(crate) fn finish(self, alloc: Global) -> Result<Vec<bool>, OutOfMemory>
        ensures { IfOk result (λ flags. (T : Recording) → IsPassOf T self → AreFlags T self.settled flags.items) }
    {
        flags(alloc, self.marks.as_slice())
    }

    /// The marks of the events that were not given out, the oldest first.
    pub(crate) fn marks(&self) -> &[Mark]
        ensures { result.now ≡ self.now.marks.items }
    {
        self.marks.as_slice()
    }
}

// The mark of an event that is kept, or not.
fn mark_of(kept: bool) -> Mark
    ensures { result ≡ mark_from kept }
{
    if kept { Mark::Kept } else { Mark::Dropped }
}

// Whether an event with this mark is kept, if that is decided.
#[inline(always)]
pub(crate) fn decision(mark: Mark) -> Option<bool>
    ensures { result ≡ decision_by mark }
{
    match mark {
        Mark::Open => None,
        Mark::Kept => Some(true),
        Mark::Dropped => Some(false),
    }
}

// Of each mark whether it is that of a kept event.
fn flags(alloc: Global, marks: &[Mark]) -> Result<Vec<bool>, OutOfMemory>
    ensures { IfOk result (λ flags. flags.items ≡ map (λ m. flag_by m) marks.now) }
{
    marks.iter().map(|mark| flag(*mark)).collect(alloc)
}

// Whether the mark is that of a kept event.
#[inline(always)]
pub(crate) fn flag(mark: Mark) -> bool
    ensures { result ≡ flag_by mark }
{
    match mark {
        Mark::Kept => true,
        Mark::Open | Mark::Dropped => false,
    }
}

// A fence, the next event, by the thread whose open flushes these are: whether the last safe store of a line rises. Each flush is marked by
// whether it raises its line. No step is a branch, so that the machine fetches many rows at once.
fn decide(rows: &mut Rows, marks: &mut Marks, settled: u64, flushes: &[OpenFlush]) -> bool
    requires { (T : Recording) × (n : ℕ) × (lines : List ℕ) × AreAtFence T n lines settled rows.old marks.old.items flushes.now }
    ensures size { length marks.new.items ≡ length marks.old.items }
    ensures decides { (T : Recording) (n : ℕ) (lines : List ℕ) → AreAtFence T n lines settled rows.old marks.old.items flushes.now → ArePastFence T n lines settled flushes.now rows.new marks.new.items result }
{
    let mut rises = false;
    for i in (0..flushes.len()).rev() {
        let flush = flushes[i];
        let safe = rows.raise(flush.slot as usize, flush.store);
        let raises = safe < flush.store;
        let index = (flush.number as u64 - settled - 1) as usize;
        marks.put(index, mark_of(raises));
        rises = raises | rises;
    }
    rises
}
