//! The pass over the events of a trace.
ghost use Rattle.std.specs.Prelude.{◌≡◌, ℕ, suc, length, slice_get, Some, IfOk, OnOk};
ghost use Rattle.pmt_laws.specs.Prelude.{IsFindings, IsVerdicts, IsKeep, Flushes, Clflushes, Fences, Asserts, empty, with_events, Recording, IsAct, IsTrace, event, history, lines_of};
ghost use Rattle.pmt_tables.specs.Flags.{marked_from};
ghost use Rattle.pmt_sweep.specs.Known.{IsStoreNext};
ghost use Rattle.pmt_sweep.specs.Entries.{AreSafePlaces};
ghost use Rattle.pmt_sweep.specs.Passing.{HasSwept, IsPassOf};

use crate::adding::{move_overwritten, push_if, push_verdict};
use crate::at_end::Ended;
use crate::joining::joined;
use crate::judging::verdict;
use crate::known::Known;
use crate::oldest::OldestStores;
use crate::{Noted, SafePlaces};
use pmt_model::{Event, Finding, Format, Op, OutOfMemory, Trace, Verdict, WordStore, line_of};
use pmt_tables::Overwrite;
use std::alloc::Global;

/// What a sweep finds.
#[derive(Drop)]
pub struct Swept {
    /// How many lines are stored or flushed.
    pub lines: usize,
    /// The findings in report order.
    pub findings: Vec<Noted>,
    /// The verdicts of the assertions, in event order.
    pub verdicts: Vec<Verdict>,
    /// Of each event, whether it is kept.
    pub kept: Vec<bool>,
    /// From which place on each store is safe.
    pub safe: SafePlaces,
}

/// The findings and verdicts of the trace, all that is kept of it, how many lines it stores or flushes, and the place from which each
/// store is safe: one pass forward over the events. It takes at most one look-up for each store and flush, 5 bytes an event, and some 80
/// bytes a line of 64 bytes.
///
/// # Errors
/// Where memory was refused.
pub fn sweep(alloc: Global, trace: &Trace) -> Result<Swept, OutOfMemory>
    ensures lines { IfOk result (λ s. s.lines ≡ length (lines_of (history trace.now (length trace.now.events)))) }
    ensures findings { IfOk result (λ s. IsFindings trace.now s.findings.items) }
    ensures verdicts { IfOk result (λ s. IsVerdicts trace.now s.verdicts.items) }
    ensures kept { IfOk result (λ s. IsKeep trace.now (marked_from 0 s.kept.items)) }
    ensures safe { IfOk result (λ s. AreSafePlaces trace.now s.safe) }
{
    let mut sweeper = Sweeper::new(alloc, trace.format())?;
    sweeper.take(trace.events())?;
    sweeper.finish(alloc)
}

/// A sweep over events that come block by block. It judges each assertion as it comes, and keeps no event.
#[derive(Drop)]
pub struct Sweeper {
    format: Format,
    known: Known,
    // Of lines, what assertions asked of them.
    oldest: OldestStores,
    // What is found, apart from stores that are never persisted.
    found: Vec<Noted>,
    // The stores that a store overwrites: none once they are found.
    over: Vec<Overwrite>,
    // Of each event that has come, whether it is kept, as far as that is decided: a flush is not while it waits for a fence.
    kept: Vec<bool>,
    verdicts: Vec<Verdict>,
}

impl Sweeper {
    /// A sweep over no events of this format.
    ///
    /// # Errors
    /// Where memory was refused.
    pub fn new(alloc: Global, format: Format) -> Result<Self, OutOfMemory>
        ensures { IfOk result (HasSwept (empty format)) }
    {
        let _is_format = format.line_size();
        Ok(Sweeper {
            format,
            known: Known::new(alloc, format)?,
            oldest: OldestStores::new(alloc),
            found: Vec::new(alloc),
            over: Vec::new(alloc),
            kept: Vec::new(alloc),
            verdicts: Vec::new(alloc),
        })
    }

    /// Takes the next events.
    ///
    /// # Errors
    /// Where memory was refused. It can't be used any more then.
    pub fn take(&mut self, events: &[Event]) -> Result<(), OutOfMemory>
        requires { (T : Recording) × HasSwept T self.old × IsTrace (with_events T events.now) }
        ensures { (T : Recording) → HasSwept T self.old → IsTrace (with_events T events.now) → OnOk result (HasSwept (with_events T events.now) self.new) }
    {
        for index in 0..events.len() {
            self.take_event(&events[index])?;
        }
        Ok(())
    }

    // Takes the next event.
    #[inline(always)]
    fn take_event(&mut self, event: &Event) -> Result<(), OutOfMemory>
        requires { (T : Recording) × (n : ℕ) × IsPassOf T n self.old × (slice_get T.events n ≡ Some event.now) }
        ensures { OnOk result ((T : Recording) (n : ℕ) → IsPassOf T n self.old → slice_get T.events n ≡ Some event.now → IsPassOf T (suc n) self.new) }
    {
        let thread = event.thread;
        let format = self.format;
        match &event.op {
            Op::Store(store) => self.take_store(store),
            Op::Clwb(addr) | Op::ClflushOpt(addr) => {
                self.take_flush(line_of(format, *addr), thread)
            }
            Op::Clflush(addr) => self.take_clflush(line_of(format, *addr)),
            Op::Sfence | Op::Mfence => self.take_fence(thread),
            Op::IsPersist(_) | Op::IsOrderedBefore(_, _) => self.take_assertion(event),
        }
    }

    // The next event is this store.
    #[inline(always)]
    fn take_store(&mut self, store: &WordStore) -> Result<(), OutOfMemory>
        requires { (T : Recording) × (n : ℕ) × IsPassOf T n self.old × IsStoreNext T n store.now }
        ensures { OnOk result ((T : Recording) (n : ℕ) → IsPassOf T n self.old → IsStoreNext T n store.now → IsPassOf T (suc n) self.new) }
    {
        self.known.store(store, &mut self.over)?;
        move_overwritten(&mut self.found, &mut self.over)?;
        self.kept.push(true)?;
        Ok(())
    }

    // The next event is a flush (clwb, clflushopt) of the line by the thread.
    #[inline(always)]
    fn take_flush(&mut self, line: u64, thread: u8) -> Result<(), OutOfMemory>
        requires { (T : Recording) × (n : ℕ) × IsPassOf T n self.old × IsAct T (suc n) (Flushes thread line) }
        ensures { OnOk result ((T : Recording) (n : ℕ) → IsPassOf T n self.old → IsAct T (suc n) (Flushes thread line) → IsPassOf T (suc n) self.new) }
    {
        let event = self.kept.len() as u64 + 1;
        let is_redundant = self.known.flush(line, thread)?;
        push_if(
            &mut self.found,
            is_redundant,
            Finding::RedundantFlush { event },
        )?;
        self.kept.push(false)?;
        Ok(())
    }

    // The next event is a clflush of the line.
    fn take_clflush(&mut self, line: u64) -> Result<(), OutOfMemory>
        requires { (T : Recording) × (n : ℕ) × IsPassOf T n self.old × IsAct T (suc n) (Clflushes line) }
        ensures { OnOk result ((T : Recording) (n : ℕ) → IsPassOf T n self.old → IsAct T (suc n) (Clflushes line) → IsPassOf T (suc n) self.new) }
    {
        let event = self.kept.len() as u64 + 1;
        let is_kept = self.known.clflush(line)?;
        push_if(&mut self.found, !is_kept, Finding::RedundantFlush { event })?;
        self.kept.push(is_kept)?;
        Ok(())
    }

    // The next event is a fence by the thread.
    fn take_fence(&mut self, thread: u8) -> Result<(), OutOfMemory>
        requires { (T : Recording) × (n : ℕ) × IsPassOf T n self.old × IsAct T (suc n) (Fences thread) }
        ensures { OnOk result ((T : Recording) (n : ℕ) → IsPassOf T n self.old → IsAct T (suc n) (Fences thread) → IsPassOf T (suc n) self.new) }
    {
        let event = self.kept.len() as u64 + 1;
        let fenced = self.known.fence(thread, self.kept.as_mut_slice())?;
        push_if(
            &mut self.found,
            fenced.without_flush,
            Finding::FenceWithoutFlush { event },
        )?;
        self.kept.push(fenced.kept)?;
        Ok(())
    }

    // The next event is this assertion.
    fn take_assertion(&mut self, assertion: &Event) -> Result<(), OutOfMemory>
        requires { (T : Recording) × (n : ℕ) × IsPassOf T n self.old × IsAct T (suc n) Asserts }
        ensures { OnOk result ((T : Recording) (n : ℕ) → IsPassOf T n self.old → event T (suc n) ≡ Some assertion.now → IsAct T (suc n) Asserts → IsPassOf T (suc n) self.new) }
    {
        let number = self.kept.len() as u64 + 1;
        self.known.assertion()?;
        let judged = verdict(&self.known, &mut self.oldest, number, assertion.op);
        push_verdict(&mut self.verdicts, judged)?;
        self.kept.push(true)?;
        Ok(())
    }

    /// What it has found in the trace of all events that it has taken.
    ///
    /// # Errors
    /// Where memory was refused.
    pub fn finish(self, alloc: Global) -> Result<Swept, OutOfMemory>
        requires { (T : Recording) × HasSwept T self }
        ensures lines { (T : Recording) → HasSwept T self → IfOk result (λ s. s.lines ≡ length (lines_of (history T (length T.events)))) }
        ensures findings { (T : Recording) → HasSwept T self → IfOk result (λ s. IsFindings T s.findings.items) }
        ensures verdicts { (T : Recording) → HasSwept T self → IfOk result (λ s. IsVerdicts T s.verdicts.items) }
        ensures kept { (T : Recording) → HasSwept T self → IfOk result (λ s. IsKeep T (marked_from 0 s.kept.items)) }
        ensures safe { (T : Recording) → HasSwept T self → IfOk result (λ s. AreSafePlaces T s.safe) }
    {
        let Sweeper {
            format: _,
            known,
            oldest,
            found,
            over,
            kept,
            verdicts,
        } = self;
        drop(oldest);
        drop(over);
        let Ended { lines, lost, safe } = Ended::of(alloc, known)?;
        let findings = joined(found, lost)?;
        Ok(Swept {
            lines,
            findings,
            verdicts,
            kept,
            safe,
        })
    }
}
