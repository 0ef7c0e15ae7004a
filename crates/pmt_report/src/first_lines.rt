//! The lines of the first events of a source. No event is kept.
ghost use Rattle.std.specs.Prelude.{◌≡◌, suc, ◌<◌, ◌≤◌, ℕ, List, Option, ◌∷◌, length, IfOk, IfErr, IfSome, OnOk};
ghost use Rattle.pmt_laws.specs.Prelude.{Act, empty, with_event, Recording, IsEventIn, act, event_limit};
ghost use Rattle.pmt_text.specs.Sources.{CountsReads};
ghost use Rattle.pmt_taking.specs.Sourcing.{IsFaultOf, TellsRefusal, told_by};
ghost use Rattle.pmt_book.specs.Live.{IsLive};
ghost use Rattle.pmt_report.specs.Reports.{AreLinesOf, TakesLines};

use pmt_book::LiveLines;
use pmt_model::{Event, Format, Op, OutOfMemory, line_of};
use pmt_taking::TakeError;
use pmt_text::EventSource;
use std::alloc::Global;

/// The lines of a trace at its end, and how many events it has.
#[derive(Drop)]
pub(crate) struct TraceLines {
    pub(crate) format: Format,
    pub(crate) events: u64,
    pub(crate) live: LiveLines,
}

// The lines of the first events of the source alone, at most so many. Where it told no end, the next event is still to come.
pub(crate) fn first_lines<S: EventSource>(
    alloc: Global,
    source: &mut S,
    most: u64,
) -> Result<TraceLines, TakeError>
    ensures first { IfOk result (TakesLines most (S.coming source.old) (S.coming source.new) (S.state source.old) (S.state source.new)) }
    ensures fault { IfErr (told_by result) (λ e. IfSome (S.coming source.old) (λ c. IsFaultOf c e)) }
    ensures told { TellsRefusal (S.state source.old) result (S.state source.new) }
    ensures within { (first : Option (List ℕ)) → S.within source.old first → S.within source.new first }
    ensures failures { CountsReads (S.failures source.old) (told_by result) (S.failures source.new) }
{
    let format = source.format()?;
    let mut lines = TraceLines::new(alloc, format);
    'first: while lines.events < most {
        match source.next()? {
            Some(event) => lines.take(&event)?,
            None => return Ok(lines),
        }
    }
    Ok(lines)
}

// Drops the lines.
pub(crate) fn let_go(_lines: TraceLines) {}

impl TraceLines {
    // Before the first event.
    fn new(alloc: Global, format: Format) -> Self
        ensures { AreLinesOf (empty format) result }
    {
        TraceLines {
            format,
            events: 0,
            live: LiveLines::new(alloc),
        }
    }

    // Takes the next event. What it leaves where memory was refused is not told.
    #[inline(always)]
    fn take(&mut self, event: &Event) -> Result<(), OutOfMemory>
        requires taking { (T : Recording) × AreLinesOf T self.old }
        requires room { self.old.events < event_limit }
        requires known { IsEventIn self.old.format event.now }
        ensures { (T : Recording) → AreLinesOf T self.old → OnOk result (AreLinesOf (with_event T event.now) self.new) }
    {
        let number = self.events + 1;
        tell(&mut self.live, self.format, number as u32, event)?;
        self.events = number;
        Ok(())
    }
}

// Tells the lines of the next event, which has this number.
#[inline(always)]
fn tell(live: &mut LiveLines, format: Format, number: u32, event: &Event) -> Result<(), OutOfMemory>
    requires { (h : List Act) × (number ≡ suc (length h)) × (number ≤ event_limit) × IsLive h live.old }
    ensures { (h : List Act) → number ≡ suc (length h) → IsLive h live.old → OnOk result (IsLive (act format event.now ∷ h) live.new) }
{
    let thread = event.thread;
    let op = event.op;
    match op {
        Op::Store(store) => {
            let slot = live.slot_of(line_of(format, store.addr()))?;
            live.store(slot);
            Ok(())
        }
        Op::Clwb(addr) | Op::ClflushOpt(addr) => {
            let slot = live.slot_of(line_of(format, addr))?;
            live.flush(thread, slot, number)?;
            Ok(())
        }
        Op::Clflush(addr) => {
            let slot = live.slot_of(line_of(format, addr))?;
            live.clflush(slot);
            Ok(())
        }
        Op::Sfence | Op::Mfence => {
            live.fence(thread);
            Ok(())
        }
        Op::IsPersist(_) | Op::IsOrderedBefore(_, _) => Ok(()),
    }
}
