//! The trimmer that gives the whole text.
ghost use Rattle.std.specs.Prelude.{◌≡◌, ℕ, ◌+◌, ◌++◌, ◌∷◌, [], ◌<◌, ◌≤◌, Bool, List, Option, length, map, Some, IfOk, IfErr, IfSome, OnOk, vec_capacity, vec_len};
ghost use Rattle.pmt_laws.specs.Prelude.{empty, with_event, with_events, Event, Recording, event_limit, flat_map};
ghost use Rattle.pmt_text.specs.Spelling.{event_text};
ghost use Rattle.pmt_text.specs.Sources.{CountsReads, LendsAll};
ghost use Rattle.pmt_taking.specs.Sourcing.{IsFaultOf, TellsTaken, told_by};
ghost use Rattle.pmt_trimming.specs.LineQueues.{kept_texts};
ghost use Rattle.pmt_trimming.specs.Passing.{AreDecidedFrom, AreMarks, IsPassOf, IsPassing, flag_by, taken};
ghost use Rattle.pmt_trimming.specs.Streaming.{IsTextOfTrimmed, HasLeftTo, IsHeldAt, IsTextOfWhole, IsWhole, IsWholeOf};

use crate::held_lines::HeldLines;
use crate::line_len::line_len;
use crate::pass::{Mark, Pass, decision, flag};
use pmt_model::{Event, Format, OutOfMemory, Trace};
use pmt_taking::TakeError;
use pmt_text::EventSource;
use pmt_text::write::{LINE_ROOM, push_header, spell_event};
use std::alloc::Global;
use std::mem;

/// The most events of a block: a read gives about a hundred.
const BLOCK_ROOM: usize = 512;

/// The text of the trimmed trace whose events the source has still to give. Memory is that of this text, and of the lines that wait for a
/// fence and those after them.
///
/// # Errors
/// `Source` with the fault that the source told, or with `Failed` where it had told a fault before. `OutOfMemory` where memory was
/// refused to the trimmer itself; the source told no fault then. The source stands past the events that were taken.
pub fn trimmed_text<S: EventSource>(alloc: Global, source: &mut S) -> Result<Vec<u8>, TakeError>
    ensures text { IfOk result (λ text. IsTextOfWhole (S.coming source.old) text.items) }
    ensures fault { IfErr (told_by result) (λ e. IfSome (S.coming source.old) (λ c. IsFaultOf c e)) }
    ensures told { TellsTaken (S.state source.old) result (S.state source.new) }
    ensures within { (first : Option (List ℕ)) → S.within source.old first → S.within source.new first }
    ensures failures { CountsReads (S.failures source.old) (told_by result) (S.failures source.new) }
{
    let format = source.format()?;
    let mut whole = Whole::new(alloc, format)?;
    let mut block = Trace::with_room(alloc, format, BLOCK_ROOM)?;
    while let Some(event) = source.next()? {
        whole.take(&event, source.last_line())?;
        source.take_ready(&mut block, BLOCK_ROOM)?;
        whole.take_all(alloc, block.events(), source.last_line())?;
        block = emptied(alloc, block)?;
    }
    Ok(whole.into_text())
}

// The block without its events: one that has none stays.
fn emptied(alloc: Global, block: Trace) -> Result<Trace, OutOfMemory>
    ensures { IfOk result (λ trace. trace ≡ empty block.format) }
{
    if block.is_empty() {
        return Ok(block);
    }
    Trace::with_room(alloc, block.format(), BLOCK_ROOM)
}

/// The header and the lines that are kept of the events that have left, and the lines of those that have not.
#[derive(Drop)]
pub(crate) struct Whole {
    pub(crate) pass: Pass,
    pub(crate) held: HeldLines,
}

impl Whole {
    // No event has come.
    fn new(alloc: Global, format: Format) -> Result<Self, OutOfMemory>
        ensures { IfOk result (IsWholeOf (empty format)) }
    {
        let mut text = Vec::new(alloc);
        push_header(&mut text, format)?;
        Ok(Whole {
            pass: Pass::new(alloc, format)?,
            held: HeldLines::new(alloc, text),
        })
    }

    // The next event comes, perhaps with its line, which is not spelled again then.
    #[inline(always)]
    fn take(&mut self, event: &Event, line: Option<&[u8]>) -> Result<(), OutOfMemory>
        requires whole { IsWhole self.old }
        requires line { IfSome line (λ bytes. bytes.now ≡ event_text event.now) }
        requires room { taken self.old.pass < event_limit }
        ensures { (T : Recording) → IsWholeOf T self.old → OnOk result (IsWholeOf (with_event T event.now) self.new) }
    {
        hold(&mut self.held, event, line)?;
        self.pass.take(event)?;
        Ok(())
    }

    // The next events come, perhaps with their lines, which are not spelled again then. Those that are decided leave.
    fn take_all(
        &mut self,
        alloc: Global,
        events: &[Event],
        lines: Option<&[u8]>,
    ) -> Result<(), OutOfMemory>
        requires whole { IsWhole self.old }
        requires lines { IfSome lines (λ bytes. LendsAll events.now (Some bytes.now)) }
        requires room { taken self.old.pass + length events.now ≤ event_limit }
        ensures { (T : Recording) → IsWholeOf T self.old → OnOk result (IsWholeOf (with_events T events.now) self.new) }
    {
        self.take_block(alloc, events, lines)?;
        self.leave(alloc);
        Ok(())
    }

    // The same, and none leave.
    fn take_block(
        &mut self,
        alloc: Global,
        events: &[Event],
        lines: Option<&[u8]>,
    ) -> Result<(), OutOfMemory>
        requires whole { IsWhole self.old }
        requires lines { IfSome lines (λ bytes. LendsAll events.now (Some bytes.now)) }
        requires room { taken self.old.pass + length events.now ≤ event_limit }
        ensures { (T : Recording) → IsWholeOf T self.old → OnOk result (IsWholeOf (with_events T events.now) self.new) }
    {
        match lines {
            Some(bytes) if !events.is_empty() => self.take_lent(alloc, events, bytes),
            _ => self.take_each(events),
        }
    }

    // The next events come, with their lines.
    fn take_lent(
        &mut self,
        alloc: Global,
        events: &[Event],
        lines: &[u8],
    ) -> Result<(), OutOfMemory>
        requires whole { IsWhole self.old }
        requires lines { lines.now ≡ flat_map event_text events.now }
        requires room { taken self.old.pass + length events.now ≤ event_limit }
        ensures { (T : Recording) → IsWholeOf T self.old → OnOk result (IsWholeOf (with_events T events.now) self.new) }
    {
        let mut lengths = Vec::with_capacity(alloc, events.len())?;
        take_measured(&mut self.pass, events, &mut lengths)?;
        self.held.push_all(lengths.as_slice(), lines)?;
        Ok(())
    }

    // The next events come, and their lines are spelled.
    fn take_each(&mut self, events: &[Event]) -> Result<(), OutOfMemory>
        requires whole { IsWhole self.old }
        requires room { taken self.old.pass + length events.now ≤ event_limit }
        ensures { (T : Recording) → IsWholeOf T self.old → OnOk result (IsWholeOf (with_events T events.now) self.new) }
    {
        for event in events {
            self.take(event, None)?;
        }
        Ok(())
    }

    // The events before the first flush whose thread has not fenced since leave.
    #[inline(never)]
    fn leave(&mut self, alloc: Global)
        requires whole { IsWhole self.old }
        requires room { taken self.old.pass ≤ event_limit }
        ensures { (T : Recording) → IsWholeOf T self.old → IsWholeOf T self.new }
    {
        let none = HeldLines::new(alloc, Vec::new(alloc));
        let held = mem::replace(&mut self.held, none);
        let (mut held, count) = pop_decided(held, self.pass.marks());
        self.pass.give_out(count);
        held.give_up_room();
        self.held = held;
    }

    // All has come: the text of the kept events.
    fn into_text(self) -> Vec<u8>
        ensures { (T : Recording) → IsWholeOf T self → IsTextOfTrimmed T result.items }
    {
        let Whole { pass, mut held } = self;
        pop_kept(&mut held, pass.marks());
        held.into_text()
    }
}

// The lines once those before the first whose mark is that of an open flush have left, and how many these are. They are moved here and back,
// so that what the loop counts stays in registers.
#[inline(always)]
fn pop_decided(held: HeldLines, marks: &[Mark]) -> (HeldLines, usize)
    ensures within { result.1 ≤ length marks.now }
    ensures left { (T : Recording) (place : ℕ) (waiting : List Event) → AreMarks T place marks.now → place + length marks.now ≤ length T.events → IsHeldAt T place waiting held → HasLeftTo T (place + result.1) result.0 }
    ensures decided { (T : Recording) (place : ℕ) → AreMarks T place marks.now → AreDecidedFrom T place (place + result.1) }
{
    let mut left = held;
    for index in 0..marks.len() {
        match decision(marks[index]) {
            Some(kept) => left.pop(kept),
            None => return (left, index),
        }
    }
    (left, marks.len())
}

// Puts the lines whose mark is that of a kept event at the end of the text.
fn pop_kept(held: &mut HeldLines, marks: &[Mark])
    ensures { held.new.text ≡ held.old.text ++ kept_texts (map (λ m. flag_by m) marks.now) held.old.lines }
{
    for mark in marks {
        pop_one(held, flag(*mark));
    }
}

// The first of the lines, where it is kept. It is gone from the lines then.
#[inline(always)]
fn pop_one(held: &mut HeldLines, kept: bool)
    ensures { (flags : List Bool) → held.new.text ++ kept_texts flags held.new.lines ≡ held.old.text ++ kept_texts (kept ∷ flags) held.old.lines }
{
    held.pop(kept);
}

// The line of the event is held. It is spelled where none was given that fits.
#[inline(always)]
fn hold(held: &mut HeldLines, event: &Event, line: Option<&[u8]>) -> Result<(), OutOfMemory>
    requires { IfSome line (λ bytes. bytes.now ≡ event_text event.now) }
    ensures text { OnOk result (held.new.text ≡ held.old.text) }
    ensures lines { OnOk result (held.new.lines ≡ held.old.lines ++ event_text event.now ∷ []) }
{
    if let Some(bytes) = line {
        if bytes.len() < 256 {
            return held.push(bytes);
        }
    }
    hold_spelled(held, *event)
}

// The line of the event is spelled, and held.
fn hold_spelled(held: &mut HeldLines, event: Event) -> Result<(), OutOfMemory>
    ensures text { OnOk result (held.new.text ≡ held.old.text) }
    ensures lines { OnOk result (held.new.lines ≡ held.old.lines ++ event_text event ∷ []) }
{
    let mut room = [0; LINE_ROOM];
    held.push(spell_event(&mut room, &event))
}

// The pass takes the events, and the lengths of their lines are put at the end, where there is room for them. One loop does both, so that
// the processor guesses the kind of each event once.
fn take_measured(
    pass: &mut Pass,
    events: &[Event],
    lengths: &mut Vec<u8>,
) -> Result<(), OutOfMemory>
    requires passing { IsPassing pass.old }
    requires room { taken pass.old + length events.now ≤ event_limit }
    requires spare { vec_len lengths.old + length events.now ≤ vec_capacity lengths.old }
    ensures follows { (T : Recording) → IsPassOf T pass.old → OnOk result (IsPassOf (with_events T events.now) pass.new) }
    ensures settled { OnOk result (pass.new.settled ≡ pass.old.settled) }
    ensures lengths { OnOk result (lengths.new.items ≡ lengths.old.items ++ map (λ e. length (event_text e)) events.now) }
{
    for event in events {
        lengths.push_reserved(line_len(event));
        pass.take(event)?;
    }
    Ok(())
}
