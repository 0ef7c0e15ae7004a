//! The events of a trace that comes: the lines of those that wait, and the text of those that have left.
ghost use Rattle.std.specs.Prelude.{◌≡◌, ◌++◌, ◌<◌, ◌≤◌, ℕ, Bool, List, [], ◌∷◌, IfOk, IfSome, OnOk};
ghost use Rattle.pmt_laws.specs.Prelude.{empty, with_event, Recording, event_limit};
ghost use Rattle.pmt_trimming.specs.Passing.{IsPassOf, taken};
ghost use Rattle.pmt_trimming.specs.Streaming.{IsOut, IsTextOfTrimmed, EndsWithKept, IsStream, IsStreamOf, IsStreamSoFar};
ghost use Rattle.pmt_text.specs.Spelling.{event_text};
ghost use Rattle.pmt_trimming.specs.LineQueues.{kept_text, kept_texts};

use crate::line_queue::LineQueue;
use crate::pass::Pass;
use pmt_model::{Event, Format, OutOfMemory};
use pmt_text::write::{LINE_ROOM, push_header, spell_event};
use std::alloc::Global;

/// The text of the events that have left, and after it the lines of those that have come and not left, in their order.
#[derive(Drop)]
pub(crate) struct Stream {
    pub(crate) pass: Pass,
    pub(crate) queue: LineQueue,
}

impl Stream {
    // No event has come; the header leaves.
    pub(crate) fn new(alloc: Global, format: Format) -> Result<Self, OutOfMemory>
        ensures stream { IfOk result (λ s. IsStreamOf (empty format) s s.queue.text) }
        ensures out { IfOk result (λ s. IsOut (empty format) s.queue.text) }
    {
        let mut text = Vec::new(alloc);
        push_header(&mut text, format)?;
        Ok(Stream {
            pass: Pass::new(alloc, format)?,
            queue: LineQueue::new(alloc, text),
        })
    }

    // The next event comes, perhaps with its line, which is not spelled again then. The text is what leaves with it: each event before which no flush is left whose thread has not fenced since.
    pub(crate) fn take(&mut self, event: &Event, line: Option<&[u8]>) -> Result<(), OutOfMemory>
        requires stream { IsStream self.old }
        requires line { IfSome line (λ bytes. bytes.now ≡ event_text event.now) }
        requires room { taken self.old.pass < event_limit }
        ensures stream { (T : Recording) (text : List ℕ) → IsStreamOf T self.old text → OnOk result (IsStreamOf (with_event T event.now) self.new (text ++ self.new.queue.text)) }
        ensures out { (T : Recording) (text : List ℕ) → IsStreamOf T self.old text → OnOk result (IsOut (with_event T event.now) (text ++ self.new.queue.text)) }
    {
        self.queue.clear_text();
        self.take_more(event, line)
    }

    // As `take`, and what leaves comes after the text.
    #[inline(always)]
    pub(crate) fn take_more(
        &mut self,
        event: &Event,
        line: Option<&[u8]>,
    ) -> Result<(), OutOfMemory>
        requires stream { IsStreamSoFar self.old }
        requires line { IfSome line (λ bytes. bytes.now ≡ event_text event.now) }
        requires room { taken self.old.pass < event_limit }
        ensures stream { (T : Recording) (text : List ℕ) → IsStreamOf T self.old (text ++ self.old.queue.text) → OnOk result (IsStreamOf (with_event T event.now) self.new (text ++ self.new.queue.text)) }
        ensures out { (T : Recording) (text : List ℕ) → IsStreamOf T self.old (text ++ self.old.queue.text) → OnOk result (IsOut (with_event T event.now) (text ++ self.new.queue.text)) }
    {
        if self.queue.is_empty() {
            return self.take_alone(event, line);
        }
        self.take_behind(event, line)
    }

    // As `take_more`, where no event waits: it leaves at once, or it waits.
    #[inline(always)]
    fn take_alone(&mut self, event: &Event, line: Option<&[u8]>) -> Result<(), OutOfMemory>
        requires stream { IsStreamSoFar self.old }
        requires alone { self.old.queue.lines ≡ [] }
        requires line { IfSome line (λ bytes. bytes.now ≡ event_text event.now) }
        requires room { taken self.old.pass < event_limit }
        ensures stream { (T : Recording) (text : List ℕ) → IsStreamOf T self.old (text ++ self.old.queue.text) → OnOk result (IsStreamOf (with_event T event.now) self.new (text ++ self.new.queue.text)) }
        ensures out { (T : Recording) (text : List ℕ) → IsStreamOf T self.old (text ++ self.old.queue.text) → OnOk result (IsOut (with_event T event.now) (text ++ self.new.queue.text)) }
    {
        match self.pass.take_alone(event)? {
            Some(kept) => {
                put(&mut self.queue, kept, event, line)?;
                Ok(())
            }
            None => {
                wait(&mut self.queue, event, line)?;
                Ok(())
            }
        }
    }

    // As `take_more`: it waits behind the others, and leaves with them.
    #[inline(never)]
    fn take_behind(&mut self, event: &Event, line: Option<&[u8]>) -> Result<(), OutOfMemory>
        requires stream { IsStreamSoFar self.old }
        requires line { IfSome line (λ bytes. bytes.now ≡ event_text event.now) }
        requires room { taken self.old.pass < event_limit }
        ensures stream { (T : Recording) (text : List ℕ) → IsStreamOf T self.old (text ++ self.old.queue.text) → OnOk result (IsStreamOf (with_event T event.now) self.new (text ++ self.new.queue.text)) }
        ensures out { (T : Recording) (text : List ℕ) → IsStreamOf T self.old (text ++ self.old.queue.text) → OnOk result (IsOut (with_event T event.now) (text ++ self.new.queue.text)) }
    {
        wait(&mut self.queue, event, line)?;
        self.pass.take(event)?;
        self.leave();
        Ok(())
    }

    // The decided events at the front leave.
    #[inline(always)]
    fn leave(&mut self)
        requires stream { IsStreamSoFar self.old }
        requires room { taken self.old.pass ≤ event_limit }
        ensures stream { (T : Recording) (text : List ℕ) → IsStreamOf T self.old (text ++ self.old.queue.text) → IsStreamOf T self.new (text ++ self.new.queue.text) }
        ensures out { (T : Recording) (text : List ℕ) → IsStreamOf T self.old (text ++ self.old.queue.text) → IsOut T (text ++ self.new.queue.text) }
    {
        while let Some(kept) = self.pass.next_settled() {
            self.queue.pop(kept);
        }
    }

    // All has come: the text of the kept events that still wait.
    pub(crate) fn finish(self, alloc: Global) -> Result<Vec<u8>, OutOfMemory>
        ensures { IfOk result (λ rest. (T : Recording) (text : List ℕ) → IsStreamOf T self text → IsTextOfTrimmed T (text ++ rest.items)) }
    {
        let Stream { pass, mut queue } = self;
        queue.clear_text();
        text_of(alloc, pass, queue)
    }
}

// The text of the queue, and after it the lines of the events that the pass keeps of those that it holds.
fn text_of(alloc: Global, pass: Pass, mut queue: LineQueue) -> Result<Vec<u8>, OutOfMemory>
    ensures { IfOk result (λ whole. (T : Recording) → IsPassOf T pass → EndsWithKept T pass.settled queue.text queue.lines whole.items) }
{
    let flags = pass.finish(alloc)?;
    pop_kept(&mut queue, flags.as_slice());
    Ok(queue.into_text())
}

// Puts the line of the event after the text, where it is kept. It is spelled where none was given.
#[inline(always)]
fn put(
    queue: &mut LineQueue,
    kept: bool,
    event: &Event,
    line: Option<&[u8]>,
) -> Result<(), OutOfMemory>
    requires alone { queue.old.lines ≡ [] }
    requires line { IfSome line (λ bytes. bytes.now ≡ event_text event.now) }
    ensures text { OnOk result (queue.new.text ≡ queue.old.text ++ kept_text kept (event_text event.now)) }
    ensures lines { OnOk result (queue.new.lines ≡ []) }
{
    if !kept {
        return Ok(());
    }
    match line {
        Some(bytes) => queue.put(bytes),
        None => put_spelled(queue, *event),
    }
}

// Puts the spelled line of the event after the text.
fn put_spelled(queue: &mut LineQueue, event: Event) -> Result<(), OutOfMemory>
    requires { queue.old.lines ≡ [] }
    ensures text { OnOk result (queue.new.text ≡ queue.old.text ++ event_text event) }
    ensures lines { OnOk result (queue.new.lines ≡ []) }
{
    let mut room = [0; LINE_ROOM];
    queue.put(spell_event(&mut room, &event))
}

// The line of the event waits. It is spelled where none was given that fits the queue.
#[inline(always)]
fn wait(queue: &mut LineQueue, event: &Event, line: Option<&[u8]>) -> Result<(), OutOfMemory>
    requires { IfSome line (λ bytes. bytes.now ≡ event_text event.now) }
    ensures text { OnOk result (queue.new.text ≡ queue.old.text) }
    ensures lines { OnOk result (queue.new.lines ≡ queue.old.lines ++ event_text event.now ∷ []) }
{
    if let Some(bytes) = line {
        if bytes.len() < 256 {
            return queue.push(bytes);
        }
    }
    wait_spelled(queue, *event)
}

// The line of the event is spelled, and waits.
fn wait_spelled(queue: &mut LineQueue, event: Event) -> Result<(), OutOfMemory>
    ensures text { OnOk result (queue.new.text ≡ queue.old.text) }
    ensures lines { OnOk result (queue.new.lines ≡ queue.old.lines ++ event_text event ∷ []) }
{
    let mut room = [0; LINE_ROOM];
    queue.push(spell_event(&mut room, &event))
}

// Puts the lines whose flag is set at the end of the text.
fn pop_kept(queue: &mut LineQueue, flags: &[bool])
    ensures { queue.new.text ≡ queue.old.text ++ kept_texts flags.now queue.old.lines }
{
    for kept in flags {
        pop_flagged(queue, *kept);
    }
}

// The first of the lines, where it is kept. It is gone from the lines then.
fn pop_flagged(queue: &mut LineQueue, kept: bool)
    ensures { (flags : List Bool) → queue.new.text ++ kept_texts flags queue.new.lines ≡ queue.old.text ++ kept_texts (kept ∷ flags) queue.old.lines }
{
    queue.pop(kept);
}
