//! The book: the events so far, with the front and count of each line.
ghost use Rattle.std.specs.Prelude.{◌≡◌, ℕ, ◌<◌, ◌≤◌, ◌==◌, ◌↔◌, length, IfOk, OnOk, OnErr, IsTrue};
ghost use Rattle.pmt_laws.specs.Prelude.{first_version, Flushes, Fences, Asserts, empty, with_event, event as event_at, act, event_limit, IsTrace, line_of as line_in};
ghost use Rattle.pmt_book.specs.Live.{AddsEvent, event_by, last_front, last_count, PassesNow};

use crate::copying::copied_trace;
use crate::fault::BookError;
use crate::live::LiveLines;
use crate::touching::none_touches;
use pmt_model::{Addr, Event, Format, Op, OutOfMemory, Range, Trace, WordStore, line_of};
use std::alloc::{AllocError, Global};
use std::marker::Model;

/// A trace under way: its events so far, at most 1,000,000, with the front and the count of each line at hand. Contracts see it as
/// the format and the events.
///
/// A store or a flush takes the time of one look-up; a fence takes a step for each flush of its thread since its last fence, however many
/// lines the book has.
#[derive(Drop)]
pub struct Book {
    trace: Trace,
    lines: LiveLines,
    alloc: Global,
}

impl Model for Book {
    ghost use Rattle.pmt_model.specs.Traces.{Recording};
    ghost use Rattle.pmt_book.specs.Live.{whole_history};
    ghost use Rattle.pmt_book.specs.Live.{IsLiveWith};

    ghost Value = { Recording };

    ghost view = { λ b. b.trace };

    ghost invariant = { λ b. IsLiveWith b.lines.rows.slots (whole_history b.trace) b.lines };
}

// Adds the event at the end of the trace.
fn push(trace: &mut Trace, event: Event) -> Result<(), OutOfMemory>
    ensures ok { OnOk result (trace.new ≡ with_event trace.old event) }
    ensures err { OnErr result (trace.new ≡ trace.old) }
{
    match trace.push(event) {
        Ok(()) => Ok(()),
        Err(_) => Err(AllocError),
    }
}

impl Book {
    /// A book of version 1 without events.
    pub fn new(alloc: Global) -> Self
        ensures { result ≡ empty first_version }
    {
        Self::new_with(alloc, Format::v1())
    }

    /// A book of this format without events.
    pub fn new_with(alloc: Global, format: Format) -> Self
        ensures { result ≡ empty format }
    {
        Book {
            trace: Trace::new_with(alloc, format),
            lines: LiveLines::new(alloc),
            alloc,
        }
    }

    /// Its format.
    pub fn format(&self) -> Format
        ensures value { result ≡ self.now.format }
        ensures is_trace { IsTrace self.now }
    {
        self.trace.format()
    }

    /// How many events it has, at most 1,000,000.
    pub fn len(&self) -> usize
        ensures value { result ≡ length self.now.events }
        ensures is_trace { IsTrace self.now }
    {
        self.trace.len()
    }

    /// Whether it has no events.
    pub fn is_empty(&self) -> bool
        ensures { result ≡ (length self.now.events == 0) }
    {
        self.trace.is_empty()
    }

    /// The event with this number, the first having the number 1.
    pub fn get(&self, number: u64) -> Option<Event>
        ensures { result ≡ event_at self.now number }
    {
        self.trace.get(number)
    }

    /// All its events, in order.
    pub fn events(&self) -> &[Event]
        ensures value { result.now ≡ self.now.events }
        ensures is_trace { IsTrace self.now }
    {
        self.trace.events()
    }

    /// How many of the stores to the line are persisted for sure after all its events; 0 for a line without events.
    pub fn front(&self, line: u64) -> u64
        ensures { result ≡ last_front self.now line }
    {
        match self.lines.find(line) {
            Some(slot) => self.lines.front(slot) as u64,
            None => 0,
        }
    }

    /// How many stores to the line it has; 0 for a line without events.
    pub fn count(&self, line: u64) -> u64
        ensures { result ≡ last_count self.now line }
    {
        match self.lines.find(line) {
            Some(slot) => self.lines.count(slot) as u64,
            None => 0,
        }
    }

    /// The verdict of an isPersist of the range after all its events. It goes back, for each line of the range, to the line's oldest
    /// store that a crash may still lose.
    pub fn persisted(&self, range: Range) -> bool
        ensures { IsTrue result ↔ PassesNow self.now range }
    {
        let format = self.trace.format();
        let first = line_of(format, range.addr());
        let last = (range.addr().get() + (range.len() - 1)) / format.line_size();
        for line in first..last + 1 {
            let count = self.count(line).saturating_sub(self.front(line));
            if !none_touches(self.trace.events(), format, count, line, range) {
                return false;
            }
        }
        true
    }

    /// Adds the event at the end, and answers its number.
    ///
    /// # Errors
    /// `NotInFormat` where the event is a clflush or an mfence and the book is of version 1, then `Full` where it has
    /// 1,000,000 events, then `OutOfMemory`. The book is unchanged then.
    pub fn push_event(&mut self, event: Event) -> Result<u64, BookError>
        ensures { AddsEvent self.old event result self.new }
    {
        if !event.is_in(self.trace.format()) {
            return Err(BookError::NotInFormat);
        }
        if self.trace.len() == Trace::LIMIT {
            return Err(BookError::Full {
                events: Trace::LIMIT as u64,
            });
        }
        match self.add(event) {
            Ok(()) => Ok(self.len() as u64),
            Err(_) => Err(BookError::OutOfMemory),
        }
    }

    // Adds the event, for which there is room.
    fn add(&mut self, event: Event) -> Result<(), OutOfMemory>
        requires { length self.old.events < event_limit }
        ensures ok { OnOk result (self.new ≡ with_event self.old event) }
        ensures err { OnErr result (self.new ≡ self.old) }
    {
        let thread = event.thread;
        let op = event.op;
        match op {
            Op::Store(store) => self.add_store(thread, store),
            Op::Clwb(addr) => self.add_flush(event, addr),
            Op::ClflushOpt(addr) => self.add_flush(event, addr),
            Op::Clflush(addr) => self.add_clflush(thread, addr),
            Op::Sfence => self.add_fence(event),
            Op::Mfence => self.add_fence(event),
            Op::IsPersist(_) => self.add_assertion(event),
            Op::IsOrderedBefore(_, _) => self.add_assertion(event),
        }
    }

    // Adds a store.
    fn add_store(&mut self, thread: u8, store: WordStore) -> Result<(), OutOfMemory>
        requires { length self.old.events < event_limit }
        ensures ok { OnOk result (self.new ≡ with_event self.old (event_by thread (Op.Store store))) }
        ensures err { OnErr result (self.new ≡ self.old) }
    {
        let line = line_of(self.trace.format(), store.addr());
        let slot = self.lines.slot_of(line)?;
        let op = Op::Store(store);
        push(&mut self.trace, Event { thread, op })?;
        self.lines.store(slot);
        Ok(())
    }

    // Adds a flush of the line of the address.
    fn add_flush(&mut self, event: Event, addr: Addr) -> Result<(), OutOfMemory>
        requires { act self.old.format event ≡ Flushes event.thread (line_in self.old.format addr) }
        ensures ok { OnOk result (self.new ≡ with_event self.old event) }
        ensures err { OnErr result (self.new ≡ self.old) }
    {
        let thread = event.thread;
        let line = line_of(self.trace.format(), addr);
        let slot = self.lines.slot_of(line)?;
        let number = self.trace.len() as u32 + 1;
        self.lines.flush(thread, slot, number)?;
        match push(&mut self.trace, event) {
            Ok(()) => Ok(()),
            Err(_) => {
                self.lines.take_back(thread);
                Err(AllocError)
            }
        }
    }

    // Adds a clflush of the line of the address.
    fn add_clflush(&mut self, thread: u8, addr: Addr) -> Result<(), OutOfMemory>
        ensures ok { OnOk result (self.new ≡ with_event self.old (event_by thread (Op.Clflush addr))) }
        ensures err { OnErr result (self.new ≡ self.old) }
    {
        let line = line_of(self.trace.format(), addr);
        let slot = self.lines.slot_of(line)?;
        let op = Op::Clflush(addr);
        push(&mut self.trace, Event { thread, op })?;
        self.lines.clflush(slot);
        Ok(())
    }

    // Adds a fence.
    fn add_fence(&mut self, event: Event) -> Result<(), OutOfMemory>
        requires { act self.old.format event ≡ Fences event.thread }
        ensures ok { OnOk result (self.new ≡ with_event self.old event) }
        ensures err { OnErr result (self.new ≡ self.old) }
    {
        let thread = event.thread;
        push(&mut self.trace, event)?;
        self.lines.fence(thread);
        Ok(())
    }

    // Adds an assertion.
    fn add_assertion(&mut self, event: Event) -> Result<(), OutOfMemory>
        requires { act self.old.format event ≡ Asserts }
        ensures ok { OnOk result (self.new ≡ with_event self.old event) }
        ensures err { OnErr result (self.new ≡ self.old) }
    {
        push(&mut self.trace, event)?;
        Ok(())
    }

    /// The same book once more.
    ///
    /// # Errors
    /// `OutOfMemory`.
    pub fn copy(&self) -> Result<Book, OutOfMemory>
        ensures { IfOk result (λ copy. copy ≡ self.now) }
    {
        Ok(Book {
            trace: copied_trace(self.alloc, &self.trace)?,
            lines: self.lines.copy()?,
            alloc: self.alloc,
        })
    }

    /// Its events as a trace of the same format.
    pub fn into_trace(self) -> Trace
        ensures { result ≡ self }
    {
        let Book { trace, .. } = self;
        trace
    }
}
