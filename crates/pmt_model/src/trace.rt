//! Traces.
ghost use Rattle.std.specs.Prelude.{◌≡◌, ◌≤◌, ◌==◌, length, IfOk};
ghost use Rattle.std.specs.List.{AllByRecursion};
ghost use Rattle.pmt_model.specs.Values.{first_version};
ghost use Rattle.pmt_model.specs.Selections.{cut};
ghost use Rattle.pmt_model.specs.Traces.{event as event_at, IsTrace, PushGives, empty};

use crate::event::Event;
use crate::fault::{OutOfMemory, PushError};
use crate::format::Format;
use crate::selection::Selection;
use std::alloc::Global;
use std::marker::Model;

/// The events of persistent memory in their one order, of one format; at most 1,000,000.
#[derive(Drop)]
pub struct Trace {
    format: Format,
    events: Vec<Event>,
}

impl Model for Trace {
    ghost use Rattle.pmt_model.specs.Traces.{Recording, IsTrace};

    ghost Value = { Recording };

    ghost view = { λ t. record { format = t.format; events = t.events.items } };

    ghost invariant = { λ t. IsTrace (record { format = t.format; events = t.events.items }) };
}

impl Trace {
    /// The most events that a trace has.
    pub const LIMIT: usize = 1_000_000;

    /// A trace of version 1 without events.
    pub fn new(alloc: Global) -> Self
        ensures { result ≡ empty first_version }
    {
        Self::new_with(alloc, Format::v1())
    }

    /// A trace of this format without events.
    pub fn new_with(alloc: Global, format: Format) -> Self
        ensures { result ≡ empty format }
    {
        let _version = format.version();
        Trace {
            format,
            events: Vec::new(alloc),
        }
    }

    /// A trace of this format without events, and with room for so many.
    ///
    /// # Errors
    /// Where memory was refused.
    pub fn with_room(alloc: Global, format: Format, room: usize) -> Result<Self, OutOfMemory>
        ensures { IfOk result (λ trace. trace ≡ empty format) }
    {
        let _version = format.version();
        let events = Vec::with_capacity(alloc, room)?;
        Ok(Trace { format, events })
    }

    /// Its format.
    pub fn format(&self) -> Format
        ensures value { result ≡ self.now.format }
        ensures is_trace { IsTrace self.now }
    {
        self.format
    }

    /// How many events it has, at most 1,000,000.
    pub fn len(&self) -> usize
        ensures value { result ≡ length self.now.events }
        ensures is_trace { IsTrace self.now }
    {
        self.events.len()
    }

    /// Whether it has no events.
    pub fn is_empty(&self) -> bool
        ensures { result ≡ (length self.now.events == 0) }
    {
        self.events.is_empty()
    }

    /// The event with this number, the first having the number 1.
    pub fn get(&self, number: u64) -> Option<Event>
        ensures { result ≡ event_at self.now number }
    {
        let index = number.checked_sub(1)?;
        self.events.get(index as usize).copied()
    }

    /// All its events, in order.
    pub fn events(&self) -> &[Event]
        ensures value { result.now ≡ self.now.events }
        ensures is_trace { IsTrace self.now }
    {
        self.events.as_slice()
    }

    /// Adds the event at the end.
    ///
    /// # Errors
    /// `NotInFormat` where the event is a clflush or an mfence and the trace is of version 1, then `Full` where it has
    /// 1,000,000 events, then `OutOfMemory`. The trace is unchanged then.
    pub fn push(&mut self, event: Event) -> Result<(), PushError>
        ensures { PushGives self.old event result self.new }
    {
        if !event.is_in(self.format) {
            return Err(PushError::NotInFormat);
        }
        if self.events.len() == Self::LIMIT {
            return Err(PushError::Full);
        }
        let Event { thread, op } = event;
        match self.events.push(Event { thread, op }) {
            Ok(()) => Ok(()),
            Err(_) => Err(PushError::OutOfMemory),
        }
    }

    /// The events whose numbers are selected, in the same format.
    ///
    /// # Errors
    /// `OutOfMemory`.
    pub fn select(&self, selection: &Selection) -> Result<Trace, OutOfMemory>
        requires { AllByRecursion (λ k. k ≤ length self.now.events) selection.now }
        ensures { IfOk result (λ trace. trace ≡ cut self.now selection.now) }
    {
        let numbers = selection.numbers();
        let mut events = Vec::with_capacity(*self.events.allocator(), numbers.len())?;
        for number in numbers {
            let Event { thread, op } = self.events[*number as usize - 1];
            events.push_reserved(Event { thread, op });
        }
        Ok(Trace {
            format: self.format,
            events,
        })
    }
}
