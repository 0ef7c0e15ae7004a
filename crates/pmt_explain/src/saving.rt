//! From which place on each store is safe.

ghost use Rattle.std.specs.Prelude.{◌≡◌, length, IfOk, OnOk};
ghost use Rattle.pmt_explain.specs.Following.{IsAhead, AreSafePlaces};

use crate::ahead::Ahead;
use pmt_model::{OutOfMemory, Trace};
use std::alloc::Global;

/// From which place on each store of a trace is safe.
#[derive(Drop)]
pub struct SafePlaces<'a> {
    trace: &'a Trace,
    places: Vec<u64>,
    ghost are_safe: { AreSafePlaces trace.now places.items },
}

impl<'a> SafePlaces<'a> {
    /// These places of the stores of the trace, as `safe_places` gives them.
    pub fn new(trace: &'a Trace, places: Vec<u64>) -> Self
        requires { AreSafePlaces trace.now places.items }
        ensures { result.trace.now ≡ trace.now }
    {
        SafePlaces { trace, places }
    }

    /// Those of the trace's stores, by one look at each event.
    ///
    /// # Errors
    /// Where memory was refused.
    pub fn of(alloc: Global, trace: &'a Trace) -> Result<Self, OutOfMemory>
        ensures { IfOk result (λ safe. safe.trace.now ≡ trace.now) }
    {
        let places = safe_places(alloc, trace)?;
        Ok(SafePlaces::new(trace, places))
    }

    /// The trace.
    pub fn trace(&self) -> &'a Trace
        ensures { result.now ≡ self.now.trace.now }
    {
        self.trace
    }

    /// The places of all events, in order, as `safe_places` gives them.
    pub fn places(&self) -> &[u64]
        ensures { AreSafePlaces self.now.trace.now result.now }
    {
        self.places.as_slice()
    }
}

/// Of each event that is a store, in order, the first place from which on every run has it persisted; one more than the last number
/// where there is none. Of another event any number.
///
/// It takes one look at each event.
///
/// # Errors
/// Where memory was refused.
pub fn safe_places(alloc: Global, trace: &Trace) -> Result<Vec<u64>, OutOfMemory>
    ensures { IfOk result (λ places. AreSafePlaces trace.now places.items) }
{
    let past = trace.len() as u64 + 1;
    let mut places = vec![in alloc; past; trace.len()]?;
    look_ahead(alloc, trace, &mut places)?;
    Ok(places)
}

// Notes the places.
fn look_ahead(alloc: Global, trace: &Trace, places: &mut Vec<u64>) -> Result<(), OutOfMemory>
    requires { length places.old.items ≡ length trace.now.events }
    ensures { OnOk result (AreSafePlaces trace.now places.new.items) }
{
    let mut ahead = Ahead::new(alloc, trace.len() as u64 + 1);
    note_places(&mut ahead, trace, places)
}

// The same, one look at each event, from what comes after the trace.
fn note_places(ahead: &mut Ahead, trace: &Trace, places: &mut Vec<u64>) -> Result<(), OutOfMemory>
    requires ahead { IsAhead trace.now (length trace.now.events) ahead.old }
    requires places { length places.old.items ≡ length trace.now.events }
    ensures { OnOk result (AreSafePlaces trace.now places.new.items) }
{
    let format = trace.format();
    let events = trace.events();
    for index in (0..events.len()).rev() {
        let event = events[index];
        let place = ahead.go_back(format, event.thread, event.op, index as u64 + 1)?;
        places[index] = place;
    }
    Ok(())
}
