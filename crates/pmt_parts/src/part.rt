//! One part of a trace, and the next one made from it.
ghost use Rattle.std.specs.Prelude.{◌≡◌, ◌⊎◌, suc, ◌+◌, ◌-◌, ◌^◌, ◌<◌, ◌≤◌, ◌++◌, List, [], Some, length, min, not, filter, true, false, IfOk, OnOk};
ghost use Rattle.pmt_laws.specs.Prelude.{with_event, IsRising, matching_place, Recording, event as event_at, event_limit, IsEventIn};
ghost use Rattle.pmt_asked.specs.declared.ignoring.ByteRange.{ByteRange};
ghost use Rattle.pmt_asked.specs.Choosing.{is_ignored as event_ignored};
ghost use Rattle.pmt_part_laws.specs.Parts.{stretch};
ghost use Rattle.pmt_parts.specs.Making.{IsPartOf, ComesNext, AreChosen, number_in, through};

use crate::carrying::carry_at;
use pmt_asked::{ByteRange, is_ignored};
use pmt_model::{Event, Format, OutOfMemory, Selection, Trace};
use pmt_taking::add;
use std::alloc::Global;

/// A part of a trace: events that are carried over a place, and the events after it up to another. It answers for the last of these.
#[derive(Drop)]
pub struct Part {
    /// What is carried, and then the events after the place, in the format of the whole.
    pub trace: Trace,
    /// The number of each of its events in the whole, rising.
    pub numbers: Vec<u64>,
    /// The place where it begins: so many events of the whole come before its stretch.
    pub place: u64,
    /// It answers for the events of the whole after this one.
    pub before: u64,
    /// Its last event, by its number in the whole; the place where none comes after it.
    pub end: u64,
}

impl Part {
    /// The first part of a trace of this format, of which no event has come.
    pub fn new(alloc: Global, format: Format) -> Self
        ensures part { (T : Recording) (ranges : List ByteRange) → T.format ≡ format → IsPartOf T ranges result }
        ensures format { result.trace.format ≡ format }
        ensures none { result.trace.events ≡ [] }
        ensures start { (result.place ≡ 0) × (result.before ≡ 0) × (result.end ≡ 0) }
    {
        Part {
            trace: Trace::new_with(alloc, format),
            numbers: Vec::new(alloc),
            place: 0,
            before: 0,
            end: 0,
        }
    }

    /// Whether it has room for these events, and they are in its format.
    pub fn takes(&self, block: &Trace) -> bool
        ensures taken { result ≡ true → (length self.now.trace.events + length block.now.events ≤ event_limit) × (self.now.trace.format ≡ block.now.format) × (self.now.end + length block.now.events < 2 ^ 64) }
        ensures refused { result ≡ false → (event_limit < length self.now.trace.events + length block.now.events) ⊎ (¬ (self.now.trace.format ≡ block.now.format)) ⊎ (2 ^ 64 ≤ self.now.end + length block.now.events) }
    {
        let has_room = self.trace.len() + block.len() <= Trace::LIMIT;
        let is_numbered = self.end <= u64::MAX - block.len() as u64;
        has_room && is_numbered && self.trace.format() == block.format()
    }

    /// Adds the next events of the whole, for which it answers too.
    ///
    /// # Errors
    /// Where memory was refused. It is the part of no trace then.
    pub(crate) fn extend(&mut self, block: &Trace) -> Result<(), OutOfMemory>
        requires room { length self.old.trace.events + length block.now.events ≤ event_limit }
        requires format { self.old.trace.format ≡ block.now.format }
        requires numbered { self.old.end + length block.now.events < 2 ^ 64 }
        ensures part { OnOk result ((T : Recording) (ranges : List ByteRange) → IsPartOf T ranges self.old → ComesNext T self.old.end block.now → IsPartOf T ranges self.new) }
        ensures trace { OnOk result ((self.new.trace.format ≡ block.now.format) × (self.new.trace.events ≡ self.old.trace.events ++ block.now.events)) }
        ensures end { OnOk result (self.new.end ≡ self.old.end + length block.now.events) }
        ensures same { (self.new.place ≡ self.old.place) × (self.new.before ≡ self.old.before) }
    {
        for event in block.events() {
            let Event { thread, op } = *event;
            self.push(Event { thread, op })?;
        }
        Ok(())
    }

    // Adds the next event of the whole.
    fn push(&mut self, event: Event) -> Result<(), OutOfMemory>
        requires room { length self.old.trace.events < event_limit }
        requires known { IsEventIn self.old.trace.format event }
        requires numbered { self.old.end < 2 ^ 64 - 1 }
        ensures part { OnOk result ((T : Recording) (ranges : List ByteRange) → IsPartOf T ranges self.old → event_at T (suc self.old.end) ≡ Some event → IsPartOf T ranges self.new) }
        ensures trace { OnOk result (self.new.trace ≡ with_event self.old.trace event) }
        ensures end { OnOk result (self.new.end ≡ self.old.end + 1) }
        ensures same { (self.new.place ≡ self.old.place) × (self.new.before ≡ self.old.before) }
    {
        let number = self.end + 1;
        self.numbers.push(number)?;
        add(&mut self.trace, event)?;
        self.end = number;
        Ok(())
    }
}

/// The beginning of the next part, with none yet of the events that it answers for. It begins so many events before the end of this one,
/// or where this one begins if that is later; of what is carried there, the stores all of whose bytes lie in the ranges are left out.
///
/// # Errors
/// Where memory was refused.
pub(crate) fn next_part(
    alloc: Global,
    part: &Part,
    overlap: u64,
    ranges: &[ByteRange],
) -> Result<Part, OutOfMemory>
    ensures part { IfOk result (λ next. (T : Recording) → IsPartOf T ranges.now part.now → IsPartOf T ranges.now next) }
    ensures format { IfOk result (λ next. next.trace.format ≡ part.now.trace.format) }
    ensures place { IfOk result (λ next. next.place ≡ part.now.end - min overlap (part.now.end - part.now.place)) }
    ensures end { IfOk result (λ next. (next.before ≡ part.now.end) × (next.end ≡ part.now.end)) }
{
    let back = overlap.min(part.end.saturating_sub(part.place));
    let place = part.end - back;
    let own = place_in(part.numbers.as_slice(), place);
    let chosen = chosen_events(alloc, &part.trace, own, ranges)?;
    let numbers = numbers_of(alloc, part.numbers.as_slice(), chosen.numbers())?;
    let trace = part.trace.select(&chosen)?;
    Ok(Part {
        trace,
        numbers,
        place,
        before: part.end,
        end: part.end,
    })
}

/// How many of the numbers are at most this one.
pub fn place_in(numbers: &[u64], place: u64) -> u64
    ensures { result ≡ matching_place numbers.now place }
{
    let mut count = 0;
    for number in numbers {
        if *number <= place {
            count += 1;
        }
    }
    count
}

// The events that the trace carries over the place, without the stores that are ignored, and those after it.
fn chosen_events(
    alloc: Global,
    trace: &Trace,
    place: u64,
    ranges: &[ByteRange],
) -> Result<Selection, OutOfMemory>
    ensures chosen { IfOk result (AreChosen trace.now ranges.now place) }
    ensures rising { IfOk result (IsRising 0) }
{
    let carry = carry_at(alloc, trace, place)?;
    let mut numbers = told_events(alloc, trace, carry.numbers(), ranges)?;
    push_stretch(&mut numbers, place, trace.len() as u64)?;
    let Ok(chosen) = Selection::from_numbers(numbers) else {
        unreachable!()
    };
    Ok(chosen)
}

// Those of the events that are not ignored.
fn told_events(
    alloc: Global,
    trace: &Trace,
    numbers: &[u64],
    ranges: &[ByteRange],
) -> Result<Vec<u64>, OutOfMemory>
    ensures { IfOk result (λ told. told.items ≡ filter (λ i. not (event_ignored trace.now ranges.now i)) numbers.now) }
{
    numbers
        .iter()
        .copied()
        .filter(|number| !is_ignored(trace, ranges, *number))
        .collect(alloc)
}

// Adds the numbers after the place up to the end.
fn push_stretch(numbers: &mut Vec<u64>, place: u64, end: u64) -> Result<(), OutOfMemory>
    ensures { OnOk result (numbers.new.items ≡ numbers.old.items ++ stretch place (end - place)) }
{
    for number in place..end {
        numbers.push(number + 1)?;
    }
    Ok(())
}

// The numbers that events of the part have in the whole.
fn numbers_of(alloc: Global, numbers: &[u64], chosen: &[u64]) -> Result<Vec<u64>, OutOfMemory>
    ensures { IfOk result (λ whole. whole.items ≡ through numbers.now chosen.now) }
{
    chosen
        .iter()
        .map(|own| number_at(numbers, *own))
        .collect(alloc)
}

/// The number in the whole of the event of the part with this number, by the numbers of the part; 0 where it has no such event.
pub fn number_at(numbers: &[u64], own: u64) -> u64
    ensures { result ≡ number_in numbers.now own }
{
    let index = own.saturating_sub(1) as usize;
    numbers.get(index).copied().unwrap_or(0)
}
