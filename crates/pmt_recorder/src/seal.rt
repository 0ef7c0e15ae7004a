//! What sealing a session compares: the tapes with the session's numbers, and each with its part of the book.

ghost use Rattle.std.specs.Prelude.{◌≡◌, ℕ, ◌<◌, ◌≤◌, true, length, slice_index, IsTrue, ◌↔◌, IfSome, IfNone};
ghost use Rattle.pmt_model.specs.Selections.{part};
ghost use Rattle.pmt_recorder.specs.Strips.{IsOneOfEach, has_thread, entries_of, IsPlaceOf, HasEntry, HasLength};

use crate::roll::Roll;
use crate::tape::Tape;
use pmt_model::Event;

// Whether some tape is of this thread.
fn has_tape<L: Roll>(tapes: &[Tape<L>], thread: usize) -> bool
    ensures { result ≡ has_thread thread tapes.now }
{
    tapes.iter().any(|tape| tape.thread() as usize == thread)
}

// Whether there are n tapes, one of each number below n.
pub(crate) fn is_one_of_each<L: Roll>(tapes: &[Tape<L>], n: usize) -> bool
    ensures { IsTrue result ↔ IsOneOfEach n tapes.now }
{
    if tapes.len() != n {
        return false;
    }
    for thread in 0..n {
        if !has_tape(tapes, thread) {
            return false;
        }
    }
    true
}

// The place of the first tape of this thread, which is there.
fn place_of<L: Roll>(tapes: &[Tape<L>], thread: usize) -> usize
    requires { has_thread thread tapes.now ≡ true }
    ensures { IsPlaceOf thread tapes.now result }
{
    for (place, tape) in tapes.iter().enumerate() {
        if tape.thread() as usize == thread {
            return place;
        }
    }
    unreachable!()
}

// The places of the tapes, by thread.
fn places_of<L: Roll>(tapes: &[Tape<L>]) -> [usize; 256]
    requires each { IsOneOfEach (length tapes.now) tapes.now }
    requires few { length tapes.now ≤ 256 }
    ensures { (t : ℕ) → t < length tapes.now → IsPlaceOf t tapes.now (slice_index result t) }
{
    let mut places = [0; 256];
    for thread in 0..tapes.len() {
        places[thread] = place_of(tapes, thread);
    }
    places
}

// Whether the tape at this place has the event with this number as its entry at the second place.
fn has_entry<L: Roll>(
    tapes: &[Tape<L>],
    place: usize,
    at: usize,
    number: u64,
    event: &Event,
) -> bool
    ensures { result ≡ true → HasEntry tapes.now place at number event.now.op }
{
    match tapes.get(place) {
        Some(tape) => tape.has_entry(at, number, &event.op),
        None => false,
    }
}

// Whether the tape at this place has just so many entries.
fn has_length<L: Roll>(tapes: &[Tape<L>], place: usize, len: usize) -> bool
    ensures { result ≡ true → HasLength tapes.now place len }
{
    match tapes.get(place) {
        Some(tape) => tape.len() == len,
        None => false,
    }
}

// Whether every tape has just so many entries, by thread.
fn have_lengths<L: Roll>(tapes: &[Tape<L>], places: &[usize; 256], lengths: &[usize; 256]) -> bool
    requires few { length tapes.now ≤ 256 }
    ensures { result ≡ true → (t : ℕ) → t < length tapes.now → HasLength tapes.now (slice_index places.now t) (slice_index lengths.now t) }
{
    for thread in 0..tapes.len() {
        if !has_length(tapes, places[thread], lengths[thread]) {
            return false;
        }
    }
    true
}

fn thread_of(event: &Event) -> usize
    ensures value { result ≡ event.now.thread }
    ensures small { result < 256 }
{
    event.thread as usize
}

fn zeros() -> [usize; 256]
    ensures { (t : ℕ) → slice_index result t ≡ 0 }
{
    [0; 256]
}

// Whether every tape is its part of the events: in one pass over them, each is the next entry of its tape.
fn are_parts<L: Roll>(events: &[Event], tapes: &[Tape<L>]) -> bool
    requires each { IsOneOfEach (length tapes.now) tapes.now }
    requires few { length tapes.now ≤ 256 }
    ensures { result ≡ true → (t : ℕ) → t < length tapes.now → part t events.now ≡ entries_of t tapes.now }
{
    let places = places_of(tapes);
    let mut next = zeros();
    let mut number = 0u64;
    for event in events {
        number += 1;
        let thread = thread_of(event);
        if !has_entry(tapes, places[thread], next[thread], number, event) {
            return false;
        }
        next[thread] += 1;
    }
    have_lengths(tapes, &places, &next)
}

// Whether the tape of this thread, which is there, is its part of the events.
fn has_part<L: Roll>(events: &[Event], tapes: &[Tape<L>], thread: u8) -> bool
    requires { has_thread thread tapes.now ≡ true }
    ensures { IsTrue result ↔ (part thread events.now ≡ entries_of thread tapes.now) }
{
    for tape in tapes {
        if tape.thread() == thread {
            return tape.is_part(events);
        }
    }
    unreachable!()
}

// The lowest number whose tape is not its part of the events.
pub(crate) fn lowest_torn<L: Roll>(events: &[Event], tapes: &[Tape<L>]) -> Option<u8>
    requires each { IsOneOfEach (length tapes.now) tapes.now }
    requires few { length tapes.now ≤ 256 }
    ensures within { IfSome result (λ t. t < length tapes.now) }
    ensures torn { IfSome result (λ t. ¬ (part t events.now ≡ entries_of t tapes.now)) }
    ensures lowest { IfSome result (λ t. (u : ℕ) → u < t → part u events.now ≡ entries_of u tapes.now) }
    ensures none { IfNone result ((u : ℕ) → u < length tapes.now → part u events.now ≡ entries_of u tapes.now) }
{
    if are_parts(events, tapes) {
        return None;
    }
    for thread in 0..tapes.len() {
        if !has_part(events, tapes, thread as u8) {
            return Some(thread as u8);
        }
    }
    None
}
