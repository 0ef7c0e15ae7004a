//! The tape of one thread.
ghost use Rattle.std.specs.Prelude.{◌≡◌, ℕ, ◌-◌, ◌<◌, [], length, slice_get, Some, true, IsTrue, ◌↔◌};
ghost use Rattle.pmt_recorder.specs.Strips.{strip, IsPart};

use crate::roll::Roll;
use pmt_model::{Event, Op, Range, WordStore};
use std::alloc::Global;
use std::marker::Model;
use std::sync::ledger::Share;

/// What one thread has appended: the numbers and ops of its events, and its share of the session's count of them.
#[derive(Drop)]
pub struct Tape<L: Roll> {
    pub(crate) thread: u8,
    pub(crate) entries: Vec<(u64, Op)>,
    pub(crate) share: Share<L>,
}

impl<L: Roll> Model for Tape<L> {
    ghost use Rattle.std.specs.Prelude.{◌≡◌, ◌<◌, length};
    ghost use Rattle.pmt_recorder.specs.Strips.{Strip, strip};

    ghost Value = { Strip };

    ghost view = { λ t. strip t.thread t.entries.items };

    ghost invariant = { λ t. (t.share.parts ≡ 1) × (t.share.amount ≡ length t.entries.items) × (t.thread < L.tapes) };
}

// Whether the two stores are the same.
fn same_store(one: &WordStore, other: &WordStore) -> bool
    ensures { IsTrue result ↔ (one.now ≡ other.now) }
{
    one.addr().get() == other.addr().get() && one.bytes() == other.bytes()
}

// Whether the two ranges are the same.
fn same_range(one: &Range, other: &Range) -> bool
    ensures { IsTrue result ↔ (one.now ≡ other.now) }
{
    one.addr().get() == other.addr().get() && one.len() == other.len()
}

// Whether the two ops are the same.
fn same_op(one: &Op, other: &Op) -> bool
    ensures { IsTrue result ↔ (one.now ≡ other.now) }
{
    match (one, other) {
        (Op::Store(a), Op::Store(b)) => same_store(a, b),
        (Op::Clwb(a), Op::Clwb(b)) => a.get() == b.get(),
        (Op::ClflushOpt(a), Op::ClflushOpt(b)) => a.get() == b.get(),
        (Op::Clflush(a), Op::Clflush(b)) => a.get() == b.get(),
        (Op::Sfence, Op::Sfence) => true,
        (Op::Mfence, Op::Mfence) => true,
        (Op::IsPersist(a), Op::IsPersist(b)) => same_range(a, b),
        (Op::IsOrderedBefore(a, b), Op::IsOrderedBefore(c, d)) => same_range(a, c)
            && same_range(b, d),
        _ => false,
    }
}

impl<L: Roll> Tape<L> {
    // A tape without entries.
    pub(crate) fn new(alloc: Global, thread: u8, share: Share<L>) -> Self
        requires part { share.parts ≡ 1 }
        requires none { share.amount ≡ 0 }
        requires within { thread < L.tapes }
        ensures { result ≡ strip thread [] }
    {
        Tape {
            thread,
            entries: Vec::new(alloc),
            share,
        }
    }

    /// The number of its thread.
    pub fn thread(&self) -> u8
        ensures value { result ≡ self.now.thread }
        ensures within { self.now.thread < L.tapes }
    {
        self.thread
    }

    /// How many events it has appended.
    pub fn len(&self) -> usize
        ensures { result ≡ length self.now.entries }
    {
        self.entries.len()
    }

    /// The number and op of its event at this place, from 0.
    pub fn get(&self, place: usize) -> Option<(u64, Op)>
        ensures { result ≡ slice_get self.now.entries place }
    {
        self.entries.get(place).copied()
    }

    // Whether its entry at this place, from 0, is this one.
    pub(crate) fn has_entry(&self, place: usize, number: u64, op: &Op) -> bool
        ensures { result ≡ true → slice_get self.now.entries place ≡ Some (number, op.now) }
    {
        match self.entries.get(place) {
            Some(entry) => entry.0 == number && same_op(&entry.1, op),
            None => false,
        }
    }

    // Whether the tape is its thread's part of the events.
    pub(crate) fn is_part(&self, events: &[Event]) -> bool
        ensures { IsTrue result ↔ IsPart self.now events.now }
    {
        let mut rest = self.entries.as_slice();
        let mut number = 0u64;
        for event in events {
            number += 1;
            if event.thread == self.thread {
                let Some((entry, others)) = rest.split_first() else {
                    return false;
                };
                if entry.0 != number || !same_op(&entry.1, &event.op) {
                    return false;
                }
                rest = others;
            }
        }
        rest.is_empty()
    }
}
