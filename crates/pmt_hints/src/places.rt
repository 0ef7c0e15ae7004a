//! Places that flushes come from.

ghost use Rattle.std.specs.Prelude.{◌≡◌, ◌||◌, ◌==◌, ℕ, false, nat_eq, replicate, unwrap_or, IfOk, OnOk};
ghost use Rattle.std.specs.HashMap.{get};
ghost use Rattle.pmt_model.specs.Traces.{event};
ghost use Rattle.pmt_hints.specs.Contrasts.{has_label as has_label_in, has_place, is_place, op_place as op_place_in, place_of as place_in};
ghost use Rattle.pmt_causes.specs.declared.failure_keys.Origin.{Origin};

use pmt_causes::{Origin, origin_of};
use pmt_model::{Op, OutOfMemory, Trace};
use std::alloc::Global;
use std::collections::HashMap;

// The place of the event, if it is a flush.
#[inline(always)]
pub(crate) fn flush_place(trace: &Trace, labels: &[Option<u64>], number: u64) -> Option<Origin>
    ensures { result ≡ place_in labels.now number (event trace.now number) }
{
    let Some(event) = trace.get(number) else {
        return None;
    };
    op_place(labels, number, event.thread, event.op)
}

// The place of the op with this number, if it is a flush.
#[inline(always)]
pub(crate) fn op_place(labels: &[Option<u64>], number: u64, thread: u8, op: Op) -> Option<Origin>
    ensures { result ≡ op_place_in labels.now number thread op }
{
    match op {
        Op::Clwb(_) | Op::ClflushOpt(_) => Some(origin_of(labels, number, thread)),
        Op::Store(_)
        | Op::Clflush(_)
        | Op::Sfence
        | Op::Mfence
        | Op::IsPersist(_)
        | Op::IsOrderedBefore(_, _) => None,
    }
}

/// Some places.
#[derive(Drop)]
pub(crate) struct Places {
    // Of each thread whether it is one.
    pub(crate) threads: [bool; 256],
    // The same of each label up to a number.
    pub(crate) labels: Vec<bool>,
    // The labels past that.
    pub(crate) rest: HashMap<u64, bool>,
}

impl Places {
    // No place yet, where events have these labels. Those that are numbers of these events get a flag.
    pub(crate) fn new(alloc: Global, labels: &[Option<u64>]) -> Result<Self, OutOfMemory>
        ensures { IfOk result (λ places. (p : Origin) → has_place places p ≡ false) }
    {
        let flags = vec![in alloc; false; labels.len().saturating_add(1)]?;
        Ok(no_places(alloc, flags))
    }

    // Whether the place is one of them.
    #[inline(always)]
    pub(crate) fn has(&self, place: Origin) -> bool
        ensures { result ≡ has_place self.now place }
    {
        match place {
            Origin::Label(label) => self.has_label(label),
            Origin::Thread(thread) => self.threads[thread as usize],
        }
    }

    // Whether the label is one of them.
    #[inline(always)]
    fn has_label(&self, label: u64) -> bool
        ensures { result ≡ has_label_in self.now label }
    {
        match self.labels.get(label as usize) {
            Some(flag) => *flag,
            None => self.rest.get(&label).copied().unwrap_or(false),
        }
    }

    // Adds the place, if it is one.
    pub(crate) fn add(&mut self, place: Option<Origin>) -> Result<(), OutOfMemory>
        ensures { OnOk result ((p : Origin) → has_place self.new p ≡ (has_place self.old p || is_place p place)) }
    {
        match place {
            None => Ok(()),
            Some(Origin::Label(label)) => self.add_label(label),
            Some(Origin::Thread(thread)) => {
                self.threads[thread as usize] = true;
                Ok(())
            }
        }
    }

    // Adds the label.
    fn add_label(&mut self, label: u64) -> Result<(), OutOfMemory>
        ensures threads { OnOk result (self.new.threads ≡ self.old.threads) }
        ensures labels { OnOk result ((l : ℕ) → has_label_in self.new l ≡ (has_label_in self.old l || label == l)) }
    {
        if label < self.labels.len() as u64 {
            self.labels[label as usize] = true;
            return Ok(());
        }
        self.rest.insert(label, true)?;
        Ok(())
    }
}

// No place, where none of these labels is one.
fn no_places(alloc: Global, labels: Vec<bool>) -> Places
    ensures threads { result.threads ≡ replicate 256 false }
    ensures labels { result.labels.items ≡ labels.items }
    ensures rest { (l : ℕ) → unwrap_or (get nat_eq result.rest l) false ≡ false }
{
    Places {
        threads: [false; 256],
        labels,
        rest: HashMap::new(alloc),
    }
}
