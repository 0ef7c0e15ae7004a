//! The story of a store that is never persisted, or late: the few events that tell why it is not safe, and what makes it so.

ghost use Rattle.std.specs.Prelude.{◌≡◌, ℕ, suc, ◌-◌, ◌<◌, ◌≤◌, ◌⊎◌, ◌↔◌, length, true, IfOk, MatchOption};
ghost use Rattle.pmt_laws.specs.Prelude.{Written, line_of as line_in, Recording, Has, IsFlushOf, IsSafe};
ghost use Rattle.pmt_slices.specs.Slices.{IsFirstFlush, Chooses, IsFate, IsStoreBy};
ghost use Rattle.pmt_slices.specs.Stories.{AreOthers, IsOfOthers, IsOfStory, IsOther, IsStoreAt, IsStoreStory, IsStoreTold, turn_of as turn_in};

use crate::choosing::{choose, choose_store, nothing};
use crate::store_slicing::{Fate, fate_of};
use pmt_model::{Format, Op, OutOfMemory, Selection, Trace, WordStore, line_of};
use pmt_tables::marked_numbers;
use std::alloc::Global;

// The most flushes of other lines that a story has, but for the last one.
const FEW: usize = 3;

/// What an event is in the story of a store; of several, the one that stands first here.
#[derive(Clone, Copy)]
pub enum StorePart {
    /// The store.
    Store,
    /// The next fence of its thread, which leaves it unsafe.
    OwnFence,
    /// The fence or clflush that makes it safe.
    Saves,
    /// The first flush of its line after it.
    Flush,
    /// The first flush of its line by the thread of the fence that makes it safe.
    Cover,
    /// The first fence after the first flush, which leaves it unsafe.
    Fence,
    /// A flush of another line that its thread makes before its next fence, and before it flushes the store's line.
    Other,
}

/// What becomes of a store: its thread's flushes of other lines and next fence, and what tells whether and why it is safe up to the end.
#[derive(Drop)]
pub struct StoreStory {
    numbers: Selection,
    store: u64,
    others: Selection,
    fate: Fate,
    end: u64,
}

// What an event of the store's thread is to its line.
#[derive(Clone, Copy)]
pub(crate) enum Turn {
    // Neither a flush nor a fence.
    Nothing,
    // A flush of another line.
    Other,
    // A flush of the line, or a fence.
    Stop,
}

impl StoreStory {
    /// The rising numbers of its events.
    pub fn numbers(&self) -> &[u64]
        ensures { result.now ≡ self.now.numbers }
    {
        self.numbers.numbers()
    }

    /// What the event of the story with this number is.
    pub fn part(&self, number: u64) -> StorePart
        ensures { (T : Recording) (n : ℕ) → (is : IsStoreStory T n self.now) → Has self.now.numbers number → IsStoreTold T is.thread (line_in T.format is.what.addr) n result number }
    {
        let coming = self.fate.coming;
        if number == self.store {
            StorePart::Store
        } else if number == coming.safe {
            StorePart::Saves
        } else if self.fate.first < coming.safe && number == self.fate.first {
            StorePart::OwnFence
        } else if number == coming.flush {
            StorePart::Flush
        } else if coming.safe <= self.end && number == coming.cover {
            StorePart::Cover
        } else if coming.fence <= coming.safe
            && coming.flush <= self.end
            && number == coming.fence
        {
            StorePart::Fence
        } else {
            StorePart::Other
        }
    }

    /// How many flushes of other lines are left out before the last one.
    pub fn left_out(&self) -> usize
        ensures { result ≡ (length self.now.others) - 4 }
    {
        self.others.numbers().len().saturating_sub(FEW + 1)
    }

    /// The first flush of the store's line after it, if there is one.
    pub fn flush(&self) -> Option<u64>
        ensures { (T : Recording) (n : ℕ) → (is : IsStoreStory T n self.now) → MatchOption result ((k : ℕ) → n < k → ¬ IsFlushOf T (line_in T.format is.what.addr) k) (IsFirstFlush T (line_in T.format is.what.addr) n) }
    {
        if self.fate.coming.flush <= self.end {
            Some(self.fate.coming.flush)
        } else {
            None
        }
    }

    /// Whether the store is safe by the end.
    pub fn is_safe(&self) -> bool
        ensures { (T : Recording) (n : ℕ) → (is : IsStoreStory T n self.now) → (result ≡ true) ↔ IsSafe T (line_in T.format is.what.addr) (length T.events) n }
    {
        self.fate.coming.safe <= self.end
    }
}

/// The story of the store with this number; none where the event is no store.
///
/// It takes three looks at each event after the store at most, and two flags for each event.
///
/// # Errors
/// Where memory was refused.
pub fn store_story_of(
    alloc: Global,
    trace: &Trace,
    number: u64,
) -> Result<Option<StoreStory>, OutOfMemory>
    ensures { IfOk result (λ o. MatchOption o (¬ IsStoreAt trace.now number) (IsStoreStory trace.now number)) }
{
    let Some(event) = trace.get(number) else {
        return Ok(None);
    };
    let thread = event.thread;
    let op = event.op;
    match op {
        Op::Store(store) => Ok(Some(story_with(alloc, trace, number, thread, store)?)),
        Op::Clwb(_)
        | Op::ClflushOpt(_)
        | Op::Clflush(_)
        | Op::Sfence
        | Op::Mfence
        | Op::IsPersist(_)
        | Op::IsOrderedBefore(_, _) => Ok(None),
    }
}

// The story of this store by the thread.
fn story_with(
    alloc: Global,
    trace: &Trace,
    number: u64,
    thread: u8,
    store: WordStore,
) -> Result<StoreStory, OutOfMemory>
    requires store { IsStoreBy trace.now thread store number }
    ensures { IfOk result (IsStoreStory trace.now number) }
{
    let fate = fate_of(alloc, trace, number, thread, store)?;
    let line = line_of(trace.format(), store.addr());
    let others = others_of(alloc, trace, thread, line, number)?;
    let mut chosen = nothing(alloc, trace.len())?;
    choose_story(chosen.as_mut_slice(), number, fate, others.numbers());
    let numbers = marked_numbers(alloc, chosen.as_slice())?;
    Ok(StoreStory {
        numbers,
        store: number,
        others,
        fate,
        end: trace.len() as u64,
    })
}

// The flushes of other lines than this one that the thread makes after event `number`, before it fences or flushes the line.
fn others_of(
    alloc: Global,
    trace: &Trace,
    thread: u8,
    line: u64,
    number: u64,
) -> Result<Selection, OutOfMemory>
    ensures { IfOk result (AreOthers trace.now thread line number) }
{
    let mut chosen = nothing(alloc, trace.len())?;
    choose_all(chosen.as_mut_slice(), trace, thread, line, number);
    let numbers = marked_numbers(alloc, chosen.as_slice())?;
    Ok(numbers)
}

// Chooses these flushes.
fn choose_all(chosen: &mut [bool], trace: &Trace, thread: u8, line: u64, number: u64)
    ensures { Chooses (IsOther trace.now thread line number) chosen.old chosen.new }
{
    let format = trace.format();
    let events = trace.events();
    for index in number as usize..events.len() {
        let event = events[index];
        if event.thread == thread {
            match turn_of(format, line, event.op) {
                Turn::Nothing => {}
                Turn::Other => choose(chosen, index as u64 + 1),
                Turn::Stop => return,
            }
        }
    }
}

// What the op is to the line.
fn turn_of(format: Format, line: u64, op: Op) -> Turn
    ensures { result ≡ turn_in format line op }
{
    match op {
        Op::Clwb(addr) | Op::ClflushOpt(addr) | Op::Clflush(addr) => {
            if line_of(format, addr) == line {
                Turn::Stop
            } else {
                Turn::Other
            }
        }
        Op::Sfence | Op::Mfence => Turn::Stop,
        Op::Store(_) | Op::IsPersist(_) | Op::IsOrderedBefore(_, _) => Turn::Nothing,
    }
}

// Chooses the store, what tells of it, the fence that leaves it unsafe, and a few of the flushes of other lines.
fn choose_story(chosen: &mut [bool], number: u64, fate: Fate, others: &[u64])
    ensures { Chooses (IsOfStory number fate others.now (length chosen.old)) chosen.old chosen.new }
{
    choose_store(chosen, number, fate.coming);
    if fate.first < fate.coming.safe {
        choose(chosen, fate.first);
    }
    choose_others(chosen, others);
}

// Chooses the first few of these events, and the last one.
fn choose_others(chosen: &mut [bool], others: &[u64])
    ensures { Chooses (IsOfOthers others.now) chosen.old chosen.new }
{
    for index in 0..others.len() {
        if is_shown(index, others.len()) {
            choose(chosen, others[index]);
        }
    }
}

// Whether the event at this place of so many is one of the first few, or the last one.
fn is_shown(index: usize, count: usize) -> bool
    requires { index < count }
    ensures { (result ≡ true) ↔ ((index < 3) ⊎ (suc index ≡ count)) }
{
    index < FEW || index == count - 1
}
