//! The story of a failed assertion: the few events of its slice that tell of the store that its crash loses.

ghost use Rattle.std.specs.Prelude.{◌≡◌, ℕ, ◌≤◌, ◌⊎◌, length, Some, IfOk, MatchOption};
ghost use Rattle.pmt_explain.specs.Prelude.{line_of as line_in, Stores, Recording, IsAct, Has, option_map, Failure};
ghost use Rattle.pmt_slices.specs.Slices.{Chooses, IsOfFailure};
ghost use Rattle.pmt_slices.specs.Stories.{HasLost, IsStory, IsTold};

use crate::after::coming_after;
use crate::choosing::{choose, choose_store, only};
use crate::coming::Coming;
use pmt_model::{Op, OutOfMemory, Selection, Trace, WordStore};
use pmt_reasons::Failure;
use pmt_tables::marked_numbers;
use std::alloc::Global;

/// What an event is in a story; of several, the one that stands first here.
#[derive(Clone, Copy)]
pub enum StoryPart {
    /// The assertion that fails.
    Assertion,
    /// The store that its crash loses.
    Lost,
    /// The store that its crash keeps.
    Kept,
    /// The fence or clflush that makes the lost store safe.
    Saves,
    /// The first flush of the lost store's line after it.
    Flush,
    /// The first flush of that line by the thread of the fence that makes the lost store safe.
    Cover,
    /// The first fence after the first flush, which makes the lost store not safe.
    Fence,
}

/// What becomes of the store that the crash of a failed assertion loses: up to the assertion what tells of it in the assertion's slice, and
/// the store that the crash keeps.
#[derive(Drop)]
pub struct Story {
    numbers: Selection,
    assertion: u64,
    lost: u64,
    kept: Option<u64>,
    coming: Coming,
}

impl Story {
    /// The rising numbers of its events.
    pub fn numbers(&self) -> &[u64]
        ensures { result.now ≡ self.now.numbers }
    {
        self.numbers.numbers()
    }

    /// What the event of the story with this number is.
    pub fn part(&self, number: u64) -> StoryPart
        ensures { (T : Recording) (n : ℕ) (f : Failure) → (is : IsStory T n f self.now) → Has self.now.numbers number → IsTold T n is.lost_one.line f result number }
    {
        if number == self.assertion {
            StoryPart::Assertion
        } else if number == self.lost {
            StoryPart::Lost
        } else if self.kept == Some(number) {
            StoryPart::Kept
        } else if number == self.coming.safe {
            StoryPart::Saves
        } else if number == self.coming.flush {
            StoryPart::Flush
        } else if self.coming.safe <= self.assertion && number == self.coming.cover {
            StoryPart::Cover
        } else {
            StoryPart::Fence
        }
    }
}

/// The story of the assertion with this number, whose crash is that of the failure. None where the lost store is none of the first `number`
/// events, or there are fewer.
///
/// It takes one look at each event between the lost store and the assertion, and a flag for each event up to it.
///
/// # Errors
/// Where memory was refused.
pub fn story_of(
    alloc: Global,
    trace: &Trace,
    number: u64,
    failure: &Failure,
) -> Result<Option<Story>, OutOfMemory>
    ensures { IfOk result (λ o. MatchOption o (¬ HasLost trace.now number failure.now) (IsStory trace.now number failure.now)) }
{
    let lost = failure.lost.store;
    if number > trace.len() as u64 || lost > number {
        return Ok(None);
    }
    let Some(event) = trace.get(lost) else {
        return Ok(None);
    };
    let op = event.op;
    match op {
        Op::Store(store) => Ok(Some(story_with(alloc, trace, number, failure, store)?)),
        Op::Clwb(_)
        | Op::ClflushOpt(_)
        | Op::Clflush(_)
        | Op::Sfence
        | Op::Mfence
        | Op::IsPersist(_)
        | Op::IsOrderedBefore(_, _) => Ok(None),
    }
}

// The story of the assertion, whose crash loses this store.
fn story_with(
    alloc: Global,
    trace: &Trace,
    number: u64,
    failure: &Failure,
    store: WordStore,
) -> Result<Story, OutOfMemory>
    requires store { IsAct trace.now failure.now.lost.store (Stores (line_in trace.now.format store.addr) store) }
    requires order { failure.now.lost.store ≤ number }
    requires within { number ≤ length trace.now.events }
    ensures { IfOk result (IsStory trace.now number failure.now) }
{
    let lost = failure.lost.store;
    let coming = coming_after(alloc, trace, store.addr(), lost, number)?;
    let mut chosen = only(alloc, number)?;
    choose_failure(chosen.as_mut_slice(), failure, coming);
    let numbers = marked_numbers(alloc, chosen.as_slice())?;
    Ok(Story {
        numbers,
        assertion: number,
        lost,
        kept: kept_store(failure),
        coming,
    })
}

// The store that the crash keeps.
fn kept_store(failure: &Failure) -> Option<u64>
    ensures { result ≡ option_map (λ y. y.store) failure.now.kept }
{
    failure.kept.map(|kept| kept.store)
}

// Chooses the kept store, and what tells of the lost one.
fn choose_failure(chosen: &mut [bool], failure: &Failure, coming: Coming)
    ensures { Chooses (IsOfFailure failure.now coming (length chosen.old)) chosen.old chosen.new }
{
    if let Some(kept) = failure.kept {
        choose(chosen, kept.store);
    }
    choose_store(chosen, failure.lost.store, coming);
}
