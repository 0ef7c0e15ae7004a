//! What is kept of one line.
ghost use Rattle.std.specs.Prelude.{◌≡◌, ◌<◌, reverse, IfOk, MatchOption};
ghost use Rattle.pmt_trim.specs.Kept.{IsJobKept, is_kept, waiting_before, LastIsAt, LastIsElsewhere};

use pmt_lines::{LineResult, StepKind};
use pmt_model::OutOfMemory;
use std::alloc::Global;

/// The rising numbers of the line's useful flushes and clflushes, and of the fences that raise its front: in whatever trace the
/// result's job is the line's.
///
/// # Errors
/// Where memory was refused.
pub fn line_kept(alloc: Global, found: &LineResult) -> Result<Vec<u64>, OutOfMemory>
    ensures { IfOk result (λ kept. IsJobKept found.now.job kept.items) }
{
    let mut kept = kept_back(alloc, found)?;
    kept.reverse();
    Ok(kept)
}

// The line's numbers, from the last one to the first. A raise keeps its fence or clflush, and at most one flush.
fn kept_back(alloc: Global, found: &LineResult) -> Result<Vec<u64>, OutOfMemory>
    ensures { IfOk result (λ kept. IsJobKept found.now.job (reverse kept.items)) }
{
    let steps = found.job().steps();
    let mut raises = found.raises();
    let mut waiting = [false; 256];
    let mut kept = Vec::with_capacity(alloc, raises.len().saturating_mul(2))?;
    for i in (0..steps.len()).rev() {
        let step = steps[i];
        let before = raises_before(raises, step.number);
        raises = before.unwrap_or(raises);
        if go_back(step.kind, step.thread, before.is_some(), &mut waiting) {
            kept.push(step.number)?;
        }
    }
    Ok(kept)
}

// The raises before the last one, if that one is at this place.
fn raises_before(raises: &[(u64, u64)], place: u64) -> Option<&[(u64, u64)]>
    ensures { MatchOption result (LastIsElsewhere raises.now place) (λ before. LastIsAt raises.now place before.now) }
{
    let (last, before) = raises.split_last()?;
    if last.0 == place { Some(before) } else { None }
}

// Goes back over a step, which raises the front or not: true where it is kept.
fn go_back(kind: StepKind, thread: u8, rises: bool, waiting: &mut [bool; 256]) -> bool
    ensures kept { result ≡ is_kept kind thread rises waiting.old }
    ensures waits { waiting.new ≡ waiting_before kind thread rises waiting.old }
    ensures small { thread < 256 }
{
    let thread = thread as usize;
    match kind {
        StepKind::Store { .. } => false,
        StepKind::Flush => {
            let kept = waiting[thread];
            waiting[thread] = false;
            kept
        }
        StepKind::Clflush => rises,
        StepKind::Fence => {
            waiting[thread] = rises;
            rises
        }
    }
}
