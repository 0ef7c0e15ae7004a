//! The numbers of innermost frames.
ghost use Rattle.std.specs.Prelude.{◌≡◌, ◌+◌, ◌-◌, ◌^◌, ◌<◌, length, IfOk, OnOk};
ghost use Rattle.pmt_explanation.specs.Summing.{AreFirstFrames, AreFrameNumbers, IsFrameNumber, AreLabelNumbers, IsLabelNumber, first_in};

use crate::numbering::{Firsts, first_with};
use pmt_asked::{Labels, frame_of};
use pmt_model::OutOfMemory;
use std::alloc::Global;
use std::collections::HashMap;

// Of each of so many events, in order, the number of its innermost frame: that of the first event which has it. None where the event has
// no label. `numbers` are the numbers of their labels.
pub(crate) fn frame_numbers(
    alloc: Global,
    labels: &Labels,
    numbers: &[Option<u64>],
    events: usize,
) -> Result<Vec<Option<u64>>, OutOfMemory>
    requires { AreLabelNumbers labels.now events numbers.now }
    ensures { IfOk result (λ frames. AreFrameNumbers labels.now events frames.items) }
{
    let mut firsts = HashMap::new(alloc);
    let mut frames = Vec::with_capacity(alloc, numbers.len())?;
    for index in 0..numbers.len() {
        let number = numbers[index];
        let frame = next_frame(&mut firsts, labels, frames.as_slice(), number, index as u64)?;
        frames.push(frame)?;
    }
    Ok(frames)
}

// The number of the innermost frame of the event after so many, which has this number of a label, and notes the frame.
fn next_frame<'a>(
    firsts: &mut Firsts<'a>,
    labels: &'a Labels,
    frames: &[Option<u64>],
    number: Option<u64>,
    events: u64,
) -> Result<Option<u64>, OutOfMemory>
    requires few { events < 2 ^ 64 - 1 }
    requires size { length frames.now ≡ events }
    requires frames { AreFrameNumbers labels.now events frames.now }
    requires number { IsLabelNumber labels.now (events + 1) number }
    requires before { AreFirstFrames labels.now events (first_in firsts.old) }
    ensures number { IfOk result (IsFrameNumber labels.now (events + 1)) }
    ensures after { OnOk result (AreFirstFrames labels.now (events + 1) (first_in firsts.new)) }
{
    let Some(first) = number else {
        return Ok(None);
    };
    if first <= events {
        return Ok(frames[first as usize - 1]);
    }
    let Some(text) = labels.get(first) else {
        return Ok(None);
    };
    let frame = first_with(firsts, frame_of(text.as_str()), events + 1)?;
    Ok(Some(frame))
}
