//! The numbers of labels.
ghost use Rattle.std.specs.Prelude.{◌≡◌, ◌+◌, ◌-◌, ◌^◌, ◌<◌, ℕ, List, Some, IfOk, OnOk, bytes_eq, if◌then◌else◌, unwrap_or};
ghost use Rattle.pmt_explanation.specs.Summing.{AreFirsts, AreLabelNumbers, IsLabelNumber, first_in};

use pmt_asked::Labels;
use pmt_model::OutOfMemory;
use std::alloc::Global;
use std::collections::HashMap;

// The first event with each label, by its text.
pub(crate) type Firsts<'a> = HashMap<&'a str, u64>;

// Of each of so many events, in order, the number of its label: that of the first event with it. None where it has no label; nothing at
// all where no event has one.
pub(crate) fn label_numbers(
    alloc: Global,
    labels: &Labels,
    events: usize,
) -> Result<Vec<Option<u64>>, OutOfMemory>
    ensures { IfOk result (λ numbers. AreLabelNumbers labels.now events numbers.items) }
{
    if labels.is_empty() {
        return Ok(Vec::new(alloc));
    }
    let mut firsts = HashMap::new(alloc);
    let mut numbers = Vec::with_capacity(alloc, events)?;
    for index in 0..events {
        let number = next_number(&mut firsts, labels, index as u64)?;
        numbers.push(number)?;
    }
    Ok(numbers)
}

// The number of the label of the event after so many, and notes the label.
fn next_number<'a>(
    firsts: &mut Firsts<'a>,
    labels: &'a Labels,
    events: u64,
) -> Result<Option<u64>, OutOfMemory>
    requires few { events < 2 ^ 64 - 1 }
    requires before { AreFirsts labels.now events (first_in firsts.old) }
    ensures number { IfOk result (IsLabelNumber labels.now (events + 1)) }
    ensures after { OnOk result (AreFirsts labels.now (events + 1) (first_in firsts.new)) }
{
    let Some(text) = labels.get(events + 1) else {
        return Ok(None);
    };
    let first = first_with(firsts, text.as_str(), events + 1)?;
    Ok(Some(first))
}

// The first event with the text, which is this one where there is none yet.
pub(crate) fn first_with<'a>(
    firsts: &mut Firsts<'a>,
    text: &'a str,
    event: u64,
) -> Result<u64, OutOfMemory>
    ensures first { IfOk result (λ first. first ≡ unwrap_or (first_in firsts.old text.now) event) }
    ensures firsts { OnOk result ((q : List ℕ) → first_in firsts.new q ≡ (if bytes_eq text.now q then Some (unwrap_or (first_in firsts.old text.now) event) else first_in firsts.old q)) }
{
    if let Some(first) = firsts.get(text).copied() {
        return Ok(first);
    }
    firsts.insert(text, event)?;
    Ok(event)
}
