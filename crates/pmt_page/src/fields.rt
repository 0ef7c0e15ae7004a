//! Columns of numbers.
ghost use Rattle.std.specs.Prelude.{◌≡◌, ◌∷◌, ◌++◌, [], map, OnOk};
ghost use Rattle.std.specs.List.{flat_map};
ghost use Rattle.pmt_page.specs.Columns.{safe_field, verdict_letter as letter_of, listed, step, steps};

use crate::digits::push_short;
use crate::known::SafePlace;
use pmt_model::{OutOfMemory, Verdict};

/// Adds the steps from 0 through the numbers, each with a comma behind it.
///
/// # Errors
/// Where memory was refused. The text may then have some of them.
pub(crate) fn push_steps(text: &mut Vec<u8>, numbers: &[u64]) -> Result<(), OutOfMemory>
    ensures { OnOk result (text.new.items ≡ text.old.items ++ steps 0 numbers.now) }
{
    let mut before = 0;
    for number in numbers {
        push_step(text, before, *number)?;
        before = *number;
    }
    Ok(())
}

// Adds the step from one number to the next, and a comma.
fn push_step(text: &mut Vec<u8>, before: u64, number: u64) -> Result<(), OutOfMemory>
    ensures { OnOk result (text.new.items ≡ text.old.items ++ (step before number ++ 44 ∷ [])) }
{
    push_way(text, before, number)?;
    text.push(b',')?;
    Ok(())
}

// Adds how far it is, with a - before the way back.
fn push_way(text: &mut Vec<u8>, before: u64, number: u64) -> Result<(), OutOfMemory>
    ensures { OnOk result (text.new.items ≡ text.old.items ++ step before number) }
{
    if number < before {
        text.push(b'-')?;
        return push_short(text, before - number);
    }
    push_short(text, number - before)
}

/// Adds of each store from how many events after its own number on it is safe.
///
/// # Errors
/// Where memory was refused. The text may then have some of them.
pub(crate) fn push_safe(text: &mut Vec<u8>, safe: &[SafePlace]) -> Result<(), OutOfMemory>
    ensures { OnOk result (text.new.items ≡ text.old.items ++ listed safe_field safe.now) }
{
    match safe {
        [] => Ok(()),
        [first, later @ ..] => {
            push_delay(text, first)?;
            push_delays(text, later)
        }
    }
}

// Adds these, each behind a comma.
fn push_delays(text: &mut Vec<u8>, safe: &[SafePlace]) -> Result<(), OutOfMemory>
    ensures { OnOk result (text.new.items ≡ text.old.items ++ flat_map (λ s. 44 ∷ safe_field s) safe.now) }
{
    for one in safe {
        push_later_delay(text, one)?;
    }
    Ok(())
}

// Adds one behind a comma.
fn push_later_delay(text: &mut Vec<u8>, safe: &SafePlace) -> Result<(), OutOfMemory>
    ensures { OnOk result (text.new.items ≡ text.old.items ++ (44 ∷ safe_field safe.now)) }
{
    text.push(b',')?;
    push_delay(text, safe)
}

fn push_delay(text: &mut Vec<u8>, safe: &SafePlace) -> Result<(), OutOfMemory>
    ensures { OnOk result (text.new.items ≡ text.old.items ++ safe_field safe.now) }
{
    match safe.place {
        None => {
            text.push(b'-')?;
            Ok(())
        }
        Some(place) => push_short(text, place.saturating_sub(safe.store)),
    }
}

/// Adds a letter for each verdict.
///
/// # Errors
/// Where memory was refused. The text may then have some of them.
pub(crate) fn push_verdicts(text: &mut Vec<u8>, verdicts: &[Verdict]) -> Result<(), OutOfMemory>
    ensures { OnOk result (text.new.items ≡ text.old.items ++ map letter_of verdicts.now) }
{
    for verdict in verdicts {
        text.push(verdict_letter(verdict))?;
    }
    Ok(())
}

fn verdict_letter(verdict: &Verdict) -> u8
    ensures { result ≡ letter_of verdict.now }
{
    if verdict.pass { b'p' } else { b'f' }
}
