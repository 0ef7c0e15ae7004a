//! The column of what has no effect.
ghost use Rattle.std.specs.Prelude.{◌≡◌, ℕ, ◌+◌, ◌<◌, ◌==◌, ◌++◌, if◌then◌else◌, length, get_or, IfOk, OnOk};
ghost use Rattle.pmt_page.specs.Columns.{dropped_letter, dropped_letters, reason_letter as letter_of};

use crate::events::may_be_dropped;
use pmt_explain::Dropped;
use pmt_model::{Event, OutOfMemory};
use pmt_reasons::Reason;
use std::alloc::Global;

fn reason_letter(reason: Reason) -> u8
    ensures { result ≡ letter_of reason }
{
    match reason {
        Reason::Safe => b's',
        Reason::Unfenced => b'u',
        Reason::Repeated { by: _ } => b'r',
        Reason::Overtaken { by: _ } => b'o',
        Reason::Empty => b'e',
        Reason::Useless => b'z',
    }
}

/// Adds a letter for each flush and fence: why it is dropped.
///
/// # Errors
/// Where memory was refused. The text may then have some of them.
pub(crate) fn push_dropped(
    alloc: Global,
    text: &mut Vec<u8>,
    events: &[Event],
    dropped: &[Dropped],
) -> Result<(), OutOfMemory>
    ensures { OnOk result (text.new.items ≡ text.old.items ++ dropped_letters dropped.now 1 events.now) }
{
    let letters = letters_of(alloc, events.len(), dropped)?;
    for index in 0..events.len() {
        if may_be_dropped(&events[index].op) {
            text.push(letters[index])?;
        }
    }
    Ok(())
}

// The letter of each of so many events.
fn letters_of(alloc: Global, count: usize, dropped: &[Dropped]) -> Result<Vec<u8>, OutOfMemory>
    ensures long { IfOk result (λ v. length v.items ≡ count) }
    ensures each { IfOk result (λ v. (i : ℕ) → i < count → get_or v.items i 0 ≡ dropped_letter dropped.now (i + 1)) }
{
    let mut letters = vec![in alloc; b'-'; count]?;
    for index in (0..dropped.len()).rev() {
        note(letters.as_mut_slice(), dropped[index]);
    }
    Ok(letters)
}

// Notes the letter of the dropped event, if there is such an event.
fn note(letters: &mut [u8], dropped: Dropped)
    ensures { (i : ℕ) → i < length letters.old → get_or letters.new i 0 ≡ (if dropped.event == i + 1 then letter_of dropped.reason else get_or letters.old i 0) }
{
    if dropped.event >= 1 && dropped.event <= letters.len() as u64 {
        letters[dropped.event as usize - 1] = reason_letter(dropped.reason);
    }
}
