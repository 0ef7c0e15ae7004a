//! What stands beside a part: for which events it answers, what it carries, and what it sets aside.

use crate::files::Turn;
use command_requests::PartsWords;
use pmt_asked::ByteRange;
use pmt_parts::{Part, number_at, place_in};
use std::alloc::{AllocError, Global};

/// The text beside the part, which sets these of its events aside.
///
/// # Errors
/// `OutOfMemory`.
pub(crate) fn part_text(
    alloc: Global,
    words: &PartsWords<'_>,
    part: &Part,
    turn: &Turn,
    aside: &[u64],
) -> Result<Vec<u8>, AllocError> {
    let numbers = part.numbers.as_slice();
    let carried = place_in(numbers, part.place);
    let number = turn.number;
    let last = match turn.is_last {
        true => "yes",
        false => "no",
    };
    let Part {
        trace: _,
        numbers: _,
        place,
        before,
        end,
    } = part;
    let overlap = before.saturating_sub(*place);
    let first = before.saturating_add(1);
    let head = format!(in alloc;
        "part {number}\nplace {place}\ncarried {carried}\noverlap {overlap}\nanswers {first} {end}\nlast {last}\n"
    )?;
    let mut text = Vec::new(alloc);
    text.extend_from_slice(head.as_bytes())?;
    for ByteRange { addr, len } in &words.ignored {
        let line = format!(in alloc; "ignored {addr:#x}:{len}\n")?;
        text.extend_from_slice(line.as_bytes())?;
    }
    for own in 1..=carried {
        push_pair(alloc, &mut text, "carries", own, number_at(numbers, own))?;
    }
    for own in aside {
        push_pair(alloc, &mut text, "aside", *own, number_at(numbers, *own))?;
    }
    Ok(text)
}

// Adds the line of an event: this word, and its number in the part and in the whole.
fn push_pair(
    alloc: Global,
    text: &mut Vec<u8>,
    word: &str,
    own: u64,
    whole: u64,
) -> Result<(), AllocError> {
    let line = format!(in alloc; "{word} {own} {whole}\n")?;
    text.extend_from_slice(line.as_bytes())
}
