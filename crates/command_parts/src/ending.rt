//! Why a part ends where it does: the file FILE.cut beside it.

use crate::files::Turn;
use pmt_asked::Cut;
use pmt_parts::Part;
use std::alloc::{AllocError, Global};

/// The text of that file: that the run goes on, or of the last part why the whole was cut there. None of a last part after which nothing came.
///
/// # Errors
/// `OutOfMemory`.
pub(crate) fn cut_text(
    alloc: Global,
    part: &Part,
    turn: &Turn,
    whole: Option<&Cut>,
) -> Result<Option<Vec<u8>>, AllocError> {
    let last = part.trace.len();
    if !turn.is_last {
        let next = turn.number.saturating_add(1);
        let line = format!(in alloc; "{last} the run goes on in part {next}\n")?;
        return Ok(Some(line.into_bytes()));
    }
    let Some(cut) = whole else {
        return Ok(None);
    };
    if cut.event.is_none() && cut.why.is_empty() {
        return Ok(Some(Vec::new(alloc)));
    }
    let why = cut.why.as_str();
    let line = format!(in alloc; "{last} {why}\n")?;
    Ok(Some(line.into_bytes()))
}
