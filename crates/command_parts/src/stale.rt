//! Files of an earlier run that are not written anew.

use crate::files::{check_outputs, part_name};
use command_inputs::{Fault, Opener, Output, remove_all};
use command_requests::PartsWords;
use std::alloc::Global;

/// Removes the parts of an earlier run that stand after the one with this number.
///
/// # Errors
/// A usage fault where one of them is read; `OutOfMemory`.
pub(crate) fn remove_later<O: Opener>(
    alloc: Global,
    words: &PartsWords<'_>,
    files: &O,
    last: u64,
) -> Result<(), Fault> {
    for number in last..u64::MAX {
        let name = part_name(alloc, words.out, number.saturating_add(1))?;
        if !is_there(files, name.as_str()) {
            return Ok(());
        }
        remove_part(alloc, words, files, name.as_str(), number.saturating_add(1))?;
    }
    Ok(())
}

// Whether there is a file with this name.
fn is_there<O: Opener>(files: &O, name: &str) -> bool {
    matches!(files.size(name), Ok(Some(_)))
}

// Removes the files of the part with this name and number, none of which is read.
fn remove_part<O: Opener>(
    alloc: Global,
    words: &PartsWords<'_>,
    files: &O,
    name: &str,
    number: u64,
) -> Result<(), Fault> {
    remove_named(alloc, words, files, name, &["", ".part"])?;
    remove_beside(alloc, words, files, name, number)
}

/// Removes what an earlier run left beside the part with this name and number. The bytes of pools beside the first part are those of the
/// whole, and stay.
///
/// # Errors
/// A usage fault where one of the files is read; `OutOfMemory`.
pub(crate) fn remove_beside<O: Opener>(
    alloc: Global,
    words: &PartsWords<'_>,
    files: &O,
    name: &str,
    number: u64,
) -> Result<(), Fault> {
    remove_named(
        alloc,
        words,
        files,
        name,
        &[".cut", ".labels", ".ignore", ".missing"],
    )?;
    if number == 1 {
        return Ok(());
    }
    remove_named(alloc, words, files, name, &[".base", ".origin"])?;
    for pool in 2..u64::MAX {
        let base = format!(in alloc; "{name}.base{pool}")?;
        let origin = format!(in alloc; "{name}.origin{pool}")?;
        if !is_there(files, base.as_str()) {
            return Ok(());
        }
        remove_named(alloc, words, files, base.as_str(), &[""])?;
        remove_named(alloc, words, files, origin.as_str(), &[""])?;
    }
    Ok(())
}

// Removes the files whose names begin so and have these ends, none of which is read.
fn remove_named<O: Opener>(
    alloc: Global,
    words: &PartsWords<'_>,
    files: &O,
    name: &str,
    ends: &[&str],
) -> Result<(), Fault> {
    let mut outputs = Vec::with_capacity(alloc, ends.len())?;
    for end in ends {
        outputs.push(Output::new(alloc, name, *end, Vec::new(alloc))?)?;
    }
    check_outputs(alloc, words, files, outputs.as_slice())?;
    remove_all(files, outputs.as_slice());
    Ok(())
}
