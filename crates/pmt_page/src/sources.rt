//! Lines of source files.
ghost use Rattle.std.specs.Prelude.{◌≡◌, ◌∷◌, ◌++◌, IfOk, OnOk};
ghost use Rattle.std.specs.List.{flat_map};
ghost use Rattle.pmt_page.specs.Pages.{source_file, source_part, sources_block};
ghost use Rattle.pmt_page.specs.Columns.{listed};

use crate::about::{push_count, push_string, push_truth};
use pmt_model::OutOfMemory;
use std::alloc::Global;

/// A source file that labels name.
#[derive(Clone, Copy)]
pub struct SourceFile<'a> {
    /// Its name, as labels have it.
    pub name: &'a str,
    /// Why none of its lines are here; empty where they are.
    pub why: &'a str,
}

/// Some lines of a source file that follow each other.
#[derive(Clone, Copy)]
pub struct SourcePart<'a> {
    /// The place of the file among the files, from 0.
    pub file: u64,
    /// The number of the first of these lines, from 1.
    pub first: u64,
    /// The lines, with LF between them.
    pub lines: &'a str,
}

/// The block of these files, of lines of them, and of whether that is all that labels name.
///
/// # Errors
/// Where memory was refused.
pub fn sources_text(
    alloc: Global,
    files: &[SourceFile<'_>],
    parts: &[SourcePart<'_>],
    is_all: bool,
) -> Result<Vec<u8>, OutOfMemory>
    ensures { IfOk result (λ text. text.items ≡ sources_block files.now parts.now is_all) }
{
    let mut text = Vec::new(alloc);
    push_truth(&mut text, b"{\"all\":", is_all)?;
    text.extend_from_slice(b",\"files\":[")?;
    push_files(&mut text, files)?;
    text.extend_from_slice(b"],\"parts\":[")?;
    push_parts(&mut text, parts)?;
    text.extend_from_slice(b"]}")?;
    Ok(text)
}

// Adds the files with commas between them.
fn push_files(text: &mut Vec<u8>, files: &[SourceFile<'_>]) -> Result<(), OutOfMemory>
    ensures { OnOk result (text.new.items ≡ text.old.items ++ listed source_file files.now) }
{
    match files {
        [] => Ok(()),
        [first, later @ ..] => {
            push_file(text, *first)?;
            push_later_files(text, later)
        }
    }
}

// Adds the files, each behind a comma.
fn push_later_files(text: &mut Vec<u8>, files: &[SourceFile<'_>]) -> Result<(), OutOfMemory>
    ensures { OnOk result (text.new.items ≡ text.old.items ++ flat_map (λ f. 44 ∷ source_file f) files.now) }
{
    for file in files {
        push_later_file(text, *file)?;
    }
    Ok(())
}

fn push_later_file(text: &mut Vec<u8>, file: SourceFile<'_>) -> Result<(), OutOfMemory>
    ensures { OnOk result (text.new.items ≡ text.old.items ++ (44 ∷ source_file file.entry)) }
{
    text.push(b',')?;
    push_file(text, file)
}

fn push_file(text: &mut Vec<u8>, file: SourceFile<'_>) -> Result<(), OutOfMemory>
    ensures { OnOk result (text.new.items ≡ text.old.items ++ source_file file.entry) }
{
    push_string(text, b"{\"name\":", file.name)?;
    push_string(text, b",\"why\":", file.why)?;
    text.extend_from_slice(b"}")
}

// Adds the parts with commas between them.
fn push_parts(text: &mut Vec<u8>, parts: &[SourcePart<'_>]) -> Result<(), OutOfMemory>
    ensures { OnOk result (text.new.items ≡ text.old.items ++ listed source_part parts.now) }
{
    match parts {
        [] => Ok(()),
        [first, later @ ..] => {
            push_part(text, *first)?;
            push_later_parts(text, later)
        }
    }
}

// Adds the parts, each behind a comma.
fn push_later_parts(text: &mut Vec<u8>, parts: &[SourcePart<'_>]) -> Result<(), OutOfMemory>
    ensures { OnOk result (text.new.items ≡ text.old.items ++ flat_map (λ p. 44 ∷ source_part p) parts.now) }
{
    for part in parts {
        push_later_part(text, *part)?;
    }
    Ok(())
}

fn push_later_part(text: &mut Vec<u8>, part: SourcePart<'_>) -> Result<(), OutOfMemory>
    ensures { OnOk result (text.new.items ≡ text.old.items ++ (44 ∷ source_part part.entry)) }
{
    text.push(b',')?;
    push_part(text, part)
}

fn push_part(text: &mut Vec<u8>, part: SourcePart<'_>) -> Result<(), OutOfMemory>
    ensures { OnOk result (text.new.items ≡ text.old.items ++ source_part part.entry) }
{
    push_count(text, b"{\"file\":", part.file)?;
    push_count(text, b",\"first\":", part.first)?;
    push_string(text, b",\"lines\":", part.lines)?;
    text.extend_from_slice(b"}")
}
