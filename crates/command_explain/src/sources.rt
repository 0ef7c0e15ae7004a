//! The lines of source files that stand in the text for people.

use command_inputs::{Fault, Opener, Places, SourceFolder, SourceText, Wanted, shown_source};
use pmt_model::OutOfMemory;
use pmt_sources::{SourceLine, SourcePlace, Sources, line_in, visible};
use std::alloc::Global;

/// The lines of these places, in files below this folder, none of which is the file that is to be written, if one is named.
///
/// # Errors
/// The fault of the folder, where it has no real name; a usage fault where a file is the one that is to be written; `OutOfMemory`.
pub(crate) fn sources_of<'a, O: Opener>(
    alloc: Global,
    files: &O,
    given: &str,
    written: Option<&str>,
    wanted: &[SourcePlace<'a>],
) -> Result<Sources<'a>, Fault> {
    let folder = SourceFolder::open(alloc, files, given, written)?;
    let mut places = Places::new(alloc);
    for place in wanted {
        places.insert(*place)?;
    }
    let mut sources = Sources {
        lines: Vec::new(alloc),
        notes: Vec::new(alloc),
    };
    for one in places.files(alloc)?.as_slice() {
        let name = one.name;
        match folder.read(alloc, files, name)? {
            SourceText::Bytes(bytes) => add_lines(alloc, &mut sources, one, bytes.as_slice())?,
            SourceText::Refused(why) => {
                let why = why.as_str();
                sources.notes.push(format!(in alloc; "{name}: {why}")?)?;
            }
        }
    }
    Ok(sources)
}

// Adds the lines of the file with this text.
fn add_lines<'a>(
    alloc: Global,
    sources: &mut Sources<'a>,
    wanted: &Wanted<'a>,
    text: &[u8],
) -> Result<(), OutOfMemory> {
    let file = wanted.name;
    for line in &wanted.lines {
        let line = *line;
        match line_in(text, line) {
            Some(bytes) => {
                sources.lines.push(SourceLine {
                    place: SourcePlace { file, line },
                    text: shown_line(alloc, bytes)?,
                })?;
            }
            None => sources
                .notes
                .push(format!(in alloc; "{file} has no line {line}")?)?,
        }
    }
    Ok(())
}

// The line as a terminal may show it, without the blanks at its start.
fn shown_line(alloc: Global, line: &[u8]) -> Result<String, OutOfMemory> {
    let shown = shown_source(alloc, line.trim_ascii())?;
    visible(alloc, shown.as_str())
}
