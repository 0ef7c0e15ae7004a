//! What a page shows of the source files that labels name.

use crate::labels::size_quoted;
use crate::source_lines::{Lines, PART_SIZE};
use command_inputs::{Fault, Opener, Places, SourceFolder, SourceText, Wanted};
use pmt_page::{Label, SourceFile, SourcePart, sources_text};
use pmt_sources::place_of;
use std::alloc::{AllocError, Global};

// The most places that are looked for, and the most files.
const MOST_PLACES: usize = 100_000;

const MOST_FILES: usize = 1_000;

// The most bytes of names and lines on a page.
const MOST_SHOWN: usize = 2_000_000;

/// The block of the lines round each place `FILE:LINE` that a label names, in files below this folder, none of which is the file that is
/// to be written, if one is named.
///
/// # Errors
/// The fault of the folder, where it has no real name; a usage fault where a file is the one that is to be written; `OutOfMemory`.
pub fn sources_of<O: Opener>(
    alloc: Global,
    files: &O,
    given: &str,
    written: Option<&str>,
    labels: &[Label<'_>],
) -> Result<Vec<u8>, Fault> {
    let folder = SourceFolder::open(alloc, files, given, written)?;
    let mut shown = Shown {
        lines: Lines::new(alloc, MOST_SHOWN),
        reasons: Vec::new(alloc),
    };
    let places = places_of(alloc, labels, &mut shown.lines.is_all)?;
    let wanted = places.files(alloc)?;
    shown.take_files(alloc, files, &folder, wanted.as_slice())?;
    Ok(block_of(alloc, wanted.as_slice(), &shown)?)
}

// The lines that are shown, and of each file that was looked for why it is not read.
#[derive(Drop)]
struct Shown {
    lines: Lines,
    reasons: Vec<String>,
}

impl Shown {
    // Takes the lines of the files, as many as have room.
    fn take_files<O: Opener>(
        &mut self,
        alloc: Global,
        files: &O,
        folder: &SourceFolder,
        wanted: &[Wanted<'_>],
    ) -> Result<(), Fault> {
        for (place, one) in wanted.iter().enumerate() {
            let size = size_quoted(one.name.as_bytes()).saturating_add(PART_SIZE);
            if place == MOST_FILES || !self.lines.take_room(size) {
                self.lines.is_all = false;
                break;
            }
            let reading = folder.read(alloc, files, one.name)?;
            self.take(alloc, place as u64, one, reading)?;
        }
        Ok(())
    }

    // Takes the lines of the file that stands at this place.
    fn take(
        &mut self,
        alloc: Global,
        place: u64,
        one: &Wanted<'_>,
        reading: SourceText,
    ) -> Result<(), AllocError> {
        match reading {
            SourceText::Bytes(bytes) => {
                self.lines
                    .take_file(alloc, place, one.lines.as_slice(), bytes.as_slice())?;
                self.reasons.push(String::new(alloc))?;
            }
            SourceText::Refused(why) => self.reasons.push(why)?,
        }
        Ok(())
    }
}

// The block of as many of the files as there are reasons, and of the lines.
fn block_of(alloc: Global, wanted: &[Wanted<'_>], shown: &Shown) -> Result<Vec<u8>, AllocError> {
    let Shown { lines, reasons } = shown;
    let mut named = Vec::with_capacity(alloc, reasons.len())?;
    for (one, why) in wanted.iter().zip(reasons.iter()) {
        named.push(SourceFile {
            name: one.name,
            why: why.as_str(),
        })?;
    }
    let mut parts = Vec::with_capacity(alloc, lines.parts.len())?;
    for part in lines.parts.iter() {
        parts.push(SourcePart {
            file: part.file,
            first: part.first,
            lines: part.lines.as_str(),
        })?;
    }
    sources_text(alloc, named.as_slice(), parts.as_slice(), lines.is_all)
}

// The places that the labels name.
fn places_of<'a>(
    alloc: Global,
    labels: &[Label<'a>],
    is_all: &mut bool,
) -> Result<Places<'a>, AllocError> {
    let mut places = Places::new(alloc);
    for label in labels {
        for word in label.text.split(' ') {
            if let Some(place) = place_of(word) {
                if places.len() == MOST_PLACES {
                    *is_all = false;
                    break;
                }
                places.insert(place)?;
            }
        }
    }
    Ok(places)
}
