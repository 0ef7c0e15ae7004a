//! The page of `explain`.

use crate::first_picture;
use crate::labels::page_labels;
use crate::page_sources::sources_of;
use crate::safe_places::safe_places;
use crate::told::{Beside, told_within};
use command_inputs::{Fault, Opener, STANDARD_INPUT};
use command_requests::{ExplainWords, VERSION};
use pmt_explanation::Explanation;
use pmt_model::OutOfMemory;
use pmt_page::{
    About, Columns, EventFindings, Kept, Label, PageBlocks, about_text, columns_of, digest_of,
    page_text, sources_text,
};
use std::alloc::Global;

// The most bytes of a page.
const MOST_PAGE: usize = 25_000_000;

// The most bytes of the text that stands there until the script is ready.
const MOST_TEXT: usize = 200_000;

// How many bytes of a page there may be at most of what is told, and of labels, and whether lines of source files have room.
#[derive(Clone, Copy)]
struct Room {
    told: usize,
    labels: usize,
    has_sources: bool,
}

// A cause names all its failed assertions, which may be a million.
const WIDE: Room = Room {
    told: 9_000_000,
    labels: 6_000_000,
    has_sources: true,
};

// Where the columns leave no more.
const FINDINGS: Room = Room {
    told: 9_000_000,
    labels: 0,
    has_sources: false,
};

const NARROW: Room = Room {
    told: 1_000_000,
    labels: 0,
    has_sources: false,
};

// What is written of a trace whatever has room, and what is asked for.
#[derive(Clone, Copy)]
struct Asked<'a> {
    text: &'a [u8],
    picture: &'a str,
    digest: &'a [u8],
    beside: Beside<'a>,
    name: &'a str,
    source: Option<&'a str>,
    written: Option<&'a str>,
}

/// The page of the explained trace that has these bytes, with this text for people. The explanation has what stands on the page then, or more.
///
/// # Errors
/// The fault of the folder of the source files; a usage fault where a source file is the one to be written; `OutOfMemory`. What the
/// explanation has then is not said.
pub fn page_of<O: Opener>(
    alloc: Global,
    files: &O,
    explanation: &mut Explanation,
    beside: Beside<'_>,
    words: &ExplainWords<'_>,
    bytes: &[u8],
    text: &[u8],
) -> Result<Vec<u8>, Fault> {
    let picture = first_picture(alloc, explanation, beside.labels)?;
    let digest = digest_of(bytes);
    let asked = Asked {
        text: whole_lines(text),
        picture: picture.as_str(),
        digest: digest.as_slice(),
        beside,
        name: words.file.unwrap_or(STANDARD_INPUT),
        source: words.source,
        written: words.out,
    };
    page_with_room(alloc, files, explanation, words, asked)
}

// The page with as much as has room.
fn page_with_room<O: Opener>(
    alloc: Global,
    files: &O,
    explanation: &mut Explanation,
    words: &ExplainWords<'_>,
    asked: Asked<'_>,
) -> Result<Vec<u8>, Fault> {
    let told = told_within(alloc, explanation, asked.beside, words, WIDE.told)?;
    for room in [WIDE, FINDINGS] {
        let page = page_within(alloc, files, asked, explanation, told.as_slice(), room)?;
        if page.len() <= MOST_PAGE {
            return Ok(page);
        }
    }
    let told = told_within(alloc, explanation, asked.beside, words, NARROW.told)?;
    page_within(alloc, files, asked, explanation, told.as_slice(), NARROW)
}

// The lines of the text that have room.
fn whole_lines(text: &[u8]) -> &[u8] {
    let Some(start) = text.get(..MOST_TEXT) else {
        return text;
    };
    match start.iter().rposition(|byte| *byte == b'\n') {
        Some(last) => text.get(..last + 1).unwrap_or(start),
        None => b"".as_slice(),
    }
}

// The page with as many labels and lines of source files as have this room, and with what else of the trace has room then.
fn page_within<O: Opener>(
    alloc: Global,
    files: &O,
    asked: Asked<'_>,
    explanation: &Explanation,
    told: &[u8],
    room: Room,
) -> Result<Vec<u8>, Fault> {
    let events = explanation.analysis.trace().len() as u64;
    let named = page_labels(alloc, asked.beside.labels, events, room.labels)?;
    let sources = sources(alloc, files, &asked, named.list.as_slice(), room)?;
    let blocks = PageBlocks {
        text: asked.text,
        picture: asked.picture,
        about: b"",
        columns: b"",
        explained: told,
        labels: named.text.as_slice(),
        sources: sources.as_slice(),
    };
    Ok(with_columns(alloc, asked, explanation, named.left_out, blocks)?)
}

// The page of these blocks, with the columns that have room then, and with what it is of.
fn with_columns(
    alloc: Global,
    asked: Asked<'_>,
    explanation: &Explanation,
    labels_left_out: u64,
    blocks: PageBlocks<'_>,
) -> Result<Vec<u8>, OutOfMemory> {
    let taken = size_without_columns(alloc, asked, explanation, labels_left_out, blocks)?;
    let columns = columns(alloc, explanation, MOST_PAGE.saturating_sub(taken))?;
    let about = about(alloc, explanation, asked, labels_left_out, columns.kept)?;
    page_text(
        alloc,
        PageBlocks {
            about: about.as_slice(),
            columns: columns.text.as_slice(),
            ..blocks
        },
    )
}

// How many bytes the page of these blocks has without columns, where it says most of what is left out.
fn size_without_columns(
    alloc: Global,
    asked: Asked<'_>,
    explanation: &Explanation,
    labels_left_out: u64,
    blocks: PageBlocks<'_>,
) -> Result<usize, OutOfMemory> {
    let about = about(
        alloc,
        explanation,
        asked,
        labels_left_out,
        Kept::WithoutRanges,
    )?;
    let page = page_text(
        alloc,
        PageBlocks {
            about: about.as_slice(),
            ..blocks
        },
    )?;
    Ok(page.len())
}

// The columns of the trace, with what has room in so many bytes.
fn columns(alloc: Global, explanation: &Explanation, most: usize) -> Result<Columns, OutOfMemory> {
    let trace = explanation.analysis.trace();
    let safe = safe_places(alloc, trace)?;
    let found = EventFindings {
        safe: safe.as_slice(),
        verdicts: explanation.analysis.verdicts(),
        dropped: explanation.dropped.as_slice(),
    };
    columns_of(alloc, trace, found, most)
}

// What the page is of.
fn about(
    alloc: Global,
    explanation: &Explanation,
    asked: Asked<'_>,
    labels_left_out: u64,
    kept: Kept,
) -> Result<Vec<u8>, OutOfMemory> {
    let trace = explanation.analysis.trace();
    let version = VERSION;
    let program = format!(in alloc; "pmtrim {version}")?;
    about_text(
        alloc,
        About {
            events: trace.len() as u64,
            line_size: trace.format().line_size(),
            name: asked.name,
            program: program.as_str(),
            digest: asked.digest,
            labels_left_out,
            kept,
        },
    )
}

// The lines of source files that have room; null, where no folder is named.
fn sources<O: Opener>(
    alloc: Global,
    files: &O,
    asked: &Asked<'_>,
    labels: &[Label<'_>],
    room: Room,
) -> Result<Vec<u8>, Fault> {
    match asked.source {
        Some(folder) if room.has_sources => sources_of(alloc, files, folder, asked.written, labels),
        Some(_) => Ok(sources_text(alloc, &[], &[], false)?),
        None => {
            let mut none = Vec::new(alloc);
            none.extend_from_slice(b"null")?;
            Ok(none)
        }
    }
}
