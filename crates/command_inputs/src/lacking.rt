//! What a trace lacks, by the files that a recorder writes beside it.
ghost use Rattle.std.specs.Prelude.{◌≡◌, [], true, None, IfOk};

use crate::bytes::has_control;
use crate::cuts::{cut_of, read_standing};
use crate::fault::Fault;
use crate::opener::Opener;
use crate::refused::{Wrong, refused_line, split_line};
use pmt_asked::Cut;
use pmt_model::OutOfMemory;
use pmt_text::fields::split_field;
use pmt_text::number::read_number;
use std::alloc::{AllocError, Global};

// What stands in a line of FILE.missing.
const ALLOWED: &str =
    "a line is 'KIND COUNT WHAT', as 'bytes 3 child processes'; KIND is bytes, fences or others, and COUNT from 1 on";

/// A thing that a trace lacks, by a line of a file beside it.
#[derive(Drop)]
pub struct Lacked {
    /// How many; where the trace was cut, after which event. None where that is not known.
    pub count: Option<u64>,
    /// `cut`, or the kind that the line names.
    pub kind: String,
    /// What is missing, or why it was cut, in words.
    pub what: String,
}

/// What a trace lacks of its run.
#[derive(Drop)]
pub struct Lacking {
    /// All of it.
    pub all: Vec<Lacked>,
    /// It in words, as lines of which the last one is empty; no byte where nothing is known to be lacking.
    pub told: String,
    /// Whether the verdicts of claims in the trace are those that they have in the run.
    pub knows_verdicts: bool,
    /// Whether the stores that are never persisted in the trace are so in the run.
    pub knows_losses: bool,
}

/// What the trace of the file lacks, by FILE.cut and FILE.missing beside it. Of standard input that is not known.
///
/// # Errors
/// The fault of the first of these files that can't be read, or of its first line that is refused; `OutOfMemory`.
pub fn lacking_of<O: Opener>(alloc: Global, files: &O, file: Option<&str>) -> Result<Lacking, Fault>
    ensures { file.entry ≡ None → IfOk result (λ x. (x.all.items ≡ []) × (x.knows_losses ≡ true)) }
{
    let mut lacking = Lacking {
        all: Vec::new(alloc),
        told: String::new(alloc),
        knows_verdicts: true,
        knows_losses: true,
    };
    let Some(name) = file else {
        return Ok(lacking);
    };
    if let Some(cut) = cut_of(alloc, files, file)? {
        push_cut(alloc, &mut lacking.told, &cut)?;
        push_lacked(alloc, &mut lacking.all, "cut", cut.event, cut.why.as_str())?;
        lacking.knows_losses = false;
    }
    let name = format!(in alloc; "{name}.missing")?;
    if let Some(text) = read_standing(alloc, files, name.as_str())? {
        add_missing(alloc, name.as_str(), text.as_slice(), &mut lacking)?;
    }
    Ok(lacking)
}

fn push_lacked(
    alloc: Global,
    all: &mut Vec<Lacked>,
    kind: &str,
    count: Option<u64>,
    what: &str,
) -> Result<(), OutOfMemory> {
    let kind = String::from_str(alloc, kind)?;
    let what = String::from_str(alloc, what)?;
    all.push(Lacked { count, kind, what })?;
    Ok(())
}

// Adds where the trace was cut and why, as far as that is known.
fn push_cut(alloc: Global, told: &mut String, cut: &Cut) -> Result<(), AllocError> {
    told.push_str("The trace was cut")?;
    if let Some(event) = cut.event {
        let place = format!(in alloc; " after event {event}")?;
        told.push_str(place.as_str())?;
    }
    if !cut.why.is_empty() {
        told.push_str(": ")?;
        told.push_str(cut.why.as_str())?;
    }
    told.push_str(LATER)
}

const LATER: &str = "
What it lacks at its end may have come later: a store that is never persisted here may be saved, so
explain gives no status 1 for it.

";

// Adds what the recorder saw and did not note, by the text of the file with this name. Of an empty one all may be missing.
fn add_missing(alloc: Global, name: &str, text: &[u8], lacking: &mut Lacking) -> Result<(), Fault> {
    lacking
        .told
        .push_str("Not all that the recorder saw is in the trace:\n")?;
    let mut has_bytes = text.is_empty();
    if has_bytes {
        push_lacked(alloc, &mut lacking.all, "bytes", None, "")?;
    }
    let mut has_fences = false;
    let mut rest = text;
    for number in 1..=u64::MAX {
        if rest.is_empty() {
            break;
        }
        let (line, later) = match split_line(rest) {
            Some((line, later)) => (line, later),
            None => (rest, b"".as_slice()),
        };
        let Some((kind, count, what)) = judged(line) else {
            let wrong = Wrong::new(alloc, "the line does not say what is missing", ALLOWED);
            return Err(refused_line(alloc, name, number, line, wrong));
        };
        has_bytes = has_bytes || kind == "bytes";
        has_fences = has_fences || kind == "fences";
        let told = format!(in alloc; "  {count} {what}\n")?;
        lacking.told.push_str(told.as_str())?;
        push_lacked(alloc, &mut lacking.all, kind, Some(count), what)?;
        rest = later;
    }
    if has_bytes {
        lacking.knows_verdicts = false;
        lacking.knows_losses = false;
        lacking.told.push_str(BYTES)?;
    } else if has_fences {
        lacking.told.push_str(FENCES)?;
    }
    lacking.told.push_str("\n")?;
    Ok(())
}

const BYTES: &str =
    "Bytes of the pools may have been stored or made safe so: no verdict of a claim is known, and a store
that is never persisted here may be saved, so explain gives no status 1 for it.
";

const FENCES: &str =
    "Each may have been a fence: what passes here is true, and what fails may be a false alarm.\n";

// The kind, the count and the words of the line, if it says what is missing.
fn judged(line: &[u8]) -> Option<(&str, u64, &str)> {
    let (kind, rest) = split_field(line);
    let (count, what) = split_field(rest?);
    let kind = kind_of(kind)?;
    let count = read_number(10, count)?;
    match str::from_utf8(what?) {
        Ok(what) if count > 0 && !what.is_empty() && !has_control(what.as_bytes()) => {
            Some((kind, count, what))
        }
        _ => None,
    }
}

fn kind_of(field: &[u8]) -> Option<&'static str> {
    if field == b"bytes".as_slice() {
        Some("bytes")
    } else if field == b"fences".as_slice() {
        Some("fences")
    } else if field == b"others".as_slice() {
        Some("others")
    } else {
        None
    }
}
