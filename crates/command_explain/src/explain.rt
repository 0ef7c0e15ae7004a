//! `explain`: what is wrong in a trace, why, and what to do.
ghost use Rattle.std.specs.Prelude.{◌≡◌, ◌≤◌, [], not, if◌then◌else◌, None, IfOk};
ghost use Rattle.pmt_report.specs.Runs.{coming_from_reader};
ghost use Rattle.pmt_explain_run.specs.Sweeping.{IsSweptTrace};
ghost use Rattle.pmt_explain_json.specs.Lines.{IsJsonText};
ghost use Rattle.command_requests.specs.declared.explaining.Form.TheVariants.{Json};
ghost use Rattle.command_explain.specs.Telling.{IsToldOf, TellsJson, TellsKnown};

use crate::colors::colored;
use crate::page_of;
use crate::sources::sources_of;
use crate::taking::{Taken, taken_of};
use crate::told::Beside;
use command_inputs::{
    Fault, Lacked, Lacking, Opener, Sent, labels_of, lacking_of, no_failure, read_file,
    read_ignored, write_named,
};
use command_requests::{Color, ExplainWords, Form};
use pmt_asked::{Ignored, Labels};
use pmt_explain_json::{Lack, json_text};
use pmt_explain_run::explained;
use pmt_explain_text::{Screen, source_places, text};
use pmt_explanation::{Explanation, status_of};
use pmt_model::OutOfMemory;
use pmt_sources::Sources;
use std::alloc::{AllocError, Global};
use std::io::{Read, Write};
use std::thread::Threads;

// The lines of a text where the words don't say how many entries are shown.
const ROWS: usize = 24;

/// Explains the trace of the file or of `input`, and writes what is asked for to the file that is named, or to `out`, which shows colors
/// or not. The files of what is ignored and of labels are read and judged first. The status is that of the verdict; beside it stands what
/// became of the answer.
///
/// # Errors
/// A usage fault, where the words want labels and there are none; the fault of a file of what is ignored, of the labels, of the trace, that no
/// failed assertion is where one was asked for, the fault of the folder of the source files, that of the write: the first of them. Each names
/// the file and says why.
pub fn run_explain<T: Threads + Sync, O: Opener, I: Read, W: Write>(
    rt: &T,
    alloc: Global,
    words: &mut ExplainWords<'_>,
    files: &O,
    input: &mut I,
    out: &mut W,
    colors: bool,
) -> Result<(u8, Sent), Fault>
    ensures few { IfOk result (λ told. told.0 ≤ 1) }
    ensures json { words.old.file ≡ None → words.old.out ≡ None → words.old.form ≡ Json → IfOk result (TellsJson words.old (coming_from_reader (I.remaining input.old)) (W.contents out.old) (W.contents out.new)) }
{
    judge_labels(alloc, words)?;
    add_ignored(
        alloc,
        files,
        words.ignore_files.as_slice(),
        &mut words.options.ignored,
    )?;
    let labels = labels_of(alloc, files, words.labels)?;
    let taken = taken_of(alloc, files, words, input)?;
    let lacking = lacking_of(alloc, files, words.file)?;
    let lacks = lacks_of(alloc, lacking.all.as_slice())?;
    let known = Known {
        labels,
        lacking,
        lacks,
        colors: is_colored(words, colors),
    };
    let told = explain_taken(rt, alloc, files, words, &known, taken, out)?;
    Ok(told)
}

// That there are labels, where the words want some.
fn judge_labels(alloc: Global, words: &ExplainWords<'_>) -> Result<(), Fault> {
    if words.labels.is_some() {
        return Ok(());
    }
    let option = if words.source.is_some() {
        "--source"
    } else if words.options.choice.label.is_some() {
        "--label"
    } else if !words.options.ignored.places.is_empty() {
        "--ignore-label"
    } else {
        return Ok(());
    };
    let message = format!(in alloc; "'{option}' wants '--labels', the file that names the events");
    Err(Fault::usage_of(alloc, message))
}

// Adds what the files tell to ignore.
fn add_ignored<O: Opener>(
    alloc: Global,
    files: &O,
    names: &[&str],
    ignored: &mut Ignored,
) -> Result<(), Fault>
    ensures { names.now ≡ [] → ignored.new ≡ ignored.old }
{
    for name in names {
        let bytes = read_file(alloc, files, name)?;
        read_ignored(alloc, name, bytes.as_slice(), ignored)?;
    }
    Ok(())
}

// What stands beside the trace.
#[derive(Drop)]
struct Known {
    // The labels of its events.
    labels: Labels,
    // What it lacks, and that as JSON has it.
    lacking: Lacking,
    lacks: Vec<Lack>,
    // Whether the text for people has colors.
    colors: bool,
}

// What the trace lacks, as JSON has it.
fn lacks_of(alloc: Global, all: &[Lacked]) -> Result<Vec<Lack>, OutOfMemory>
    ensures { all.now ≡ [] → IfOk result (λ lacks. lacks.items ≡ []) }
{
    let mut lacks = Vec::with_capacity(alloc, all.len())?;
    for lacked in all {
        let kind = String::from_str(alloc, lacked.kind.as_str())?;
        let what = String::from_str(alloc, lacked.what.as_str())?;
        lacks.push(Lack {
            count: lacked.count,
            kind,
            what,
        })?;
    }
    Ok(lacks)
}

// Whether the text has colors, where a terminal would show them or not.
fn is_colored(words: &ExplainWords<'_>, colors: bool) -> bool {
    match words.color {
        Color::Auto => colors && words.out.is_none(),
        Color::Always => true,
        Color::Never => false,
    }
}

// Explains the trace that was taken, and gives the status.
fn explain_taken<T: Threads + Sync, O: Opener, W: Write>(
    rt: &T,
    alloc: Global,
    files: &O,
    words: &ExplainWords<'_>,
    known: &Known,
    taken: Taken,
    out: &mut W,
) -> Result<(u8, Sent), Fault>
    requires { IsSweptTrace taken.swept }
    ensures few { IfOk result (λ told. told.0 ≤ 1) }
    ensures json { words.now.out ≡ None → words.now.form ≡ Json → IfOk result (TellsKnown taken.swept.trace known.now words.now (W.contents out.old) (W.contents out.new)) }
{
    let Taken { swept, text } = taken;
    let mut explanation = explained(rt, alloc, swept, &known.labels, &words.options)?;
    let text = text.as_slice();
    let told = tell(alloc, files, words, known, text, &mut explanation, out)?;
    Ok(told)
}

// Writes what is asked for of the explained trace with this text.
fn tell<O: Opener, W: Write>(
    alloc: Global,
    files: &O,
    words: &ExplainWords<'_>,
    known: &Known,
    bytes: &[u8],
    explanation: &mut Explanation,
    out: &mut W,
) -> Result<(u8, Sent), Fault>
    ensures few { IfOk result (λ told. told.0 ≤ 1) }
    ensures json { words.now.out ≡ None → words.now.form ≡ Json → IfOk result (IsToldOf explanation.old known.now.labels known.now.lacks.items (not known.now.lacking.knows_losses) words.now (W.contents out.old) (W.contents out.new)) }
{
    judge_failure(alloc, explanation, words.failure)?;
    let fails = status_of(explanation, !known.lacking.knows_losses, words.is_strict);
    let answer = answer_of(alloc, files, explanation, known, words, bytes)?;
    let read = read_files(alloc, words)?;
    let sent = write_named(alloc, files, words.out, read.as_slice(), answer, out)?;
    Ok((status_for(fails), sent))
}

// The status of a verdict that fails, or of another one.
fn status_for(fails: bool) -> u8
    ensures status { result ≡ (if fails then 1 else 0) }
    ensures few { result ≤ 1 }
{
    if fails { 1 } else { 0 }
}

// The files that are read, where they are named.
fn read_files<'a>(
    alloc: Global,
    words: &ExplainWords<'a>,
) -> Result<Vec<Option<&'a str>>, AllocError> {
    let mut read = Vec::new(alloc);
    read.push(words.file)?;
    read.push(words.labels)?;
    for name in &words.ignore_files {
        read.push(Some(*name))?;
    }
    Ok(read)
}

// That the assertion of this event, if one was asked for, fails.
fn judge_failure(
    alloc: Global,
    explanation: &Explanation,
    failure: Option<u64>,
) -> Result<(), Fault> {
    let Some(number) = failure else {
        return Ok(());
    };
    if explanation.failing.contains(&number) {
        return Ok(());
    }
    Err(no_failure(alloc, number))
}

// What is asked for of the explained trace with this text.
fn answer_of<O: Opener>(
    alloc: Global,
    files: &O,
    explanation: &mut Explanation,
    known: &Known,
    words: &ExplainWords<'_>,
    bytes: &[u8],
) -> Result<Vec<u8>, Fault>
    ensures { words.now.form ≡ Json → IfOk result (λ text. IsJsonText explanation.old known.now.labels words.now.options.choice known.now.lacks.items text.items) }
{
    let labels = &known.labels;
    match words.form {
        Form::Text => {
            let text = text_with_sources(alloc, files, explanation, known, words)?;
            if known.colors {
                Ok(colored(alloc, text.as_slice())?)
            } else {
                Ok(text)
            }
        }
        Form::Json => {
            let choice = &words.options.choice;
            Ok(json_text(alloc, explanation, labels, choice, known.lacks.as_slice())?)
        }
        Form::Page => {
            let text = people_text(alloc, explanation, known, words, None)?;
            let lacks = known.lacks.as_slice();
            page_of(
                alloc,
                files,
                explanation,
                Beside { labels, lacks },
                words,
                bytes,
                text.as_slice(),
            )
        }
    }
}

// The text for people, with lines of source files where their folder is named.
fn text_with_sources<'a, O: Opener>(
    alloc: Global,
    files: &O,
    explanation: &Explanation,
    known: &'a Known,
    words: &'a ExplainWords<'a>,
) -> Result<Vec<u8>, Fault> {
    let Some(folder) = words.source else {
        return Ok(people_text(alloc, explanation, known, words, None)?);
    };
    let screen = screen_of(known, words, None);
    let wanted = source_places(alloc, explanation, &known.labels, &screen)?;
    let sources = sources_of(alloc, files, folder, words.out, wanted.as_slice())?;
    Ok(people_text(alloc, explanation, known, words, Some(&sources))?)
}

// The text for people, with these lines of source files.
fn people_text(
    alloc: Global,
    explanation: &Explanation,
    known: &Known,
    words: &ExplainWords<'_>,
    sources: Option<&Sources<'_>>,
) -> Result<Vec<u8>, OutOfMemory> {
    let screen = screen_of(known, words, sources);
    text(alloc, explanation, &known.labels, &screen)
}

// What the text is: a screen, or all entries where a limit or one failure is asked for.
fn screen_of<'a>(
    known: &'a Known,
    words: &'a ExplainWords<'a>,
    sources: Option<&'a Sources<'a>>,
) -> Screen<'a> {
    let is_whole = words.is_limited || words.failure.is_some();
    Screen {
        rows: if is_whole { None } else { Some(ROWS) },
        choice: &words.options.choice,
        ignored: &words.options.ignored,
        trace: words.file,
        labels: told_labels(words),
        lacking: known.lacking.told.as_str(),
        knows_verdicts: known.lacking.knows_verdicts,
        knows_losses: known.lacking.knows_losses,
        sources,
    }
}

// The labels file, where it is not the one that stands beside the trace, so that commands name it.
fn told_labels<'a>(words: &ExplainWords<'a>) -> Option<&'a str> {
    let name = words.labels?;
    if name.strip_suffix(".labels") == words.file {
        None
    } else {
        Some(name)
    }
}
