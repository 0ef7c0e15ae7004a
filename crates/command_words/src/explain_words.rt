//! The words of `explain`.

use crate::arguments::{
    RANGE, bad_word, event_of, number_in, out_name, trace_name, value_of, values_of,
};
use crate::described::WordKind::{AnyOf, Flag, OneOf, Rival, Value, Values};
use crate::described::{CommandText, LABELS_BESIDE, NO_LABELS, OUT_FILE, TRACE_FILE, Word};
use clap::ArgMatches;
use command_inputs::{Fault, asked_place, range_in};
use command_requests::{Color, ExplainWords, Form};
use pmt_asked::{ByteRange, Choice, Ignored, IgnoredPlace, Kind, Options};
use std::alloc::Global;

// The most entries of a kind where the words name no number.
const FEW: usize = 10;

// The most entries of a kind on a page where the words name no number.
const MANY: usize = 1_000;

// As many entries as there can be: each has an event of its own.
const ALL: usize = 1_000_000;

// When the text is colored.
const COLORS: &[&str] = &["auto", "always", "never"];

// The help of --only, with what stands in KINDS on two lines.
const ONLY: &str =
    "Tell findings of this kind alone{n}[possible values: failure, never_persisted, dropped,{n}overwritten, unwritten, late, hint]";

// The kinds that can be asked for.
const KINDS: &[&str] = &[
    "failure",
    "never_persisted",
    "dropped",
    "overwritten",
    "unwritten",
    "late",
    "hint",
];

// How `explain` is used.
const USAGE: &str =
    "pmtrim explain [--ignore A:N].. [--ignore-label LABEL].. [--ignore-file FILE].. [--limit N]\n                      [--only KIND] [--thread T] [--range A:N] [--from I] [--to J] [--label TEXT]\n                      [--failure N] [--strict] [--labels FILE | --no-labels] [--source DIR]\n                      [--json | --html | --color WHEN] [--out FILE] [FILE]";

/// The command `explain`.
pub static EXPLAIN: CommandText<'static> = CommandText {
    name: "explain",
    usage: USAGE,
    about: "Says what is wrong in a trace, why, and where to put the flush or fence.",
    after: "Writes the verdict, FAIL, LOST, SUSPECT, CHECK, PROBABLY OK or OK; then, what weighs most first,{n}assertions that fail, each with a crash that violates it, stores that are lost or late, and hints;{n}what may be meant; and small things: one screen, unless --limit or --failure is given. --only to{n}--failure choose what is told; the verdict and the status are of the whole trace.{n}Statuses: 0 done; 1 FAIL, LOST or SUSPECT (if the trace was cut, LOST only by --strict); 2 wrong{n}words; 3 trace, labels or ranges refused; 4 file fault; 5 out of memory{n}Example: pmtrim explain run.trace",
    words: &[
        Word(
            "ignore",
            Values("A:N"),
            "Leave out what is lost in the N bytes from address A on, as 0x1000:8;{n}may be given more than once",
        ),
        Word(
            "ignore-label",
            Values("LABEL"),
            "Leave out what stores of this place lose, as 'stats.c:12 bump', what{n}labels say before ' < ', or a beginning and a star, as 'stats.c:*';{n}wants labels; may be given more than once",
        ),
        Word(
            "ignore-file",
            Values("FILE"),
            "Leave out what this file tells too: lines A:N or 'label LABEL';{n}may be given more than once",
        ),
        Word(
            "limit",
            Value("N"),
            "How many entries of each kind to show, or 'all'",
        ),
        Word("only", AnyOf("KIND", KINDS), ONLY),
        Word("thread", Value("T"), "Tell of events of thread T alone"),
        Word(
            "range",
            Value("A:N"),
            "Tell of the N bytes from address A on alone",
        ),
        Word("from", Value("I"), "Tell of event I and later ones alone"),
        Word("to", Value("J"), "Tell of event J and earlier ones alone"),
        Word(
            "label",
            Value("TEXT"),
            "Tell of events alone whose label has TEXT in it; wants labels",
        ),
        Word(
            "failure",
            Value("N"),
            "Tell of the failed assertion of event N alone",
        ),
        Word(
            "strict",
            Flag,
            "Give status 1 for CHECK and PROBABLY OK too",
        ),
        LABELS_BESIDE,
        NO_LABELS,
        Word("json", Flag, "Write a JSON object a line"),
        Word(
            "html",
            Rival("json"),
            "Write one page of HTML that walks through the trace:{n}open it in a browser",
        ),
        Word(
            "source",
            Value("DIR"),
            "Put the source lines that labels name into the text or page, from{n}files below this folder; wants labels, and no --json",
        ),
        Word("color", OneOf("WHEN", COLORS), "Color the text"),
        OUT_FILE,
        TRACE_FILE,
    ],
};

/// What these words ask for.
///
/// # Errors
/// A usage fault that names the wrong word and says what is allowed; `OutOfMemory`.
pub fn explain_words<'a>(alloc: Global, given: &ArgMatches<'a>) -> Result<ExplainWords<'a>, Fault> {
    let choice = choice_of(alloc, given)?;
    let ignored = Ignored {
        ranges: ignored_of(alloc, given)?,
        places: places_of(alloc, given)?,
    };
    let mut ignore_files = Vec::new(alloc);
    ignore_files.extend_from_slice(given.get_strs("ignore-file").unwrap_or(&[]))?;
    Ok(ExplainWords {
        options: Options {
            ignored,
            limit: asked_limit(alloc, given, FEW)?,
            choice,
        },
        ignore_files,
        is_limited: given.get_str("limit").is_some(),
        failure: event_of(alloc, given, "failure", "--failure <N>")?,
        labels: given.get_str("labels"),
        no_labels: given.get_flag("no-labels"),
        is_strict: given.get_flag("strict"),
        form: form_of(given),
        color: color_of(given),
        out: out_name(given),
        source: source_of(alloc, given)?,
        page_limit: asked_limit(alloc, given, MANY)?,
        file: trace_name(given),
    })
}

// The form that the words ask for: the command takes one of them.
fn form_of(given: &ArgMatches<'_>) -> Form {
    if given.get_flag("html") {
        Form::Page
    } else if given.get_flag("json") {
        Form::Json
    } else {
        Form::Text
    }
}

// Whether the text has colors: the command takes no other word.
fn color_of(given: &ArgMatches<'_>) -> Color {
    match given.get_str("color") {
        Some("always") => Color::Always,
        Some("never") => Color::Never,
        _ => Color::Auto,
    }
}

// The folder of the source files: JSON has none of their lines.
fn source_of<'a>(alloc: Global, given: &ArgMatches<'a>) -> Result<Option<&'a str>, Fault> {
    let Some(folder) = given.get_str("source") else {
        return Ok(None);
    };
    if given.get_flag("json") {
        let message =
            "'--source' puts source lines into the text or the page, and '--json' has none";
        return Err(Fault::usage(alloc, message));
    }
    Ok(Some(folder))
}

/// The ranges that `--ignore` names.
///
/// # Errors
/// A usage fault that names the first word that is no range; `OutOfMemory`.
pub fn ignored_of(alloc: Global, given: &ArgMatches<'_>) -> Result<Vec<ByteRange>, Fault> {
    values_of(alloc, given, "ignore", "--ignore <A:N>", RANGE, range_in)
}

// The places whose stores are ignored.
fn places_of(alloc: Global, given: &ArgMatches<'_>) -> Result<Vec<IgnoredPlace>, Fault> {
    let words = given.get_strs("ignore-label").unwrap_or(&[]);
    let mut places = Vec::new(alloc);
    for text in words {
        places.push(asked_place(alloc, "--ignore-label <LABEL>", text)?)?;
    }
    Ok(places)
}

// The limit that the words name, or else this one.
fn asked_limit(alloc: Global, given: &ArgMatches<'_>, other: usize) -> Result<usize, Fault> {
    let allowed = "a decimal number without leading zeros, or 'all'; 0 shows the summary alone";
    let limit = value_of(alloc, given, "limit", "--limit <N>", allowed, limit_in)?;
    Ok(limit.unwrap_or(other))
}

// The limit that the word names.
fn limit_in(word: &str) -> Option<usize> {
    match word {
        "all" => Some(ALL),
        _ => Some(number_in(word)? as usize),
    }
}

// Which findings these words ask for; one failed assertion is all between `from` and `to`.
fn choice_of(alloc: Global, given: &ArgMatches<'_>) -> Result<Choice, Fault> {
    let only = kind_of(given.get_str("only"));
    let from = event_of(alloc, given, "from", "--from <I>")?;
    let to = event_of(alloc, given, "to", "--to <J>")?;
    let failure = event_of(alloc, given, "failure", "--failure <N>")?;
    if let Some(message) = clash(given, from, to) {
        return Err(Fault::usage(alloc, message));
    }
    Ok(Choice {
        only: match failure {
            Some(_) => Some(Kind::Failure),
            None => only,
        },
        thread: value_of(alloc, given, "thread", "--thread <T>", THREAD, thread_in)?,
        range: value_of(alloc, given, "range", "--range <A:N>", RANGE, range_in)?,
        from: failure.or(from),
        to: failure.or(to),
        label: label_of(alloc, given)?,
    })
}

// Which words don't go together, if some don't.
fn clash(given: &ArgMatches<'_>, from: Option<u64>, to: Option<u64>) -> Option<&'static str> {
    let is_choosing = given.get_str("only").is_some() || from.is_some() || to.is_some();
    if given.get_str("failure").is_some() && is_choosing {
        return Some("'--failure' stands without '--only', '--from' and '--to'");
    }
    if from.unwrap_or(0) > to.unwrap_or(u64::MAX) {
        return Some("the event of '--to' comes before that of '--from'");
    }
    None
}

// The kind that this word names: the command takes no other.
fn kind_of(word: Option<&str>) -> Option<Kind> {
    match word? {
        "failure" => Some(Kind::Failure),
        "never_persisted" => Some(Kind::NeverPersisted),
        "dropped" => Some(Kind::Dropped),
        "overwritten" => Some(Kind::Overwritten),
        "unwritten" => Some(Kind::Unwritten),
        "late" => Some(Kind::Late),
        "hint" => Some(Kind::Hint),
        _ => None,
    }
}

const THREAD: &str = "a thread, from 0 to 255, without leading zeros";

// The thread that this word names.
fn thread_in(word: &str) -> Option<u8> {
    match number_in(word) {
        Some(thread) if thread < 256 => Some(thread as u8),
        _ => None,
    }
}

// The text that labels are to have.
fn label_of(alloc: Global, given: &ArgMatches<'_>) -> Result<Option<String>, Fault> {
    match given.get_str("label") {
        Some("") => {
            let allowed = "a text that stands in labels";
            Err(bad_word(alloc, "", "--label <TEXT>", allowed))
        }
        Some(text) => Ok(Some(String::from_str(alloc, text)?)),
        None => Ok(None),
    }
}
