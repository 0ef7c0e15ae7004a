//! The words of `parts`.
use crate::arguments::{bad_word, number_of, trace_name};
use crate::described::WordKind::{Needed, Value, Values};
use crate::described::{CommandText, LABELS, TRACE_FILE, Word};
use crate::explain_words::ignored_of;
use clap::ArgMatches;
use command_inputs::Fault;
use command_requests::PartsWords;
use std::alloc::Global;

// The most events of a trace.
const MOST_EVENTS: u64 = 1_000_000;

/// The command `parts`.
pub static PARTS: CommandText<'static> = CommandText {
    name: "parts",
    usage: "pmtrim parts [--events N] [--overlap N] [--ignore A:N].. [--labels FILE] --out PREFIX [FILE]",
    about: "Cuts a trace of any length into parts that answer for it, while it is read.",
    after: "Writes PREFIX.0001.trace and so on: each begins with what is pending there, and each event is{n}answered for by one of them. Beside each, PREFIX.0001.trace.part says for which events it answers,{n}which are carried, and which assertions it sets aside; with --labels PREFIX.0001.trace.labels says{n}what its events are called. Parts that were written before a fault stand.{n}Statuses: 0 done; 2 wrong words; 3 trace or labels refused, or too much is carried; 4 file fault; 5{n}out of memory{n}Example: pmtrim parts --labels run.trace.labels --out run run.trace",
    words: &[
        Word(
            "events",
            Value("N"),
            "A part has at most N events, 1 to 1000000; 1000000, if not given",
        ),
        Word(
            "overlap",
            Value("N"),
            "A part begins N events before those it answers for, less than{n}half of --events; a tenth of --events, if not given",
        ),
        Word(
            "ignore",
            Values("A:N"),
            "Do not carry stores to the N bytes from A on",
        ),
        LABELS,
        Word(
            "out",
            Needed("PREFIX"),
            "With what the names of the parts begin",
        ),
        TRACE_FILE,
    ],
};

/// What these words ask for.
///
/// # Errors
/// A usage fault, or `OutOfMemory`.
pub fn parts_words<'a>(alloc: Global, given: &ArgMatches<'a>) -> Result<PartsWords<'a>, Fault> {
    let events = events_of(alloc, given)?;
    let overlap = overlap_of(alloc, given, events)?;
    let ignored = ignored_of(alloc, given)?;
    Ok(PartsWords {
        events,
        overlap,
        ignored,
        labels: given.get_str("labels"),
        out: given.get_str("out").unwrap_or(""),
        file: trace_name(given),
    })
}

// The most events of a part.
fn events_of(alloc: Global, given: &ArgMatches<'_>) -> Result<u64, Fault> {
    match number_of(alloc, given, "events", "--events <N>")? {
        None => Ok(MOST_EVENTS),
        Some(events) if events >= 1 && events <= MOST_EVENTS => Ok(events),
        Some(_) => {
            let word = given.get_str("events").unwrap_or("");
            Err(bad_word(alloc, word, "--events <N>", "a number from 1 to 1000000"))
        }
    }
}

// How many events before those that it answers for a part begins.
fn overlap_of(alloc: Global, given: &ArgMatches<'_>, events: u64) -> Result<u64, Fault> {
    match number_of(alloc, given, "overlap", "--overlap <N>")? {
        None => Ok(events / 10),
        Some(overlap) if overlap <= events.saturating_sub(1) / 2 => Ok(overlap),
        Some(_) => {
            let word = given.get_str("overlap").unwrap_or("");
            Err(bad_word(alloc, word, "--overlap <N>", "less than half of --events"))
        }
    }
}
