//! The words of `slice`.
use crate::arguments::{event_of, out_name, trace_name};
use crate::described::WordKind::Value;
use crate::described::{CommandText, LABELS_BESIDE, NO_LABELS, OUT_FILE, TRACE_FILE, Word};
use clap::ArgMatches;
use command_inputs::Fault;
use command_requests::{SliceSubject, SliceWords};
use std::alloc::Global;

/// The command `slice`.
pub static SLICE: CommandText<'static> = CommandText {
    name: "slice",
    usage: "pmtrim slice (--failure N | --store N) [[--labels FILE | --no-labels] --out FILE] [FILE]",
    about: "Writes the few events that show a failed assertion or a lost store, as a trace.",
    after: "Of an assertion the events are itself, the last store to each byte of its ranges, and what tells{n}whether and why each of these stores is safe; their trace alone gives the assertion the same{n}verdict.{n}Of a store that is never persisted or late they are itself, what tells whether and why it is safe,{n}and the first two fences of its thread that leave it unsafe; it is as lost and as late in their{n}trace.{n}With --out FILE the number that each event has in the whole trace goes to FILE.numbers, and what the{n}events are called, if they have labels, to FILE.labels.{n}Statuses: 0 done; 2 wrong words, or the assertion does not fail, or the store is safe in time; 3{n}trace or labels refused; 4 file fault; 5 out of memory{n}Example: pmtrim slice --failure 7 --out slice.trace run.trace",
    words: &[
        Word(
            "failure",
            Value("N"),
            "The assertion of event N, which fails",
        ),
        Word(
            "store",
            Value("N"),
            "The store of event N, which is never persisted, or late",
        ),
        LABELS_BESIDE,
        NO_LABELS,
        OUT_FILE,
        TRACE_FILE,
    ],
};

/// What these words ask for.
///
/// # Errors
/// A usage fault, or `OutOfMemory`.
pub fn slice_words<'a>(alloc: Global, given: &ArgMatches<'a>) -> Result<SliceWords<'a>, Fault> {
    let words = SliceWords {
        subject: slice_subject(alloc, given)?,
        labels: given.get_str("labels"),
        no_labels: given.get_flag("no-labels"),
        out: out_name(given),
        file: trace_name(given),
    };
    if words.labels.is_some() && words.out.is_none() {
        return Err(Fault::usage(
            alloc,
            "'--labels' stands with '--out': the labels are written beside that file",
        ));
    }
    Ok(words)
}

// Of what the slice is.
fn slice_subject<'a>(alloc: Global, given: &ArgMatches<'a>) -> Result<SliceSubject, Fault> {
    let failure = event_of(alloc, given, "failure", "--failure <N>")?;
    let store = event_of(alloc, given, "store", "--store <N>")?;
    match (failure, store) {
        (Some(number), None) => Ok(SliceSubject::Failure(number)),
        (None, Some(number)) => Ok(SliceSubject::Store(number)),
        (None, None) | (Some(_), Some(_)) => Err(Fault::usage(
            alloc,
            "a slice is of '--failure <N>' or of '--store <N>': name one of them",
        )),
    }
}
