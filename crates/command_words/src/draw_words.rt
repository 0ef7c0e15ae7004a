//! The words of `draw`.
use crate::arguments::{event_of, out_name, trace_name};
use crate::described::WordKind::Value;
use crate::described::{CommandText, LABELS_BESIDE, NO_LABELS, OUT_FILE, TRACE_FILE, Word};
use clap::ArgMatches;
use command_inputs::Fault;
use command_requests::{AskedEvents, Drawing};
use std::alloc::Global;

/// The command `draw`.
pub static DRAW: CommandText<'static> = CommandText {
    name: "draw",
    usage: "pmtrim draw [--failure N | --around I] [--labels FILE | --no-labels] [--out FILE] [FILE]",
    about: "Draws what is safe when, as one SVG.",
    after: "Without --failure and --around it draws what explain tells first; if it tells no entry, the{n}events around the first flush or fence that has no effect, else the first events. A picture has at{n}most 24 events, of a failure, and of stores that are lost or late, those of their slice, and says{n}what is left out. explain --html makes a page to walk through the whole trace.{n}Statuses: 0 done; 2 wrong words, or they are not of this trace; 3 trace or labels refused; 4 file{n}fault; 5 out of memory{n}Example: pmtrim draw run.trace > run.svg",
    words: &[
        Word(
            "failure",
            Value("N"),
            "Draw the assertion of event N, which fails",
        ),
        Word("around", Value("I"), "Draw the events around event I"),
        LABELS_BESIDE,
        NO_LABELS,
        OUT_FILE,
        TRACE_FILE,
    ],
};

/// What these words ask for.
///
/// # Errors
/// A usage fault, or `OutOfMemory`.
pub fn drawing_of<'a>(alloc: Global, given: &ArgMatches<'a>) -> Result<Drawing<'a>, Fault> {
    Ok(Drawing {
        events: asked_events(alloc, given)?,
        labels: given.get_str("labels"),
        no_labels: given.get_flag("no-labels"),
        out: out_name(given),
        file: trace_name(given),
    })
}

// Which events are asked for.
fn asked_events(alloc: Global, given: &ArgMatches<'_>) -> Result<AskedEvents, Fault> {
    let failure = event_of(alloc, given, "failure", "--failure <N>")?;
    let around = event_of(alloc, given, "around", "--around <I>")?;
    match (failure, around) {
        (None, None) => Ok(AskedEvents::First),
        (Some(number), None) => Ok(AskedEvents::Failure(number)),
        (None, Some(number)) => Ok(AskedEvents::Around(number)),
        (Some(_), Some(_)) => Err(Fault::usage(alloc, "'--failure' stands without '--around'")),
    }
}
