//! What the words ask for.
use crate::arguments::{out_name, trace_name, value_of};
use crate::command::commands;
use crate::draw_words::drawing_of;
use crate::explain_words::explain_words;
use crate::image_words::image_request;
use crate::parts_words::parts_words;
use crate::slice_words::slice_words;
use crate::stat_words::stat_words;
use clap::error::ErrorKind;
use clap::{ArgMatches, Error};
use command_inputs::Fault;
use command_requests::{RecordWords, Request, Run, RunWords};
use pmt_text::number::read_number;
use std::alloc::Global;
use std::convert::AsStr;

// The greatest place, which `read_number` also gives for greater numbers.
const GREATEST_PLACE: &str = "18446744073709551615";

/// What these words, which stand after the program's name, ask for.
///
/// # Errors
/// A usage fault, or `OutOfMemory`.
pub fn request_of<'a, S: AsStr>(alloc: Global, words: &'a [S]) -> Result<Request<'a>, Fault> {
    match commands(alloc)?.try_get_matches_from(words) {
        Ok(matches) => asked(alloc, &matches),
        Err(error) => shown(alloc, &error),
    }
}

fn shown<'a>(alloc: Global, error: &Error) -> Result<Request<'a>, Fault> {
    if error.kind() == ErrorKind::OutOfMemory {
        return Err(Fault::OutOfMemory);
    }
    let text = format!(in alloc; "{error}")?;
    if error.kind() == ErrorKind::InvalidSubcommand {
        Err(Fault::NoCommand(text))
    } else if error.use_stderr() {
        Err(Fault::Usage(text))
    } else {
        Ok(Request::Show(text))
    }
}

fn asked<'a>(alloc: Global, matches: &ArgMatches<'a>) -> Result<Request<'a>, Fault> {
    match matches.subcommand() {
        Some(("check", given)) => Ok(run_of(given, Run::Check)),
        Some(("explain", given)) => Ok(Request::Explain(explain_words(alloc, given)?)),
        Some(("fronts", given)) => fronts(alloc, given),
        Some(("record", given)) => record(alloc, given),
        Some(("image", given)) => image_request(alloc, given),
        Some(("slice", given)) => Ok(Request::Slice(slice_words(alloc, given)?)),
        Some(("stat", given)) => Ok(Request::Stat(stat_words(given))),
        Some(("parts", given)) => Ok(Request::Parts(parts_words(alloc, given)?)),
        Some(("draw", given)) => Ok(Request::Draw(drawing_of(alloc, given)?)),
        Some((_, given)) => trim(alloc, given),
        None => Ok(run_of(matches, Run::Trim)),
    }
}

// The run over the trace that the words name.
fn run_of<'a>(given: &ArgMatches<'a>, run: Run) -> Request<'a> {
    Request::Run(RunWords {
        run,
        workers: given.get_one::<usize>("workers").unwrap_or(1),
        file: trace_name(given),
        out: out_name(given),
        verbose: given.get_flag("verbose"),
    })
}

fn trim<'a>(alloc: Global, given: &ArgMatches<'a>) -> Result<Request<'a>, Fault> {
    if !given.get_flag("stream") {
        return Ok(run_of(given, Run::Trim));
    }
    if out_name(given).is_some() {
        let message =
            "'--stream' writes to standard output while it reads; a file of '--out' is written whole";
        return Err(Fault::usage(alloc, message));
    }
    Ok(run_of(given, Run::Stream))
}

fn fronts<'a>(alloc: Global, given: &ArgMatches<'a>) -> Result<Request<'a>, Fault> {
    let allowed = "a decimal number without leading zeros, at most 18446744073709551615";
    let place = value_of(alloc, given, "PLACE", "<PLACE>", allowed, place_of)?;
    Ok(run_of(given, Run::Fronts(place.unwrap_or(0))))
}

// The number, where the text is decimal without leading zeros and it is below 2^64.
fn place_of(text: &str) -> Option<u64> {
    match read_number(10, text.as_bytes()) {
        Some(u64::MAX) if text != GREATEST_PLACE => None,
        place => place,
    }
}

fn record<'a>(alloc: Global, given: &ArgMatches<'a>) -> Result<Request<'a>, Fault> {
    let names = given.get_strs("SCRIPT").unwrap_or(&[]);
    if names.len() > 256 {
        return Err(Fault::usage(alloc, "more than 256 scripts"));
    }
    let mut scripts = Vec::new(alloc);
    scripts.extend_from_slice(names)?;
    Ok(Request::Record(RecordWords {
        scripts,
        out: out_name(given),
        verbose: given.get_flag("verbose"),
    }))
}
