//! The words of the program, by clap.
use crate::described::{CommandText, Made, command_of, with_text};
use crate::draw_words::DRAW;
use crate::explain_words::EXPLAIN;
use crate::image_words::IMAGE;
use crate::parts_words::PARTS;
use crate::plain_commands::{CHECK, FRONTS, RECORD, TRIM};
use crate::slice_words::SLICE;
use crate::stat_words::STAT;
use command_requests::VERSION;
use std::alloc::Global;

// The program as its commands are described.
static PROGRAM: CommandText<'static> = CommandText {
    name: "pmtrim",
    usage: "pmtrim < TRACE\n       pmtrim check [--out FILE] [FILE]\n       pmtrim explain [--ignore A:N].. [--limit N] [--only KIND] .. [--strict] [--labels FILE]\n                      [--source DIR] [--json | --html] [--out FILE] [FILE]\n       pmtrim trim [--stream | --out FILE] [FILE]\n       pmtrim fronts [--out FILE] FILE PLACE\n       pmtrim record [--out FILE] SCRIPT..\n       pmtrim draw [--failure N | --around I] [--labels FILE] [--out FILE] [FILE]\n       pmtrim image (--failure N | --at PLACE [--all] [--line A:K]..) [--pool BASE --origin A]\n                    [--out FILE] [FILE]\n       pmtrim image --list [--at PLACES] [--off K] [--out FILE] [FILE]\n       pmtrim slice (--failure N | --store N) [[--labels FILE] --out FILE] [FILE]\n       pmtrim stat [--labels FILE] [--out FILE] [FILE]\n       pmtrim parts [--events N] [--overlap N] [--ignore A:N].. [--labels FILE] --out PREFIX [FILE]",
    about: "Checks traces of persistent memory events, and trims the flushes and fences that no crash can{n}show. With no words it trims the trace on standard input.",
    after: "A FILE that is not given, or is -, is standard input. The answer goes to standard output, faults to{n}standard error.{n}Statuses: 0 done; 1 check, explain: an assertion fails, or stores are lost; 2 wrong words;{n}3 trace or script refused; 4 file fault; 5 out of memory; 6 torn recorder{n}Example: pmtrim < run.trace > trimmed.trace",
    words: &[],
};

/// The words of the program and of its commands, in the order of the help.
///
/// # Errors
/// Where memory was refused.
pub fn commands<'a>(alloc: Global) -> Made<'a> {
    let mut made = program(alloc);
    for text in [
        &CHECK, &EXPLAIN, &TRIM, &FRONTS, &RECORD, &DRAW, &IMAGE, &SLICE, &PARTS, &STAT,
    ] {
        made = with_text(alloc, made, text);
    }
    made
}

fn program<'a>(alloc: Global) -> Made<'a> {
    let command = command_of(alloc, &PROGRAM)?;
    command
        .version(VERSION)
        .no_binary_name(true)
        .bin_name("pmtrim")
}
