//! The words of `image`.
use crate::arguments::{
    ADDRESS, address_in, event_of, number_of, out_name, trace_name, value_of, values_of,
};
use crate::described::WordKind::{Flag, Value, Values};
use crate::described::{CommandText, OUT_FILE, TRACE_FILE, Word};
use crate::image_list_words::list_words;
use clap::ArgMatches;
use command_inputs::Fault;
use command_requests::{AddressStores, AskedCrash, ImageWords, Request};
use pmt_image::{LineWord, read_line_word};
use std::alloc::Global;

/// The command `image`.
pub static IMAGE: CommandText<'static> = CommandText {
    name: "image",
    usage: "pmtrim image (--failure N | --at PLACE [--all] [--line A:K]..) [--pool BASE --origin A]\n                    [--out FILE] [FILE]\n       pmtrim image --list [--at PLACES] [--off K] [--out FILE] [FILE]",
    about: "Writes the pool's file as a crash leaves it, or lists crashes.",
    after: "A crash at a place leaves each line the stores that no crash can lose, with --all all its stores,{n}and the line of address A its first K. Without --pool and --origin the pool is FILE.base, and{n}FILE.origin has the address of its first byte.{n}The list has the crashes at each place that leave all lines but K the stores that no crash can lose,{n}and those that leave all but K all their stores: a line each, of the words that image takes. Without{n}--at the places are those after a fence or a clflush, and those after a store, or at the beginning,{n}with no store coming next.{n}Statuses: 0 done; 2 wrong words, or no crash leaves so many stores; 3 trace or pool refused; 4 file{n}fault; 5 out of memory{n}Example: pmtrim image --failure 7 --out crashed.pool run.trace",
    words: &[
        Word(
            "list",
            Flag,
            "List the crashes near places, and write no pool",
        ),
        Word(
            "off",
            Value("K"),
            "With --list: how many lines may be off (1)",
        ),
        Word(
            "failure",
            Value("N"),
            "The crash that violates the assertion of event N, as explain tells it",
        ),
        Word(
            "at",
            Value("PLACE"),
            "A crash after PLACE events; with --list places, as 12,40-60",
        ),
        Word("all", Flag, "Leave each line all its stores"),
        Word(
            "line",
            Values("A:K"),
            "Leave the line of address A its first K stores, as 0x1000:2; may be repeated,{n}and the last one of a line counts",
        ),
        Word(
            "pool",
            Value("BASE"),
            "The pool's file before the trace began; wants --origin",
        ),
        Word(
            "origin",
            Value("A"),
            "The address of the pool's first byte (hexadecimal); wants --pool",
        ),
        OUT_FILE,
        TRACE_FILE,
    ],
};

/// What these words ask for.
///
/// # Errors
/// A usage fault, or `OutOfMemory`.
pub fn image_request<'a>(alloc: Global, given: &ArgMatches<'a>) -> Result<Request<'a>, Fault> {
    if given.get_flag("list") {
        return Ok(Request::ImageList(list_words(alloc, given)?));
    }
    if given.get_str("off").is_some() {
        return Err(Fault::usage(alloc, "'--off' stands with '--list'"));
    }
    Ok(Request::Image(image_words(alloc, given)?))
}

// The words of one pool.
fn image_words<'a>(alloc: Global, given: &ArgMatches<'a>) -> Result<ImageWords<'a>, Fault> {
    let crash = crash_of(alloc, given)?;
    let words = ImageWords {
        crash,
        pool: given.get_str("pool"),
        origin: value_of(alloc, given, "origin", "--origin <A>", ADDRESS, address_in)?,
        out: out_name(given),
        file: trace_name(given),
    };
    if words.pool.is_some() != words.origin.is_some() {
        return Err(Fault::usage(alloc, "'--pool' and '--origin' stand together"));
    }
    if words.pool.is_none() && words.file.is_none() {
        return Err(Fault::usage(
            alloc,
            "a trace from standard input has no pool beside it: name it by '--pool' and '--origin'",
        ));
    }
    Ok(words)
}

// Which crash is asked for.
fn crash_of(alloc: Global, given: &ArgMatches<'_>) -> Result<AskedCrash, Fault> {
    let failure = event_of(alloc, given, "failure", "--failure <N>")?;
    let place = number_of(alloc, given, "at", "--at <PLACE>")?;
    let all = given.get_flag("all");
    let lines = lines_of(alloc, given)?;
    match (failure, place) {
        (Some(number), None) if !all && lines.is_empty() => Ok(AskedCrash::Failure(number)),
        (Some(_), None) => Err(Fault::usage(alloc, "'--all' and '--line' stand with '--at'")),
        (None, Some(place)) => Ok(AskedCrash::At { place, all, lines }),
        _ => Err(Fault::usage(alloc, "one of '--failure' and '--at' says which crash")),
    }
}

// The lines that are asked for.
fn lines_of(alloc: Global, given: &ArgMatches<'_>) -> Result<Vec<AddressStores>, Fault> {
    let allowed = "an address and how many stores, as 0x1000:2";
    values_of(alloc, given, "line", "--line <A:K>", allowed, |word| {
        let LineWord { address, stores } = read_line_word(word)?;
        Some(AddressStores { address, stores })
    })
}
