//! The words of `image --list`.
use crate::arguments::{bad_word, number_in, number_of, out_name, trace_name};
use clap::ArgMatches;
use command_inputs::Fault;
use command_requests::{ListWords, PlaceRange};
use std::alloc::{AllocError, Global};

/// What these words ask for.
///
/// # Errors
/// A usage fault, or `OutOfMemory`.
pub fn list_words<'a>(alloc: Global, given: &ArgMatches<'a>) -> Result<ListWords<'a>, Fault> {
    if has_other(given) {
        return Err(Fault::usage(
            alloc,
            "'--list' stands with '--at', '--off' and '--out' alone",
        ));
    }
    Ok(ListWords {
        places: places_of(alloc, given)?,
        off: number_of(alloc, given, "off", "--off <K>")?.unwrap_or(1),
        out: out_name(given),
        file: trace_name(given),
    })
}

// Whether there are words of one image.
fn has_other(given: &ArgMatches<'_>) -> bool {
    given.get_flag("all")
        || given.get_str("failure").is_some()
        || given.get_strs("line").is_some()
        || given.get_str("pool").is_some()
        || given.get_str("origin").is_some()
}

// The places that are asked for.
fn places_of(alloc: Global, given: &ArgMatches<'_>) -> Result<Vec<PlaceRange>, Fault> {
    let Some(word) = given.get_str("at") else {
        return Ok(Vec::new(alloc));
    };
    match read_places(alloc, word)? {
        Some(places) => Ok(places),
        None => {
            let allowed = "places and ranges of them, as 12,40-60, decimal without leading zeros";
            Err(bad_word(alloc, word, "--at <PLACES>", allowed))
        }
    }
}

// The places that the word names.
fn read_places(alloc: Global, word: &str) -> Result<Option<Vec<PlaceRange>>, AllocError> {
    let mut places = Vec::new(alloc);
    for piece in word.split(',') {
        match read_range(piece) {
            Some(range) => places.push(range)?,
            None => return Ok(None),
        }
    }
    Ok(Some(places))
}

// The range that `N` or `N-M` names.
fn read_range(piece: &str) -> Option<PlaceRange> {
    let (first, last) = piece.split_once('-').unwrap_or((piece, piece));
    let first = number_in(first)?;
    let last = number_in(last)?;
    if first <= last {
        Some(PlaceRange { first, last })
    } else {
        None
    }
}
