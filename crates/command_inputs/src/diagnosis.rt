//! Why a line of a trace or a script is refused, for a person: which field is wrong, and what is allowed there.

use crate::forms::{Grammar, Role};
use crate::refused::Wrong;
use pmt_text::TextKind;
use pmt_text::fields::split_field;
use pmt_text::word::Word;
use std::alloc::Global;

const HEADER: &str =
    "the first line is 'pmtrace 1', or 'pmtrace 2 S' where S, the size of a cache line in bytes, is 32, 64, 128 or 256";

/// What is wrong with the line that was refused for this.
pub(crate) fn diagnosed(alloc: Global, grammar: &Grammar, line: &[u8], kind: TextKind) -> Wrong {
    match kind {
        TextKind::Truncated if line.is_empty() => Wrong::new(alloc, "the input is empty", HEADER),
        TextKind::Truncated => Wrong::new(alloc, "the line does not end", ending(grammar)),
        TextKind::BadHeader => Wrong::new(alloc, "this is no header of a trace", HEADER),
        TextKind::TooManyEvents => Wrong::new(
            alloc,
            "this event is one too many",
            "a trace has at most 1000000 events",
        ),
        TextKind::CrossesWord => Wrong::new(
            alloc,
            "the store crosses the end of an aligned word of 8 bytes",
            "a store lies inside one aligned word, so address mod 8 + number of bytes is at most 8; cut a longer one at the words",
        ),
        TextKind::BadWord => bad_word(alloc, grammar, line),
        TextKind::BadField => wrong_field(alloc, grammar, line, false),
        TextKind::OutOfRange => wrong_field(alloc, grammar, line, true),
    }
}

// How a line has to end.
fn ending(grammar: &Grammar) -> &'static str {
    match grammar {
        Grammar::Trace(_) =>
            "each line ends with LF, the last one too; the trace may have been cut off here",
        Grammar::Script =>
            "each line ends with LF, the last one too; the script may have been cut off here",
    }
}

// The word that is none of the version, and what the words are.
fn bad_word(alloc: Global, grammar: &Grammar, line: &[u8]) -> Wrong {
    let (word, _) = split_field(line);
    if word.is_empty() {
        return Wrong::new(
            alloc,
            "the line does not begin with an event",
            "there are no empty lines and no comments, and a line begins with the word of its event",
        );
    }
    Wrong::of_field(
        alloc,
        "",
        word,
        "is no event here",
        known_words(grammar, word),
    )
}

// The words of the version, or what to do where the word is one of the second version.
fn known_words(grammar: &Grammar, word: &[u8]) -> &'static str {
    let is_second = word == b"clflush".as_slice() || word == b"mfence".as_slice();
    match grammar {
        Grammar::Trace(format) if format.version() == 2 =>
            "an event is store, clwb, clflushopt, clflush, sfence, mfence, isPersist or isOrderedBefore",
        Grammar::Trace(_) if is_second =>
            "clflush and mfence are events of version 2: the first line has to be 'pmtrace 2 64', or another line size",
        _ => "an event is store, clwb, clflushopt, sfence, isPersist or isOrderedBefore",
    }
}

// The first field that is wrong, by its range or else by its spelling, or that is missing or one too many.
fn wrong_field(alloc: Global, grammar: &Grammar, line: &[u8], by_range: bool) -> Wrong {
    let (first, mut rest) = split_field(line);
    let Some(word) = grammar.word(first) else {
        return bad_word(alloc, grammar, line);
    };
    for place in 0..6usize {
        let Some(role) = grammar.role_at(word, place) else {
            break;
        };
        let Some(left) = rest else {
            return missing(alloc, grammar, role, word);
        };
        let (field, after) = split_field(left);
        if by_range && role.is_out_of_range(field) {
            return wrong(alloc, role, field, "is out of range");
        }
        if !role.is_spelled(field) {
            return wrong(alloc, role, field, "is not spelled as in a trace");
        }
        rest = after;
    }
    if rest.is_some() {
        return Wrong::new(alloc, "there is a field too many", grammar.form(word));
    }
    Wrong::new(
        alloc,
        "the range ends past the last address",
        Role::Length.allowed(),
    )
}

// The field that is missing, and the form of the event.
fn missing(alloc: Global, grammar: &Grammar, role: Role, word: Word) -> Wrong {
    let name = role.name();
    Wrong {
        what: format!(in alloc; "{name}is missing"),
        allowed: grammar.form(word),
    }
}

// The field that is wrong, how it is, and what is allowed there.
fn wrong(alloc: Global, role: Role, field: &[u8], how: &str) -> Wrong {
    Wrong::of_field(alloc, role.name(), field, how, role.allowed())
}
