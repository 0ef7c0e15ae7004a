//! What the words give that several commands have.
use clap::ArgMatches;
use command_inputs::Fault;
use pmt_text::number::{read_address, read_number};
use std::alloc::Global;

/// What is allowed for a range of bytes.
pub const RANGE: &str =
    "the address of the first byte, and how many bytes, as in a trace: 0x1000:8; the last byte is at most 0xffffffffffff";

// What is allowed for a number, and for that of an event.
const NUMBER: &str = "a decimal number without leading zeros";

const EVENT: &str = "an event's number: decimal, from 1, without leading zeros";

/// What is allowed for an address.
pub const ADDRESS: &str = "an address as 0x1000, at most 0xffffffffffff";

/// The name of the trace's file; none for standard input.
pub fn trace_name<'a>(given: &ArgMatches<'a>) -> Option<&'a str> {
    file_name(given, "FILE")
}

/// The name of the file that is written; none for standard output.
pub fn out_name<'a>(given: &ArgMatches<'a>) -> Option<&'a str> {
    file_name(given, "out")
}

fn file_name<'a>(given: &ArgMatches<'a>, name: &str) -> Option<&'a str> {
    match given.get_str(name) {
        Some("-") => None,
        name => name,
    }
}

/// The value of the option with this name, as `read` has it, if it is given.
///
/// # Errors
/// A usage fault that says what is allowed, where that has none; `OutOfMemory`.
pub fn value_of<T, F: Fn(&str) -> Option<T>>(
    alloc: Global,
    given: &ArgMatches<'_>,
    name: &str,
    shown: &str,
    allowed: &str,
    read: F,
) -> Result<Option<T>, Fault>
    requires { F.IsAlwaysCallable read }
{
    let Some(word) = given.get_str(name) else {
        return Ok(None);
    };
    match read(word) {
        Some(value) => Ok(Some(value)),
        None => Err(bad_word(alloc, word, shown, allowed)),
    }
}

/// The values of the option with this name, which may be given more than once, as `read` has them.
///
/// # Errors
/// A usage fault that says what is allowed, of the first word that has none; `OutOfMemory`.
pub fn values_of<T: Drop, F: Fn(&str) -> Option<T>>(
    alloc: Global,
    given: &ArgMatches<'_>,
    name: &str,
    shown: &str,
    allowed: &str,
    read: F,
) -> Result<Vec<T>, Fault>
    requires { F.IsAlwaysCallable read }
{
    let words = given.get_strs(name).unwrap_or(&[]);
    let mut values = Vec::with_capacity(alloc, words.len())?;
    for word in words {
        match read(word) {
            Some(value) => values.push(value)?,
            None => return Err(bad_word(alloc, word, shown, allowed)),
        }
    }
    Ok(values)
}

/// The event number of the option, if it is given.
///
/// # Errors
/// A usage fault where the value is no event's number; `OutOfMemory`.
pub fn event_of(
    alloc: Global,
    given: &ArgMatches<'_>,
    name: &str,
    shown: &str,
) -> Result<Option<u64>, Fault> {
    value_of(alloc, given, name, shown, EVENT, |word| {
        number_in(word).filter(|number| *number > 0)
    })
}

/// The number of the option, if it is given.
///
/// # Errors
/// A usage fault where the value is no number; `OutOfMemory`.
pub fn number_of(
    alloc: Global,
    given: &ArgMatches<'_>,
    name: &str,
    shown: &str,
) -> Result<Option<u64>, Fault> {
    value_of(alloc, given, name, shown, NUMBER, number_in)
}

/// The number that the word is.
pub fn number_in(word: &str) -> Option<u64> {
    read_number(10, word.as_bytes())
}

/// The address that the word is, of 48 bits.
pub fn address_in(word: &str) -> Option<u64> {
    read_address(word.as_bytes()).filter(|address| *address < 1 << 48)
}

/// The usage fault of an option's wrong value, which says what is allowed.
pub fn bad_word(alloc: Global, word: &str, shown: &str, allowed: &str) -> Fault {
    let message = format!(in alloc; "invalid value '{word}' for '{shown}': {allowed}");
    Fault::usage_of(alloc, message)
}
