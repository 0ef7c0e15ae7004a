//! The events of traces and scripts, for a person: their fields, and what is allowed there.

use pmt_model::Format;
use pmt_text::header::judge_header;
use pmt_text::number::{read_address, read_bytes, read_number};
use pmt_text::word::{Word, read_word};

/// What a text is meant to be.
#[derive(Drop)]
pub(crate) enum Grammar {
    /// A trace of this format.
    Trace(Format),
    /// A script, whose events have no thread.
    Script,
}

impl Grammar {
    // That of a trace with this first line, which was accepted.
    pub(crate) fn of_trace(first: &[u8]) -> Self {
        Grammar::Trace(judge_header(first).unwrap_or(Format::v1()))
    }

    // The word that the field is.
    pub(crate) fn word(&self, field: &[u8]) -> Option<Word> {
        match self {
            Grammar::Trace(format) => read_word(*format, field),
            Grammar::Script => read_word(Format::v1(), field),
        }
    }

    // What the field in this place after the word holds, from 0. None past the last one.
    pub(crate) fn role_at(&self, word: Word, place: usize) -> Option<Role> {
        match self {
            Grammar::Trace(_) => role_at(word, place),
            Grammar::Script => role_at(word, place.saturating_add(1)),
        }
    }

    // The fields of an event with this word.
    pub(crate) fn form(&self, word: Word) -> &'static str {
        match self {
            Grammar::Trace(_) => form(word),
            Grammar::Script => script_form(word),
        }
    }
}

/// What a field of an event holds.
#[derive(Clone, Copy)]
pub(crate) enum Role {
    Thread,
    Address,
    Bytes,
    Length,
}

impl Role {
    // What a person calls it, before what is said of it.
    pub(crate) fn name(self) -> &'static str {
        match self {
            Role::Thread => "the thread ",
            Role::Address => "the address ",
            Role::Bytes => "the byte string ",
            Role::Length => "the length ",
        }
    }

    // What is allowed there.
    pub(crate) fn allowed(self) -> &'static str {
        match self {
            Role::Thread => "a thread is a decimal number from 0 to 255, without leading zeros",
            Role::Address => {
                "an address is 0x and digits 0-9 and a-f, without leading zeros, from 0x0 to 0xffffffffffff"
            }
            Role::Bytes => {
                "the byte string of a store is 1 to 8 pairs of digits 0-9 and a-f, without a prefix"
            }
            Role::Length => {
                "a length is a decimal number from 1 to 4096, without leading zeros, and its range ends at 0x1000000000000 at most"
            }
        }
    }

    // Whether the field is spelled as this asks.
    pub(crate) fn is_spelled(self, field: &[u8]) -> bool {
        match self {
            Role::Thread | Role::Length => read_number(10, field).is_some(),
            Role::Address => read_address(field).is_some(),
            Role::Bytes => {
                let mut bytes = [0; 8];
                read_bytes(field, &mut bytes).is_some()
            }
        }
    }

    // Whether the field, which is spelled rightly, is out of its range.
    pub(crate) fn is_out_of_range(self, field: &[u8]) -> bool {
        match self {
            Role::Thread => is_outside(read_number(10, field), 0, 255),
            Role::Length => is_outside(read_number(10, field), 1, 4096),
            Role::Address => is_outside(read_address(field), 0, (1 << 48) - 1),
            Role::Bytes => field.len() > 16,
        }
    }
}

// Whether it is a number, and none from the least to the most one.
fn is_outside(number: Option<u64>, least: u64, most: u64) -> bool {
    match number {
        Some(number) => number < least || number > most,
        None => false,
    }
}

// What the field in this place after the word of a trace's event holds, from 0. None past the last one.
fn role_at(word: Word, place: usize) -> Option<Role> {
    match (word, place) {
        (_, 0) => Some(Role::Thread),
        (Word::Sfence | Word::Mfence, _) => None,
        (_, 1) => Some(Role::Address),
        (Word::Store, 2) => Some(Role::Bytes),
        (Word::IsPersist | Word::IsOrderedBefore, 2) => Some(Role::Length),
        (Word::IsOrderedBefore, 3) => Some(Role::Address),
        (Word::IsOrderedBefore, 4) => Some(Role::Length),
        (Word::Store | Word::Clwb | Word::ClflushOpt | Word::Clflush, _) => None,
        (Word::IsPersist | Word::IsOrderedBefore, _) => None,
    }
}

// The fields of a trace's event with this word.
fn form(word: Word) -> &'static str {
    match word {
        Word::Store =>
            "a store is 'store T A HEX': thread, address and byte string, between single spaces",
        Word::Clwb => "a clwb is 'clwb T A': thread and address, between single spaces",
        Word::ClflushOpt =>
            "a clflushopt is 'clflushopt T A': thread and address, between single spaces",
        Word::Clflush => "a clflush is 'clflush T A': thread and address, between single spaces",
        Word::Sfence => "an sfence is 'sfence T': the thread, after a single space",
        Word::Mfence => "an mfence is 'mfence T': the thread, after a single space",
        Word::IsPersist => {
            "an isPersist is 'isPersist T A N': thread, address and length, between single spaces"
        }
        Word::IsOrderedBefore => {
            "an isOrderedBefore is 'isOrderedBefore T A N A N': thread, and address and length of two ranges, between single spaces"
        }
    }
}

// The fields of a script's event with this word. A script has no events of the second version.
fn script_form(word: Word) -> &'static str {
    match word {
        Word::Store =>
            "a store of a script is 'store A HEX': address and byte string, between single spaces",
        Word::Clwb => "a clwb of a script is 'clwb A': the address, after a single space",
        Word::ClflushOpt =>
            "a clflushopt of a script is 'clflushopt A': the address, after a single space",
        Word::Sfence => "an sfence of a script is the word 'sfence' alone",
        Word::IsPersist => {
            "an isPersist of a script is 'isPersist A N': address and length, between single spaces"
        }
        Word::IsOrderedBefore => {
            "an isOrderedBefore of a script is 'isOrderedBefore A N A N': address and length of two ranges, between single spaces"
        }
        Word::Clflush | Word::Mfence => "a script has no such event",
    }
}
