//! The words of events.
ghost use Rattle.std.specs.Prelude.{◌≡◌};
ghost use Rattle.pmt_text.specs.Judging.{word_in};

use pmt_model::Format;

/// The first field of an event's line.
#[derive(Clone, Copy, Debug, PartialEq, Eq)]
pub enum Word {
    Store,
    Clwb,
    ClflushOpt,
    Clflush,
    Sfence,
    Mfence,
    IsPersist,
    IsOrderedBefore,
}

/// The word that the field is, of those of the format.
#[inline]
pub fn read_word(format: Format, field: &[u8]) -> Option<Word>
    ensures { result ≡ word_in format field.now }
{
    if field == b"store".as_slice() {
        return Some(Word::Store);
    }
    if field == b"clwb".as_slice() {
        return Some(Word::Clwb);
    }
    if field == b"sfence".as_slice() {
        return Some(Word::Sfence);
    }
    if field == b"clflushopt".as_slice() {
        return Some(Word::ClflushOpt);
    }
    if field == b"isPersist".as_slice() {
        return Some(Word::IsPersist);
    }
    if field == b"isOrderedBefore".as_slice() {
        return Some(Word::IsOrderedBefore);
    }
    if format.version() != 2 {
        return None;
    }
    if field == b"clflush".as_slice() {
        return Some(Word::Clflush);
    }
    if field == b"mfence".as_slice() {
        return Some(Word::Mfence);
    }
    None
}
