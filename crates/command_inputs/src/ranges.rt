//! Ranges of bytes as words and files name them: A:N.

use memchr::memchr;
use pmt_asked::ByteRange;
use pmt_text::number::{read_address, read_number};

/// The range that the word names.
pub fn range_in(word: &str) -> Option<ByteRange> {
    range_of(word.as_bytes())
}

// The range that `A:N` names, where A and N are spelled as in a trace and the range lies below 2^48.
pub(crate) fn range_of(text: &[u8]) -> Option<ByteRange> {
    let colon = memchr(b':', text)?;
    let addr = read_address(&text[..colon])?;
    let len = read_number(10, &text[colon + 1..])?;
    let end = addr.checked_add(len)?;
    if len == 0 || end > 1 << 48 {
        return None;
    }
    Some(ByteRange { addr, len })
}
