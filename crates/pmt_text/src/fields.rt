//! The fields of a line.
ghost use Rattle.std.specs.Prelude.{◌≡◌, ◌∷◌};
ghost use Rattle.std.specs.Option.{option_map};
ghost use Rattle.pmt_text.specs.Judging.{fields_of, fields_left, first_address, first_number, first_span, with_fields};

use crate::number::{read_address, read_number};

/// The first field, and what stands after the space behind it, if there is one.
#[inline]
pub fn split_field(line: &[u8]) -> (&[u8], Option<&[u8]>)
    ensures { fields_of line.now ≡ result.0.now ∷ fields_left result.1 }
{
    for (i, byte) in line.iter().enumerate() {
        if *byte == b' ' {
            return (&line[..i], Some(&line[i + 1..]));
        }
    }
    (line, None)
}

/// The number in the next field, and what is left after it.
#[inline]
pub(crate) fn next_number(rest: Option<&[u8]>) -> Option<(u64, Option<&[u8]>)>
    ensures { option_map with_fields result ≡ first_number (fields_left rest.entry) }
{
    let (field, rest) = split_field(rest?);
    let number = read_number(10, field)?;
    Some((number, rest))
}

/// The address in the next field, and what is left after it.
#[inline]
pub(crate) fn next_address(rest: Option<&[u8]>) -> Option<(u64, Option<&[u8]>)>
    ensures { option_map with_fields result ≡ first_address (fields_left rest.entry) }
{
    let (field, rest) = split_field(rest?);
    let addr = read_address(field)?;
    Some((addr, rest))
}

/// The address and the length in the next two fields, and what is left after them.
#[inline]
pub(crate) fn next_span(rest: Option<&[u8]>) -> Option<((u64, u64), Option<&[u8]>)>
    ensures { option_map with_fields result ≡ first_span (fields_left rest.entry) }
{
    let (addr, rest) = next_address(rest)?;
    let (len, rest) = next_number(rest)?;
    Some(((addr, len), rest))
}
