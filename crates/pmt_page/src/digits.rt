//! Bytes as digits of base 16, and numbers as digits of base 64.
ghost use Rattle.std.specs.Prelude.{◌≡◌, ◌++◌, ◌<◌, OnOk};
ghost use Rattle.pmt_text.specs.Spelling.{glyph as glyph_of, hex_bytes, hex_pair};
ghost use Rattle.pmt_page.specs.Columns.{digit as digit_of, short};

use pmt_model::OutOfMemory;

// The character of a digit: 0 to 9, and then a to f.
fn glyph(digit: u8) -> u8
    requires { digit < 16 }
    ensures { result ≡ glyph_of digit }
{
    if digit < 10 { 48 + digit } else { 87 + digit }
}

/// Adds two digits for the byte.
///
/// # Errors
/// Where memory was refused. The text may then have one of them.
pub(crate) fn push_pair(text: &mut Vec<u8>, byte: u8) -> Result<(), OutOfMemory>
    ensures { OnOk result (text.new.items ≡ text.old.items ++ hex_pair byte) }
{
    text.extend_from_slice(&[glyph(byte / 16), glyph(byte % 16)])
}

/// Adds two digits for each of the bytes.
///
/// # Errors
/// Where memory was refused. The text may then have some of them.
pub(crate) fn push_bytes(text: &mut Vec<u8>, bytes: &[u8]) -> Result<(), OutOfMemory>
    ensures { OnOk result (text.new.items ≡ text.old.items ++ hex_bytes bytes.now) }
{
    for byte in bytes {
        push_pair(text, *byte)?;
    }
    Ok(())
}

// The character of a digit of base 64: 0 to 9, a to z, A to Z, _ and $.
fn digit(value: u64) -> u8
    requires { value < 64 }
    ensures { result ≡ digit_of value }
{
    let value = value as u8;
    if value < 10 {
        48 + value
    } else if value < 36 {
        87 + value
    } else if value < 62 {
        29 + value
    } else if value == 62 {
        b'_'
    } else {
        b'$'
    }
}

/// Adds the number in base 64; 0 has no digit.
///
/// # Errors
/// Where memory was refused. The text may then have some of the digits.
pub(crate) fn push_short(text: &mut Vec<u8>, number: u64) -> Result<(), OutOfMemory>
    ensures { OnOk result (text.new.items ≡ text.old.items ++ short number) }
{
    if number == 0 {
        return Ok(());
    }
    push_short(text, number / 64)?;
    text.push(digit(number % 64))?;
    Ok(())
}
