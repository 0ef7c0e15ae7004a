//! Texts in JSON and in HTML.
ghost use Rattle.std.specs.Prelude.{◌≡◌, ℕ, List, ◌++◌, OnOk};
ghost use Rattle.std.specs.List.{flat_map};
ghost use Rattle.pmt_page.specs.Pages.{embedded, embedded_byte, html, html_byte, quoted, quoted_byte};

use crate::digits::push_pair;
use pmt_model::OutOfMemory;

/// Adds JSON as it stands on the page: with `\u003c` for each `<`, which could end the element that it stands in.
///
/// # Errors
/// Where memory was refused. The text may then have some of it.
pub fn push_embedded(text: &mut Vec<u8>, json: &[u8]) -> Result<(), OutOfMemory>
    ensures { OnOk result (text.new.items ≡ text.old.items ++ embedded json.now) }
{
    for byte in json {
        push_embedded_byte(text, *byte)?;
    }
    Ok(())
}

fn push_embedded_byte(text: &mut Vec<u8>, byte: u8) -> Result<(), OutOfMemory>
    ensures { OnOk result (text.new.items ≡ text.old.items ++ embedded_byte byte) }
{
    if byte == b'<' {
        return text.extend_from_slice(b"\\u003c");
    }
    text.push(byte)?;
    Ok(())
}

/// Adds the words as a string of JSON.
///
/// # Errors
/// Where memory was refused. The text may then have some of it.
pub fn push_quoted(text: &mut Vec<u8>, words: &[u8]) -> Result<(), OutOfMemory>
    ensures { OnOk result (text.new.items ≡ text.old.items ++ quoted words.now) }
{
    text.push(b'"')?;
    push_quoted_bytes(text, words)?;
    text.push(b'"')?;
    Ok(())
}

fn push_quoted_bytes(text: &mut Vec<u8>, words: &[u8]) -> Result<(), OutOfMemory>
    ensures { OnOk result (text.new.items ≡ text.old.items ++ flat_map quoted_byte words.now) }
{
    for byte in words {
        push_quoted_byte(text, *byte)?;
    }
    Ok(())
}

fn push_quoted_byte(text: &mut Vec<u8>, byte: u8) -> Result<(), OutOfMemory>
    ensures { OnOk result (text.new.items ≡ text.old.items ++ quoted_byte byte) }
{
    if byte == b'"' {
        return text.extend_from_slice(b"\\\"");
    }
    if byte == b'\\' {
        return text.extend_from_slice(b"\\\\");
    }
    if byte < 32 {
        text.extend_from_slice(b"\\u00")?;
        return push_pair(text, byte);
    }
    text.push(byte)?;
    Ok(())
}

/// Adds the words as text of HTML.
///
/// # Errors
/// Where memory was refused. The text may then have some of it.
pub fn push_html(text: &mut Vec<u8>, words: &[u8]) -> Result<(), OutOfMemory>
    ensures { OnOk result (text.new.items ≡ text.old.items ++ html words.now) }
{
    for byte in words {
        push_html_byte(text, *byte)?;
    }
    Ok(())
}

fn push_html_byte(text: &mut Vec<u8>, byte: u8) -> Result<(), OutOfMemory>
    ensures { OnOk result (text.new.items ≡ text.old.items ++ html_byte byte) }
{
    match byte {
        b'&' => text.extend_from_slice(b"&amp;"),
        b'<' => text.extend_from_slice(b"&lt;"),
        b'>' => text.extend_from_slice(b"&gt;"),
        _ => {
            text.push(byte)?;
            Ok(())
        }
    }
}
