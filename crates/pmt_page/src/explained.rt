//! The block of what `explain` tells.
ghost use Rattle.std.specs.Prelude.{◌≡◌, ◌++◌, IfOk, OnOk};
ghost use Rattle.std.specs.List.{flat_map};
ghost use Rattle.pmt_page.specs.Pages.{array_of_lines, separated_byte};

use pmt_model::OutOfMemory;
use std::alloc::Global;

/// These values of JSON, each a line that ends with LF, as an array of them.
///
/// # Errors
/// Where memory was refused.
pub fn explained_text(alloc: Global, lines: &[u8]) -> Result<Vec<u8>, OutOfMemory>
    ensures { IfOk result (λ text. text.items ≡ array_of_lines lines.now) }
{
    let mut text = Vec::new(alloc);
    text.push(b'[')?;
    push_separated(&mut text, &lines[..lines.len().saturating_sub(1)])?;
    text.push(b']')?;
    Ok(text)
}

// Adds the lines with commas between them.
fn push_separated(text: &mut Vec<u8>, lines: &[u8]) -> Result<(), OutOfMemory>
    ensures { OnOk result (text.new.items ≡ text.old.items ++ flat_map separated_byte lines.now) }
{
    for byte in lines {
        push_byte(text, *byte)?;
    }
    Ok(())
}

fn push_byte(text: &mut Vec<u8>, byte: u8) -> Result<(), OutOfMemory>
    ensures { OnOk result (text.new.items ≡ text.old.items ++ separated_byte byte) }
{
    let byte = if byte == b'\n' { b',' } else { byte };
    text.push(byte)?;
    Ok(())
}
