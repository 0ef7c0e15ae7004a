//! Pieces of the text of fronts.
ghost use Rattle.std.specs.Prelude.{◌≡◌, ◌++◌, OnOk};
ghost use Rattle.pmt_text.specs.Spelling.{address};
ghost use Rattle.pmt_report.specs.Reports.{fronts_head, front_entry};

use pmt_model::OutOfMemory;
use pmt_text::write::push_number;

// Adds the first line of a fronts text.
pub(crate) fn push_fronts_head(
    text: &mut Vec<u8>,
    place: u64,
    lines: u64,
) -> Result<(), OutOfMemory>
    ensures { OnOk result (text.new.items ≡ text.old.items ++ fronts_head place lines) }
{
    text.extend_from_slice(b"place ")?;
    push_number(text, 10, place)?;
    text.extend_from_slice(b" lines ")?;
    push_number(text, 10, lines)?;
    text.push(b'\n')?;
    Ok(())
}

// Adds the line of a cache line in a fronts text: its first address, its front and its number of stores.
pub(crate) fn push_front_entry(
    text: &mut Vec<u8>,
    addr: u64,
    front: u64,
    count: u64,
) -> Result<(), OutOfMemory>
    ensures { OnOk result (text.new.items ≡ text.old.items ++ front_entry addr front count) }
{
    text.extend_from_slice(b"line ")?;
    push_address(text, addr)?;
    text.extend_from_slice(b" front ")?;
    push_number(text, 10, front)?;
    text.extend_from_slice(b" count ")?;
    push_number(text, 10, count)?;
    text.push(b'\n')?;
    Ok(())
}

// Adds the address: 0x, and the number in base 16.
fn push_address(text: &mut Vec<u8>, addr: u64) -> Result<(), OutOfMemory>
    ensures { OnOk result (text.new.items ≡ text.old.items ++ address addr) }
{
    text.extend_from_slice(b"0x")?;
    push_number(text, 16, addr)
}
