//! Writing a whole text to a device.
ghost use Rattle.std.specs.Prelude.{◌≡◌, ◌+◌, ◌-◌, ◌^◌, ◌<◌, length, take, OnOk, OnErr, IfErr};
ghost use Rattle.std.specs.Io.KnownBytes.{Appends};
ghost use Rattle.pmt_text.specs.Counting.{inner_device, failure_count};

use crate::counted::Counted;
use std::io::Write;

/// A write failed, or took no byte, once the first `written` bytes were out.
#[derive(Clone, Copy, Debug, PartialEq, Eq)]
pub struct WriteFault {
    /// How many bytes of the text are out: its first ones.
    pub written: u64,
}

/// Writes the whole text. It does not flush.
///
/// # Errors
/// A `WriteFault` at the first write that fails. The first `written` bytes of the text are out then, and no other.
pub fn write_all_counted<W: Write>(writer: &mut Counted<W>, text: &[u8]) -> Result<(), WriteFault>
    requires { failure_count writer.old < 2 ^ 64 - 1 }
    ensures ok { OnOk result (Appends (W.contents (inner_device writer.old)) (W.contents (inner_device writer.new)) text.now) }
    ensures no_failure { OnOk result (failure_count writer.new ≡ failure_count writer.old) }
    ensures out { IfErr result (λ fault. Appends (W.contents (inner_device writer.old)) (W.contents (inner_device writer.new)) (take fault.written text.now)) }
    ensures some_left { IfErr result (λ fault. fault.written < length text.now) }
    ensures failure { OnErr result (failure_count writer.new ≡ failure_count writer.old + 1) }
{
    let mut written = 0;
    while written < text.len() {
        match writer.write(&text[written..]) {
            Ok(count) if count > 0 => written += count,
            _ => {
                return Err(WriteFault {
                    written: written as u64,
                });
            }
        }
    }
    Ok(())
}
