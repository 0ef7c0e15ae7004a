//! A script from a reader.
ghost use Rattle.std.specs.Prelude.{◌≡◌, ◌≢◌, ◌+◌, ◌-◌, ◌^◌, ◌<◌, true, [], Some, IfErr};
ghost use Rattle.pmt_text.specs.Coming.{byte_limit, script_coming};
ghost use Rattle.pmt_text.specs.Counting.{inner_device, failure_count};
ghost use Rattle.pmt_text.specs.ScriptInputs.{GivesOps, ReadsScript, ReadsWithin, ReadsText, long_fault};
ghost use Rattle.pmt_text.specs.Sources.{read_faults};
ghost use Rattle.pmt_text.specs.Texts.{error_at};

use crate::counted::Counted;
use crate::kind::{ReadError, SourceError, TextError, TextKind};
use crate::line::judge_script_line;
use crate::line_reader::BYTE_LIMIT;
use crate::piece::Piece;
use crate::text::{read_script, split_line};
use pmt_model::Op;
use std::alloc::Global;
use std::io::Read;

const OP_LIMIT: u64 = 1_000_000;

/// The script that a reader gives, as its ops. It is read whole before it is judged, though no byte is read past the first
/// 67,108,865, of which the last is not judged.
///
/// # Errors
/// `Read` exactly where a read failed. Else `Text` with the first faulty line and the first check that fails there; where more than
/// 67,108,864 bytes come, complete lines alone are judged, and `TooMany` says that none of them is faulty. `OutOfMemory`. Never
/// `Failed`.
pub fn read_script_from<R: Read>(
    alloc: Global,
    input: &mut Counted<R>,
) -> Result<Vec<Op>, SourceError>
    requires { failure_count input.old < 2 ^ 64 - 1 }
    ensures script { ReadsScript byte_limit (R.remaining (inner_device input.old)) result }
    ensures within { ReadsWithin (byte_limit + 1) (R.remaining (inner_device input.old)) (R.remaining (inner_device input.new)) }
    ensures failures { failure_count input.new ≡ failure_count input.old + read_faults result }
    ensures told { IfErr result (λ e. e ≢ SourceError.Failed) }
{
    let mut text = Vec::new(alloc);
    let more = read_text(&mut text, input)?;
    judge(alloc, text.as_slice(), more)
}

// Reads to the end, or to the bound, and tells whether more bytes come.
fn read_text<R: Read>(text: &mut Vec<u8>, input: &mut Counted<R>) -> Result<bool, SourceError>
    requires none { text.old.items ≡ [] }
    requires counted { failure_count input.old < 2 ^ 64 - 1 }
    ensures text { ReadsText byte_limit (R.remaining (inner_device input.old)) text.new.items result }
    ensures within { ReadsWithin (byte_limit + 1) (R.remaining (inner_device input.old)) (R.remaining (inner_device input.new)) }
    ensures failures { failure_count input.new ≡ failure_count input.old + read_faults result }
{
    let mut piece = Piece::new();
    let mut room = BYTE_LIMIT;
    while room > 0 {
        match piece.refill(input, room) {
            Ok(0) => return Ok(false),
            Ok(count) => room -= count,
            Err(_) => return Err(SourceError::Read),
        }
        if text.extend_from_slice(piece.as_slice()).is_err() {
            return Err(SourceError::OutOfMemory);
        }
    }
    match piece.refill(input, 1) {
        Ok(0) => Ok(false),
        Ok(_) => Ok(true),
        Err(_) => Err(SourceError::Read),
    }
}

// The script that the bytes are, where this tells whether more come.
fn judge(alloc: Global, text: &[u8], more: bool) -> Result<Vec<Op>, SourceError>
    ensures script { GivesOps result (script_coming more text.now) }
    ensures no_read { read_faults result ≡ 0 }
{
    if more {
        return match faulty_line(text) {
            Some(fault) => Err(SourceError::Text(fault)),
            None => Err(SourceError::TooMany),
        };
    }
    match read_script(alloc, text) {
        Ok(ops) => Ok(ops),
        Err(ReadError::Text(fault)) => Err(SourceError::Text(fault)),
        Err(ReadError::OutOfMemory) => Err(SourceError::OutOfMemory),
    }
}

fn fault(line: u64, kind: TextKind) -> TextError
    ensures { result ≡ error_at line kind }
{
    TextError { line, kind }
}

// The first complete line that is faulty, where more bytes come than these.
fn faulty_line(text: &[u8]) -> Option<TextError>
    ensures { (script_coming true text.now).fault ≡ Some (long_fault result) }
{
    let mut count: u64 = 0;
    let mut rest = text;
    while let Some((line, after)) = split_line(rest) {
        match judge_script_line(line) {
            Ok(_) if count < OP_LIMIT => count += 1,
            Ok(_) => return Some(fault(1 + count, TextKind::TooManyEvents)),
            Err(kind) => return Some(fault(1 + count, kind)),
        }
        rest = after;
    }
    None
}
