//! Readers of traces behind a buffer.
ghost use Rattle.std.specs.Prelude.{◌≡◌, IfErr, IfOk};
ghost use Rattle.std.specs.Io.Buffered.{reader_remaining};
ghost use Rattle.pmt_text.specs.Counting.{failure_count, inner_device};
ghost use Rattle.command_inputs.specs.Devices.{recalled_device};

use crate::fault::Fault;
use crate::recalling::{Recalling, Recalls};
use pmt_text::Counted;
use std::alloc::Global;
use std::io::{BufReader, Read};

// So many bytes are asked of the system at once. A source takes them in pieces, and asks for more once it has judged all complete lines.
const BUFFER_SIZE: usize = 32_768;

/// The reader behind a buffer, so that a long trace takes few calls of the system.
///
/// # Errors
/// `OutOfMemory`.
pub(crate) fn buffered<R: Read + Drop>(alloc: Global, reader: R) -> Result<BufReader<R>, Fault>
    ensures bytes { IfOk result (λ buffered. reader_remaining R.remaining buffered ≡ R.remaining reader) }
    ensures fault { IfErr result (λ fault. fault ≡ Fault.OutOfMemory) }
{
    match BufReader::with_capacity(alloc, BUFFER_SIZE, reader) {
        Ok(reader) => Ok(reader),
        Err(_) => Err(Fault::OutOfMemory),
    }
}

// The reader behind a buffer, which recalls this.
fn recalled<R: Read + Drop>(
    alloc: Global,
    reader: R,
    recalls: Recalls,
) -> Result<Recalling<BufReader<R>>, Fault>
    ensures bytes { IfOk result (λ recalled. reader_remaining R.remaining (recalled_device recalled) ≡ R.remaining reader) }
    ensures fault { IfErr result (λ fault. fault ≡ Fault.OutOfMemory) }
{
    match buffered(alloc, reader) {
        Ok(reader) => Ok(Recalling::new(alloc, reader, recalls)),
        Err(_) => Err(Fault::OutOfMemory),
    }
}

/// The reader behind a buffer, which recalls this, and whose failures are counted.
///
/// # Errors
/// `OutOfMemory`.
pub fn counted_reader<R: Read + Drop>(
    alloc: Global,
    reader: R,
    recalls: Recalls,
) -> Result<Counted<Recalling<BufReader<R>>>, Fault>
    ensures bytes { IfOk result (λ counted. reader_remaining R.remaining (recalled_device (inner_device counted)) ≡ R.remaining reader) }
    ensures failures { IfOk result (λ counted. failure_count counted ≡ 0) }
    ensures fault { IfErr result (λ fault. fault ≡ Fault.OutOfMemory) }
{
    match recalled(alloc, reader, recalls) {
        Ok(reader) => Ok(Counted::new(reader)),
        Err(_) => Err(Fault::OutOfMemory),
    }
}
