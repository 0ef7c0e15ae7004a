//! Copying a pool, with the persisted stores over it.
ghost use Rattle.std.specs.Prelude.{◌≡◌, ◌+◌, ◌-◌, ◌^◌, ◌<◌, ◌≤◌, length, take, reverse, IfOk, IfErr, OnOk, OnErr};
ghost use Rattle.std.specs.Io.KnownBytes.{Consumes, Keeps, IsAtEnd};
ghost use Rattle.pmt_text.specs.Counting.{inner_device, failure_count, failed_call};
ghost use Rattle.pmt_model.specs.Traces.{history};
ghost use Rattle.pmt_image.specs.Crashes.{written_by};
ghost use Rattle.pmt_image.specs.Pools.{AllInside};
ghost use Rattle.pmt_image.specs.Copying.{IsRefused, refusal_of, Copies, CopiesPiece, WritesImage, copy_reads, copy_result, copy_writes, image_reads, image_writes};
ghost use Rattle.pmt_image.specs.declared.copying.ImageFault.TheVariants.{OutOfMemory};

use crate::crash::Crash;
use crate::laying::lay_stores;
use crate::persisting::{StoreFault, persisted_stores};
use crate::pool::Pool;
use pmt_model::{Trace, WordStore};
use pmt_text::{Counted, write_all_counted};
use std::alloc::{AllocError, Global};
use std::io;
use std::io::{Read, Write};

// The bytes of one read at most: all stores are looked at for each piece, so it is large.
const PIECE_SIZE: usize = 16_777_216;

/// What ended the copying.
#[derive(Clone, Copy)]
pub enum Stop {
    /// A read failed.
    Read,
    /// Fewer bytes came than the pool has.
    Short,
    /// A write failed, or the flush once all was written.
    Write,
}

/// Why not the whole pool was written.
#[derive(Clone, Copy)]
pub struct CopyFault {
    /// What ended it.
    pub stop: Stop,
    /// How many bytes are out: the pool's first ones.
    pub written: u64,
}

/// Why the pool was not written.
#[derive(Clone, Copy)]
pub enum ImageFault {
    /// A store before the crash does not lie in the pool, the first of them. Nothing is written.
    Outside {
        /// The number of the store's event, from 1.
        event: u64,
        /// The address of a byte of it that the pool does not have.
        address: u64,
    },
    /// A growth was refused. Nothing is written.
    OutOfMemory,
    /// A device failed, or too few bytes came.
    Copy(CopyFault),
}

impl From<AllocError> for ImageFault {
    ghost from_gives = { λ _ error. error ≡ OutOfMemory };

    fn from(_refused: AllocError) -> Self {
        ImageFault::OutOfMemory
    }
}

/// Writes the pool after the crash: the pool's bytes before the trace began, which the reader gives, each of them replaced by what the last
/// persisted store to it wrote. It holds the persisted stores and one piece of at most 16 MiB, however large the pool is. The reader is read no
/// further than the pool's size.
///
/// A place past the last event counts as that of the last event.
///
/// # Errors
/// `Outside`, `OutOfMemory`: nothing is read or written then. `Copy` where a read or a write failed, or the reader was at its end before
/// the pool was whole: the first `written` bytes are out, unless a write failed all that were read.
pub fn write_image<R: Read, W: Write>(
    alloc: Global,
    trace: &Trace,
    crash: &Crash,
    pool: Pool,
    reader: &mut Counted<R>,
    writer: &mut Counted<W>,
) -> Result<(), ImageFault>
    requires pool { pool.origin + pool.size < 2 ^ 63 }
    requires reads { failure_count reader.old < 2 ^ 64 - 1 }
    requires writes { failure_count writer.old < 2 ^ 64 - 1 }
    ensures image { WritesImage trace.now crash.now pool (R.remaining (inner_device reader.old)) (R.remaining (inner_device reader.new)) (W.contents (inner_device writer.old)) (W.contents (inner_device writer.new)) result }
    ensures read_failures { failure_count reader.new ≡ failure_count reader.old + image_reads result }
    ensures write_failures { failure_count writer.new ≡ failure_count writer.old + image_writes result }
{
    let stores = match persisted_stores(alloc, trace, crash, pool) {
        Ok(stores) => stores,
        Err(fault) => return Err(refusal(fault)),
    };
    let size = pool.size.clamp(1, PIECE_SIZE as u64) as usize;
    let mut buffer = vec![in alloc; 0; size]?;
    let done = copy_pool(
        stores.as_slice(),
        pool,
        buffer.as_mut_slice(),
        reader,
        writer,
    );
    copied(done)
}

// What is told of the copying.
fn copied(done: Result<(), CopyFault>) -> Result<(), ImageFault>
    ensures { result ≡ copy_result done }
{
    match done {
        Ok(()) => Ok(()),
        Err(fault) => Err(ImageFault::Copy(fault)),
    }
}

/// Whether `write_image` would refuse the pool before it reads or writes a byte. Nothing is read or written.
///
/// # Errors
/// `Outside` of the first store before the crash that does not lie in the pool; `OutOfMemory`.
pub fn check_pool(alloc: Global, trace: &Trace, crash: &Crash, pool: Pool) -> Result<(), ImageFault>
    requires { pool.origin + pool.size < 2 ^ 63 }
    ensures inside { OnOk result (AllInside pool (history trace.now crash.now.place)) }
    ensures fault { IfErr result (IsRefused trace.now crash.now.place pool) }
{
    match persisted_stores(alloc, trace, crash, pool) {
        Ok(_stores) => Ok(()),
        Err(fault) => Err(refusal(fault)),
    }
}

// What is told of the fault.
fn refusal(fault: StoreFault) -> ImageFault
    ensures { result ≡ refusal_of fault }
{
    match fault {
        StoreFault::Outside { event, address } => ImageFault::Outside { event, address },
        StoreFault::OutOfMemory => ImageFault::OutOfMemory,
    }
}

// Copies the pool through the buffer, with the stores over it, and then flushes once.
fn copy_pool<R: Read, W: Write>(
    stores: &[WordStore],
    pool: Pool,
    buffer: &mut [u8],
    reader: &mut Counted<R>,
    writer: &mut Counted<W>,
) -> Result<(), CopyFault>
    requires pool { pool.origin + pool.size < 2 ^ 63 }
    requires room { 0 < length buffer.old × length buffer.old ≤ 16777216 }
    requires reads { failure_count reader.old < 2 ^ 64 - 1 }
    requires writes { failure_count writer.old < 2 ^ 64 - 1 }
    ensures copied { Copies (written_by (reverse stores.now)) pool.origin pool.size (R.remaining (inner_device reader.old)) (R.remaining (inner_device reader.new)) (W.contents (inner_device writer.old)) (W.contents (inner_device writer.new)) result }
    ensures read_failures { failure_count reader.new ≡ failure_count reader.old + copy_reads result }
    ensures write_failures { failure_count writer.new ≡ failure_count writer.old + copy_writes result }
{
    let mut done = 0;
    while done < pool.size {
        match copy_piece(
            stores,
            pool.origin + done,
            pool.size - done,
            buffer,
            reader,
            writer,
        ) {
            Ok(count) => done += count,
            Err(fault) => {
                return Err(CopyFault {
                    stop: fault.stop,
                    written: done + fault.written,
                });
            }
        }
    }
    match writer.flush() {
        Ok(()) => Ok(()),
        Err(_) => Err(CopyFault {
            stop: Stop::Write,
            written: done,
        }),
    }
}

// Copies the bytes of one read, of at most so many from the address on, and tells how many.
fn copy_piece<R: Read, W: Write>(
    stores: &[WordStore],
    at: u64,
    most: u64,
    buffer: &mut [u8],
    reader: &mut Counted<R>,
    writer: &mut Counted<W>,
) -> Result<u64, CopyFault>
    requires at { at < 2 ^ 63 }
    requires some { 0 < most }
    requires room { 0 < length buffer.old × length buffer.old ≤ 16777216 }
    requires reads { failure_count reader.old < 2 ^ 64 - 1 }
    requires writes { failure_count writer.old < 2 ^ 64 - 1 }
    ensures copied { CopiesPiece (written_by (reverse stores.now)) at most (R.remaining (inner_device reader.old)) (R.remaining (inner_device reader.new)) (W.contents (inner_device writer.old)) (W.contents (inner_device writer.new)) result }
    ensures read_failures { failure_count reader.new ≡ failure_count reader.old + copy_reads result }
    ensures write_failures { failure_count writer.new ≡ failure_count writer.old + copy_writes result }
{
    let count = match read_piece(reader, buffer, most) {
        Ok(count) => count,
        Err(_) => return Err(none_written(Stop::Read)),
    };
    if count == 0 {
        return Err(none_written(Stop::Short));
    }
    lay_stores(buffer, at, stores);
    match write_all_counted(writer, &buffer[..count]) {
        Ok(()) => Ok(count as u64),
        Err(fault) => Err(CopyFault {
            stop: Stop::Write,
            written: fault.written,
        }),
    }
}

// Nothing of the piece is out.
fn none_written(stop: Stop) -> CopyFault
    ensures stop { result.stop ≡ stop }
    ensures written { result.written ≡ 0 }
{
    CopyFault { stop, written: 0 }
}

// Makes one read of at most so many bytes into the front of the buffer.
fn read_piece<R: Read>(reader: &mut Counted<R>, buffer: &mut [u8], most: u64) -> io::Result<usize>
    requires some { (0 < most) × (0 < length buffer.old) }
    requires counted { failure_count reader.old < 2 ^ 64 - 1 }
    ensures within { IfOk result (λ n. n ≤ length buffer.new) }
    ensures most { IfOk result (λ n. n ≤ most) }
    ensures bytes { IfOk result (λ n. Consumes (R.remaining (inner_device reader.old)) (R.remaining (inner_device reader.new)) (take n buffer.new)) }
    ensures end { IfOk result (λ n. n ≡ 0 → IsAtEnd (R.remaining (inner_device reader.new))) }
    ensures kept { OnErr result (Keeps (R.remaining (inner_device reader.old)) (R.remaining (inner_device reader.new))) }
    ensures failures { failure_count reader.new ≡ failure_count reader.old + failed_call result }
{
    let most = most.min(buffer.len() as u64) as usize;
    reader.read(&mut buffer[..most])
}
