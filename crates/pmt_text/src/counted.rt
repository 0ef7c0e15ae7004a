//! Readers and writers that count the calls which fail.
ghost use Rattle.std.specs.Prelude.{◌≡◌, ◌+◌, ◌-◌, ◌^◌, ◌<◌};
ghost use Rattle.std.specs.Io.{ReadsAtMost, WritesAtMost};
ghost use Rattle.std.specs.Io.KnownBytes.{ReadConsumes, WriteAppends, Keeps};
ghost use Rattle.pmt_text.specs.Counting.{inner_device, failure_count, failed_call, failed_write};

use std::io;
use std::io::{Read, Write};

/// A reader or writer that counts the calls which fail. Nothing is retried.
#[derive(Drop)]
pub struct Counted<D> {
    inner: D,
    failures: u64,
}

impl<D> Counted<D> {
    /// The device, none of whose calls has failed yet.
    pub fn new(inner: D) -> Self
        ensures device { inner_device result ≡ inner }
        ensures failures { failure_count result ≡ 0 }
    {
        Counted { inner, failures: 0 }
    }

    /// How many reads, writes and flushes failed. A write that takes no byte of some counts as failed.
    pub fn failures(&self) -> u64
        ensures { result ≡ failure_count self.now }
    {
        self.failures
    }

    /// The device itself.
    pub fn into_inner(self) -> D
        ensures { result ≡ inner_device self }
    {
        let Counted { inner, failures: _ } = self;
        inner
    }
}

impl<R: Read> Counted<R> {
    /// Makes one read.
    ///
    /// # Errors
    /// The reader's own, after which the reader has given no byte.
    pub fn read(&mut self, buf: &mut [u8]) -> io::Result<usize>
        requires { failure_count self.old < 2 ^ 64 - 1 }
        ensures bound { ReadsAtMost result buf.new }
        ensures bytes { ReadConsumes (R.remaining (inner_device self.old)) (R.remaining (inner_device self.new)) result buf.new }
        ensures failures { failure_count self.new ≡ failure_count self.old + failed_call result }
    {
        match self.inner.read(buf) {
            Ok(count) => Ok(count),
            Err(e) => {
                self.failures += 1;
                Err(e)
            }
        }
    }
}

impl<W: Write> Counted<W> {
    /// Makes one write.
    ///
    /// # Errors
    /// The writer's own, after which the writer has taken no byte.
    pub fn write(&mut self, piece: &[u8]) -> io::Result<usize>
        requires { failure_count self.old < 2 ^ 64 - 1 }
        ensures bound { WritesAtMost result piece.now }
        ensures bytes { WriteAppends (W.contents (inner_device self.old)) (W.contents (inner_device self.new)) result piece.now }
        ensures failures { failure_count self.new ≡ failure_count self.old + failed_write result piece.now }
    {
        match self.inner.write(piece) {
            Ok(count) => {
                if count == 0 && !piece.is_empty() {
                    self.failures += 1;
                }
                Ok(count)
            }
            Err(e) => {
                self.failures += 1;
                Err(e)
            }
        }
    }

    /// Makes one flush.
    ///
    /// # Errors
    /// The writer's own.
    pub fn flush(&mut self) -> io::Result<()>
        requires { failure_count self.old < 2 ^ 64 - 1 }
        ensures bytes { Keeps (W.contents (inner_device self.old)) (W.contents (inner_device self.new)) }
        ensures failures { failure_count self.new ≡ failure_count self.old + failed_call result }
    {
        match self.inner.flush() {
            Ok(()) => Ok(()),
            Err(e) => {
                self.failures += 1;
                Err(e)
            }
        }
    }
}
