//! Readers and writers over memory that fail where they are told to. They are for tests.
ghost use Rattle.std.specs.Prelude.{◌≡◌, ◌<◌, [], Some, length};

use std::alloc::Global;
use std::io;
use std::io::{Error, ErrorKind, Read, Write};

/// A reader over memory that gives a few bytes at each read, and fails at one of them.
#[derive(Drop)]
pub struct PieceReader<'a> {
    bytes: &'a [u8],
    most: usize,
    reads_before_failure: Option<u64>,
    ghost some: { 0 < most },
}

impl<'a> PieceReader<'a> {
    ghost use Rattle.pmt_text.specs.Counting.{bytes_left};

    /// Gives the bytes, at most `most` of them at a read.
    pub fn new(bytes: &'a [u8], most: usize) -> Self
        requires { 0 < most }
        ensures { bytes_left result ≡ bytes.now }
    {
        PieceReader {
            bytes,
            most,
            reads_before_failure: None,
        }
    }

    /// Fails once, after this many reads.
    pub fn failing_after(bytes: &'a [u8], most: usize, reads: u64) -> Self
        requires { 0 < most }
        ensures { bytes_left result ≡ bytes.now }
    {
        let mut reader = PieceReader::new(bytes, most);
        reader.reads_before_failure = Some(reads);
        reader
    }
}

impl Read for PieceReader<'_> {
    ghost use Rattle.pmt_text.specs.Counting.{bytes_left};

    ghost remaining = { λ r. Some (bytes_left r) };

    fn read(&mut self, buf: &mut [u8]) -> io::Result<usize> {
        match self.reads_before_failure {
            Some(0) => {
                self.reads_before_failure = None;
                return Err(Error::from(ErrorKind::Other));
            }
            Some(left) => self.reads_before_failure = Some(left - 1),
            None => {}
        }
        let count = buf.len().min(self.most).min(self.bytes.len());
        buf[..count].copy_from_slice(&self.bytes[..count]);
        self.bytes = &self.bytes[count..];
        Ok(count)
    }
}

/// A reader that gives some bytes once, and then a piece over and over, without end. It fills what it is lent.
#[derive(Drop)]
pub struct EndlessReader<'a> {
    first: &'a [u8],
    piece: &'a [u8],
    given: usize,
    ghost some: { 0 < length piece.now },
}

impl<'a> EndlessReader<'a> {
    /// Gives the bytes of `first`, which may be none, and then those of the piece for ever.
    pub fn new(first: &'a [u8], piece: &'a [u8]) -> Self
        requires { 0 < length piece.now }
    {
        EndlessReader {
            first,
            piece,
            given: 0,
        }
    }

    fn next_byte(&mut self) -> u8 {
        if let [byte, rest @ ..] = self.first {
            self.first = rest;
            return *byte;
        }
        if self.given >= self.piece.len() {
            self.given = 0;
        }
        let byte = self.piece[self.given];
        self.given += 1;
        byte
    }
}

impl Read for EndlessReader<'_> {
    fn read(&mut self, buf: &mut [u8]) -> io::Result<usize> {
        for slot in buf.iter_mut() {
            *slot = self.next_byte();
        }
        Ok(buf.len())
    }
}

/// A writer that keeps what was written. It takes a few bytes at each call, or none, and may fail at one call or at its flush.
#[derive(Drop)]
pub struct LimitedWriter {
    kept: Vec<u8>,
    most: usize,
    writes_before_failure: Option<u64>,
    flush_fails: bool,
}

impl LimitedWriter {
    ghost use Rattle.pmt_text.specs.Counting.{bytes_kept};

    /// Takes at most `most` bytes at a call.
    pub fn new(alloc: Global, most: usize) -> Self
        ensures { bytes_kept result ≡ [] }
    {
        LimitedWriter {
            kept: Vec::new(alloc),
            most,
            writes_before_failure: None,
            flush_fails: false,
        }
    }

    /// Fails once, after this many writes.
    pub fn failing_after(alloc: Global, most: usize, writes: u64) -> Self
        ensures { bytes_kept result ≡ [] }
    {
        let mut writer = LimitedWriter::new(alloc, most);
        writer.writes_before_failure = Some(writes);
        writer
    }

    /// Fails at each flush.
    pub fn failing_flush(alloc: Global, most: usize) -> Self
        ensures { bytes_kept result ≡ [] }
    {
        let mut writer = LimitedWriter::new(alloc, most);
        writer.flush_fails = true;
        writer
    }

    /// What was written.
    pub fn kept(&self) -> &[u8]
        ensures { result.now ≡ bytes_kept self.now }
    {
        self.kept.as_slice()
    }
}

impl Write for LimitedWriter {
    ghost use Rattle.pmt_text.specs.Counting.{bytes_kept};

    ghost contents = { λ w. Some (bytes_kept w) };

    fn write(&mut self, buf: &[u8]) -> io::Result<usize> {
        match self.writes_before_failure {
            Some(0) => {
                self.writes_before_failure = None;
                return Err(Error::from(ErrorKind::Other));
            }
            Some(left) => self.writes_before_failure = Some(left - 1),
            None => {}
        }
        let count = buf.len().min(self.most);
        self.kept.extend_from_slice(&buf[..count])?;
        Ok(count)
    }

    fn flush(&mut self) -> io::Result<()> {
        if self.flush_fails {
            return Err(Error::from(ErrorKind::Other));
        }
        Ok(())
    }
}
