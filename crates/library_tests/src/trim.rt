//! What is out while a stream goes on.
use pmt_text::devices::{LimitedWriter, PieceReader};
use pmt_text::{Counted, TextSource};
use pmt_trim::{StreamError, trim_stream};
use std::alloc::Global;
use std::cell::Cell;
use std::io;
use std::io::{Error, ErrorKind, Read, Write};
use std::process::Abort;

const ONE_PERSIST: &[u8] = b"pmtrace 1\nstore 0 0x1000 01\nclwb 0 0x1000\nsfence 0\n";

// A reader that gives one line at a read, and notes how many bytes were out when it was asked.
#[derive(Drop)]
struct NotingReader<'a> {
    rest: &'a [u8],
    out: &'a Cell<usize>,
    seen: Vec<usize>,
}

impl Read for NotingReader<'_> {
    fn read(&mut self, buf: &mut [u8]) -> io::Result<usize> {
        let Ok(()) = self.seen.push(self.out.get()) else {
            return Err(Error::from(ErrorKind::OutOfMemory));
        };
        let line = match self.rest.iter().position(|byte| *byte == b'\n') {
            Some(end) => end + 1,
            None => self.rest.len(),
        };
        let count = line.min(buf.len()).min(self.rest.len());
        buf[..count].copy_from_slice(&self.rest[..count]);
        self.rest = &self.rest[count..];
        Ok(count)
    }
}

// A writer that counts.
#[derive(Drop)]
struct CountingWriter<'a> {
    out: &'a Cell<usize>,
}

impl Write for CountingWriter<'_> {
    fn write(&mut self, buf: &[u8]) -> io::Result<usize> {
        self.out.set(self.out.get().wrapping_add(buf.len()));
        Ok(buf.len())
    }

    fn flush(&mut self) -> io::Result<()> {
        Ok(())
    }
}

// What is decided is out before the next event is asked for: stream_as_it_goes.
#[test]
fn stream_holds_all_back(rt: HostRuntime) {
    let out = Cell::new(0);
    let reader = NotingReader {
        rest: ONE_PERSIST,
        out: &out,
        seen: Vec::new(rt.alloc()),
    };
    let mut source = TextSource::new(rt.alloc(), Counted::new(reader));
    let mut writer = Counted::new(CountingWriter { out: &out });
    assert_eq!(rt; trim_stream(rt.alloc(), &mut source, &mut writer), Ok(()));
    let reader = source.into_input().into_inner();
    assert_eq!(rt; reader.seen.as_slice(), [0, 10, 28, 28, 51].as_slice());
    assert_eq!(rt; out.get(), 51);
}

// The stream's answer to the text, which comes in reads of so many bytes, and what is out, where the flush fails.
fn fails_to_flush(rt: &impl Abort, alloc: Global, reader: PieceReader<'_>, out: &[u8]) {
    let mut source = TextSource::new(alloc, Counted::new(reader));
    let mut writer = Counted::new(LimitedWriter::failing_flush(alloc, 4096));
    let answer = trim_stream(alloc, &mut source, &mut writer);
    let written = out.len() as u64;
    assert_eq!(rt; answer, Err(StreamError::Write { written }));
    assert_eq!(rt; writer.into_inner().kept(), out);
}

// A flush that fails is told in place of the source's fault: of line 3, and of a read after the header.
#[test]
fn stream_tells_a_failed_flush_before_a_fault(rt: HostRuntime) {
    let text = b"pmtrace 1\nstore 0 0x1000 01\nfoo\n";
    fails_to_flush(&rt, rt.alloc(), PieceReader::new(text, 4096), &text[..28]);
    let reader = PieceReader::failing_after(text, 10, 1);
    fails_to_flush(&rt, rt.alloc(), reader, &text[..10]);
}
