//! The piece of a reader's bytes that is at hand.
ghost use Rattle.std.specs.Prelude.{◌≡◌, ◌+◌, ◌-◌, ◌^◌, ◌<◌, ◌≤◌, [], length, take, drop, Some, IfOk, IfSome, OnErr};
ghost use Rattle.std.specs.Io.KnownBytes.{Consumes, Keeps, IsAtEnd};
ghost use Rattle.pmt_text.specs.Counting.{inner_device, failure_count, failed_call};

use crate::counted::Counted;
use std::io;
use std::io::Read;

/// The most bytes of one read.
pub(crate) const PIECE_SIZE: usize = 4096;

/// What one read gave and was not taken yet.
#[derive(Drop)]
pub(crate) struct Piece {
    bytes: [u8; PIECE_SIZE],
    start: usize,
    end: usize,
    ghost ordered: { start ≤ end },
    ghost within: { end ≤ 4096 },
}

impl Piece {
    ghost use Rattle.pmt_text.specs.Lines.{taken_last, unread};

    pub(crate) fn new() -> Self
        ensures { unread result ≡ [] }
    {
        Piece {
            bytes: [0; PIECE_SIZE],
            start: 0,
            end: 0,
        }
    }

    pub(crate) fn as_slice(&self) -> &[u8]
        ensures { result.now ≡ unread self.now }
    {
        &self.bytes[self.start..self.end]
    }

    // Takes the first `count` bytes.
    pub(crate) fn skip(&mut self, count: usize)
        requires { count ≤ length (unread self.old) }
        ensures left { unread self.new ≡ drop count (unread self.old) }
        ensures last { taken_last self.new count ≡ Some (take count (unread self.old)) }
    {
        self.start += count;
    }

    // The `count` bytes that were taken last, where they are still at hand.
    pub(crate) fn last_taken(&self, count: usize) -> Option<&[u8]>
        ensures { IfSome result (λ bytes. taken_last self.now count ≡ Some bytes.now) }
    {
        if count <= self.start {
            Some(&self.bytes[self.start - count..self.start])
        } else {
            None
        }
    }

    // Makes one read of at most `most` bytes, in place of what it held.
    pub(crate) fn refill<R: Read>(
        &mut self,
        input: &mut Counted<R>,
        most: usize,
    ) -> io::Result<usize>
        requires counted { failure_count input.old < 2 ^ 64 - 1 }
        requires some { 0 < most }
        ensures len { IfOk result (λ n. length (unread self.new) ≡ n) }
        ensures most { IfOk result (λ n. n ≤ most) }
        ensures bytes { IfOk result (λ n. Consumes (R.remaining (inner_device input.old)) (R.remaining (inner_device input.new)) (unread self.new)) }
        ensures end { IfOk result (λ n. n ≡ 0 → IsAtEnd (R.remaining (inner_device input.new))) }
        ensures kept { OnErr result (Keeps (R.remaining (inner_device input.old)) (R.remaining (inner_device input.new))) }
        ensures failures { failure_count input.new ≡ failure_count input.old + failed_call result }
    {
        let count = read_front(input, &mut self.bytes, most)?;
        self.start = 0;
        self.end = count;
        Ok(count)
    }
}

// Makes one read of at most `most` bytes into the front of the buffer.
fn read_front<R: Read>(input: &mut Counted<R>, buf: &mut [u8], most: usize) -> io::Result<usize>
    requires counted { failure_count input.old < 2 ^ 64 - 1 }
    requires some { 0 < most }
    requires room { 0 < length buf.old }
    ensures within { IfOk result (λ n. n ≤ length buf.new) }
    ensures most { IfOk result (λ n. n ≤ most) }
    ensures bytes { IfOk result (λ n. Consumes (R.remaining (inner_device input.old)) (R.remaining (inner_device input.new)) (take n buf.new)) }
    ensures end { IfOk result (λ n. n ≡ 0 → IsAtEnd (R.remaining (inner_device input.new))) }
    ensures kept { OnErr result (Keeps (R.remaining (inner_device input.old)) (R.remaining (inner_device input.new))) }
    ensures failures { failure_count input.new ≡ failure_count input.old + failed_call result }
{
    let most = most.min(buf.len());
    input.read(&mut buf[..most])
}
