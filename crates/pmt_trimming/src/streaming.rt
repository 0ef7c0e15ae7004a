//! The trimmer that writes as the events come.
ghost use Rattle.std.specs.Prelude.{◌≡◌, ◌+◌, ◌-◌, ◌^◌, ◌<◌, ℕ, List, Option, length};
ghost use Rattle.std.specs.Io.KnownBytes.{Keeps};
ghost use Rattle.pmt_model.specs.Traces.{Recording};
ghost use Rattle.pmt_text.specs.Counting.{failure_count, inner_device};
ghost use Rattle.pmt_trimming.specs.Streaming.{Closes, IsSoFar, IsUnderWay, WritesPiece, WritesRest, piece_faults, CountsStream, Streams, TellsStream, stream_write_faults};

use crate::stream::Stream;
use crate::stream_error::StreamError;
use pmt_text::{Counted, EventSource, write_all_counted};
use std::alloc::Global;
use std::io::Write;

/// Trims the trace whose events the source gives, while they come: each event that is kept is written as soon as no flush is left at or
/// before it whose thread has not fenced since. The header is written before the first event is asked for. What leaves with one event
/// is written in one piece, and the writer is flushed once after the last one. Memory is that of the events that wait.
///
/// # Errors
/// `Source` with the fault that the source told. Where it was told for the format, or had been told before, nothing is out. Else just the
/// header is out and, of the events that the source gave, those that are kept and stand before the oldest flush whose thread has not
/// fenced since; also where a read failed, too much came, or memory was refused to the source.
/// `OutOfMemory` where memory was refused to the trimmer itself; the source told no fault then, and what was out before the event stays
/// out. `Write` where a write or the last flush failed, also after another fault: the first `written` bytes are out. In each case the
/// bytes that are out are the first of the trimmed trace, whatever would have come.
pub fn trim_stream<S: EventSource, W: Write>(
    alloc: Global,
    source: &mut S,
    out: &mut Counted<W>,
) -> Result<(), StreamError>
    requires { failure_count out.old < 2 ^ 64 - 1 }
    ensures streams { Streams (record { coming = S.coming source.old; before = S.given source.old; after = S.given source.new; format = S.known_format source.new }) (W.contents (inner_device out.old)) (W.contents (inner_device out.new)) result }
    ensures told { TellsStream (S.state source.old) result (S.state source.new) }
    ensures within { (first : Option (List ℕ)) → S.within source.old first → S.within source.new first }
    ensures read_failures { CountsStream (S.failures source.old) result (S.failures source.new) }
    ensures write_failures { failure_count out.new ≡ failure_count out.old + stream_write_faults result }
{
    let format = match source.format() {
        Ok(format) => format,
        Err(fault) => return Err(StreamError::Source(fault)),
    };
    let Ok(mut stream) = Stream::new(alloc, format) else {
        return Err(StreamError::OutOfMemory);
    };
    let mut written = match write_piece(out, stream.queue.text(), 0) {
        Ok(written) => written,
        Err(fault) => return Err(fault),
    };
    'take: loop {
        match source.next() {
            Ok(Some(event)) => {
                let Ok(()) = stream.take(&event, source.last_line()) else {
                    return close(out, written, Err(StreamError::OutOfMemory));
                };
                match write_piece(out, stream.queue.text(), written) {
                    Ok(more) => written = more,
                    Err(fault) => return Err(fault),
                }
            }
            Ok(None) => return write_rest(alloc, stream, out, written),
            Err(fault) => return close(out, written, Err(StreamError::Source(fault))),
        }
    }
}

// The source has told its end: what still waits leaves, and the writer is flushed.
fn write_rest<W: Write>(
    alloc: Global,
    stream: Stream,
    out: &mut Counted<W>,
    written: u64,
) -> Result<(), StreamError>
    requires writes { failure_count out.old < 2 ^ 64 - 1 }
    requires under_way { IsUnderWay stream written }
    ensures rest { (T : Recording) (text : List ℕ) → IsSoFar T stream text written → WritesRest T text written (W.contents (inner_device out.old)) (W.contents (inner_device out.new)) result }
    ensures failures { failure_count out.new ≡ failure_count out.old + stream_write_faults result }
{
    let Ok(rest) = stream.finish(alloc) else {
        return close(out, written, Err(StreamError::OutOfMemory));
    };
    match write_piece(out, rest.as_slice(), written) {
        Ok(written) => close(out, written, Ok(())),
        Err(fault) => Err(fault),
    }
}

// Writes the piece after so many bytes, and tells how many there are then.
fn write_piece<W: Write>(
    out: &mut Counted<W>,
    piece: &[u8],
    before: u64,
) -> Result<u64, StreamError>
    requires writes { failure_count out.old < 2 ^ 64 - 1 }
    requires fits { before + length piece.now < 2 ^ 64 }
    ensures written { WritesPiece (W.contents (inner_device out.old)) (W.contents (inner_device out.new)) piece.now before result }
    ensures failures { failure_count out.new ≡ failure_count out.old + piece_faults result }
{
    match write_all_counted(out, piece) {
        Ok(()) => Ok(before + piece.len() as u64),
        Err(fault) => Err(StreamError::Write {
            written: before + fault.written,
        }),
    }
}

// Flushes once after the last byte. A flush that fails is told in place of what was to be told.
fn close<W: Write>(
    out: &mut Counted<W>,
    written: u64,
    told: Result<(), StreamError>,
) -> Result<(), StreamError>
    requires { failure_count out.old < 2 ^ 64 - 1 }
    ensures kept { Keeps (W.contents (inner_device out.old)) (W.contents (inner_device out.new)) }
    ensures told { Closes told written (failure_count out.old) result (failure_count out.new) }
{
    match out.flush() {
        Ok(()) => told,
        Err(_) => Err(StreamError::Write { written }),
    }
}
