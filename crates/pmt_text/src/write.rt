//! Writing traces and events.
ghost use Rattle.std.specs.Prelude.{◌≡◌, ◌++◌, ◌∷◌, [], ◌≤◌, length, IfOk, OnOk};
ghost use Rattle.pmt_text.specs.Judging.{IsBase};
ghost use Rattle.pmt_text.specs.Spelling.{event_text, header, numeral, spelling};

pub use crate::line_text::LINE_ROOM;
use crate::line_text::{glyph, spell_line};
use pmt_model::{Event, Format, OutOfMemory, Trace};
use std::alloc::Global;

/// The most bytes of a header, and of an event's line, with their LF.
const HEADER_SIZE: usize = 14;

const LINE_SIZE: usize = 60;

/// The one text of the trace.
///
/// # Errors
/// `OutOfMemory`.
pub fn write_trace(alloc: Global, trace: &Trace) -> Result<Vec<u8>, OutOfMemory>
    ensures { IfOk result (λ text. text.items ≡ spelling trace.now) }
{
    let mut text = Vec::with_capacity(alloc, HEADER_SIZE + LINE_SIZE * trace.len())?;
    push_header(&mut text, trace.format())?;
    let mut line = [0; LINE_ROOM];
    for event in trace.events() {
        push_line(&mut text, &mut line, event)?;
    }
    Ok(text)
}

/// The event's line in the text of a trace, with its LF.
///
/// # Errors
/// `OutOfMemory`.
pub fn write_event(alloc: Global, event: Event) -> Result<Vec<u8>, OutOfMemory>
    ensures { IfOk result (λ text. text.items ≡ event_text event) }
{
    let mut text = Vec::new(alloc);
    let mut line = [0; LINE_ROOM];
    push_line(&mut text, &mut line, &event)?;
    Ok(text)
}

/// Adds the line of the header.
///
/// # Errors
/// `OutOfMemory`: the text may then have some of the line.
pub fn push_header(text: &mut Vec<u8>, format: Format) -> Result<(), OutOfMemory>
    ensures { OnOk result (text.new.items ≡ text.old.items ++ (header format ++ 10 ∷ [])) }
{
    if format.version() == 1 {
        return text.extend_from_slice(b"pmtrace 1\n");
    }
    text.extend_from_slice(b"pmtrace 2 ")?;
    push_number(text, 10, format.line_size())?;
    text.push(b'\n')?;
    Ok(())
}

/// The event's line, with its LF, spelled in the buffer: at most 125 bytes.
pub fn spell_event<'a>(line: &'a mut [u8; LINE_ROOM], event: &Event) -> &'a [u8]
    ensures value { result.now ≡ event_text event.now }
    ensures few { length result.now ≤ 125 }
{
    let at = spell_line(line, event);
    &line[at..]
}

/// Adds the line of the event.
///
/// # Errors
/// `OutOfMemory`: the text may then have some of the line.
pub fn push_event(text: &mut Vec<u8>, event: &Event) -> Result<(), OutOfMemory>
    ensures { OnOk result (text.new.items ≡ text.old.items ++ event_text event.now) }
{
    let mut line = [0; LINE_ROOM];
    push_line(text, &mut line, event)
}

/// Adds the line of the event, which is spelled in the buffer.
#[inline(always)]
fn push_line(
    text: &mut Vec<u8>,
    line: &mut [u8; LINE_ROOM],
    event: &Event,
) -> Result<(), OutOfMemory>
    ensures { OnOk result (text.new.items ≡ text.old.items ++ event_text event.now) }
{
    let at = spell_line(line, event);
    text.extend_from_slice(&line[at..])
}

/// Adds the number in base 10 or 16, with no leading zero.
///
/// # Errors
/// `OutOfMemory`: the text may then have some of the digits or none.
#[inline]
pub fn push_number(text: &mut Vec<u8>, base: u64, number: u64) -> Result<(), OutOfMemory>
    requires { IsBase base }
    ensures { OnOk result (text.new.items ≡ text.old.items ++ numeral base number) }
{
    let mut digits = [0; 20];
    let mut at = 20;
    let mut rest = number;
    while rest >= base {
        at -= 1;
        digits[at] = glyph(rest % base);
        rest /= base;
    }
    at -= 1;
    digits[at] = glyph(rest);
    text.extend_from_slice(&digits[at..])
}
