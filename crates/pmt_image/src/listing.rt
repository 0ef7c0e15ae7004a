//! Which crashes are listed, and how one is told.
ghost use Rattle.std.specs.Prelude.{◌≡◌, ◌++◌, OnOk};
ghost use Rattle.pmt_laws.specs.Prelude.{flat_map, Recording};
ghost use Rattle.pmt_image.specs.Listing.{all_words, crash_words, line_words, turns, is_kind, stores_act, raises_act, HaveAllCrashes};

use crate::crash::LineStores;
use pmt_model::{Op, OutOfMemory, Trace};
use pmt_text::write::push_number;

/// Whether what crashes leave turns at the place: it comes right after a fence or a clflush; or the last event of some stores, or the
/// beginning, comes before it, and an event that is no store, or the end, after it.
///
/// `turns_are_enough` says what that leaves out.
pub fn is_turn(trace: &Trace, place: u64) -> bool
    ensures { result ≡ turns trace.now place }
{
    if place > trace.len() as u64 {
        return false;
    }
    if is_raise(trace, place) {
        return true;
    }
    let stored = place == 0 || is_store(trace, place);
    stored && !is_store(trace, place + 1)
}

/// What a crash may leave at any place of a trace, one may leave at a turn. Right before and right after an event that is no store, and at
/// the end, crashes may leave just what they may at some turn.
pub fn turns_are_enough()
    ensures { (T : Recording) → HaveAllCrashes T }
{}

// Whether the event is a store.
fn is_store(trace: &Trace, number: u64) -> bool
    ensures { result ≡ is_kind stores_act trace.now number }
{
    match trace.get(number) {
        Some(event) => matches!(event.op, Op::Store(_)),
        None => false,
    }
}

// Whether the event is one at which stores can get safe.
fn is_raise(trace: &Trace, number: u64) -> bool
    ensures { result ≡ is_kind raises_act trace.now number }
{
    match trace.get(number) {
        Some(event) => matches!(event.op, Op::Sfence | Op::Mfence | Op::Clflush(_)),
        None => false,
    }
}

/// Adds the words by which the program takes the crash after `place` events, with LF: each line has its front, with `all` all its
/// stores, but these as many as they say. The lines are `line_size` bytes long.
///
/// # Errors
/// `OutOfMemory`: the text may then have some of the words.
pub fn push_crash(
    text: &mut Vec<u8>,
    line_size: u64,
    place: u64,
    all: bool,
    lines: &[LineStores],
) -> Result<(), OutOfMemory>
    ensures { OnOk result (text.new.items ≡ text.old.items ++ crash_words line_size place all lines.now) }
{
    text.extend_from_slice(b"--at ")?;
    push_number(text, 10, place)?;
    push_all(text, all)?;
    push_lines(text, line_size, lines)?;
    text.push(b'\n')?;
    Ok(())
}

// Adds the word of all stores, with `all`.
fn push_all(text: &mut Vec<u8>, all: bool) -> Result<(), OutOfMemory>
    ensures { OnOk result (text.new.items ≡ text.old.items ++ all_words all) }
{
    if all {
        text.extend_from_slice(b" --all")?;
    }
    Ok(())
}

// Adds the words of the lines.
fn push_lines(text: &mut Vec<u8>, line_size: u64, lines: &[LineStores]) -> Result<(), OutOfMemory>
    ensures { OnOk result (text.new.items ≡ text.old.items ++ flat_map (line_words line_size) lines.now) }
{
    for index in 0..lines.len() {
        let line = lines[index];
        push_line(text, line_size, line)?;
    }
    Ok(())
}

// Adds the words of a line.
fn push_line(text: &mut Vec<u8>, line_size: u64, line: LineStores) -> Result<(), OutOfMemory>
    ensures { OnOk result (text.new.items ≡ text.old.items ++ line_words line_size line) }
{
    text.extend_from_slice(b" --line 0x")?;
    push_number(text, 16, line.line.saturating_mul(line_size))?;
    text.push(b':')?;
    push_number(text, 10, line.stores)?;
    Ok(())
}
