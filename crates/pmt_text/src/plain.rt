//! The events of the lines at the front of a text, for as long as each is plain in one pass.
ghost use Rattle.std.specs.Prelude.{◌≡◌, [], ◌∷◌, ◌++◌, ◌<◌, ◌≤◌, ◌⊎◌, length, IfOk, OnOk};
ghost use Rattle.pmt_model.specs.Traces.{event_limit};
ghost use Rattle.pmt_text.specs.Spelled.{Adds, AddsFirst, AddsLine, AddsStore, AreFirstEvents};
ghost use Rattle.pmt_text.specs.Spelling.{event_text, word_text};

use crate::spelled::{SpelledStore, after_clwb, after_sfence, take_other, take_store, take_word};
use crate::word::Word;
use pmt_model::{Event, OutOfMemory, Trace};
use std::alloc::AllocError;

// Puts the event at the trace's end, if it is of the trace's format: whether it is.
#[inline(always)]
fn add(event: Event, trace: &mut Trace) -> Result<bool, OutOfMemory>
    requires { length trace.old.events < event_limit }
    ensures { IfOk result (λ added. Adds event added trace.old trace.new) }
{
    if !event.is_in(trace.format()) {
        return Ok(false);
    }
    let Event { thread, op } = event;
    match trace.push(Event { thread, op }) {
        Ok(()) => Ok(true),
        Err(_) => Err(AllocError),
    }
}

// Puts the event of a store of eight bytes at the trace's end, if it is one of the trace's format: whether it is.
#[inline(always)]
fn add_whole(store: SpelledStore, trace: &mut Trace) -> Result<bool, OutOfMemory>
    requires whole { store.len ≡ 8 }
    requires room { length trace.old.events < event_limit }
    ensures { IfOk result (λ added. AddsStore store added trace.old trace.new) }
{
    match store.whole_event() {
        Some(event) => add(event, trace),
        None => Ok(false),
    }
}

// The same, of fewer bytes, which are copied by a call. It is one of its own and takes the store part by part, so that the others keep
// their values in registers.
#[inline(never)]
fn add_short(
    thread: u8,
    addr: u64,
    number: u64,
    len: usize,
    trace: &mut Trace,
) -> Result<bool, OutOfMemory>
    requires few { len ≤ 8 }
    requires room { length trace.old.events < event_limit }
    ensures { IfOk result (λ added. AddsStore (record { thread = thread; addr = addr; number = number; len = len }) added trace.old trace.new) }
{
    let store = SpelledStore {
        thread,
        addr,
        number,
        len,
    };
    match store.event() {
        Some(event) => add(event, trace),
        None => Ok(false),
    }
}

// Puts the event of the store's line, after whose word this stands, at the trace's end: what stands after its LF.
#[inline(always)]
fn add_store<'a>(
    line: &[u8],
    text: &'a [u8],
    trace: &mut Trace,
) -> Result<Option<&'a [u8]>, OutOfMemory>
    requires word { line.now ≡ (word_text Word.Store ++ 32 ∷ []) ++ text.now }
    requires room { length trace.old.events < event_limit }
    ensures { IfOk result (λ left. AddsFirst line.now left trace.old trace.new) }
{
    let _line = line;
    let Some((store, rest)) = take_store(text) else {
        return Ok(None);
    };
    if store.len != 8 {
        let SpelledStore {
            thread,
            addr,
            number,
            len,
        } = store;
        return match add_short(thread, addr, number, len, trace)? {
            true => Ok(Some(rest)),
            false => Ok(None),
        };
    }
    match add_whole(store, trace)? {
        true => Ok(Some(rest)),
        false => Ok(None),
    }
}

// Puts the event, after whose line this stands, at the trace's end, if it is of the trace's format: what stands after it.
#[inline(always)]
fn add_plain<'a>(
    line: &[u8],
    event: Event,
    rest: &'a [u8],
    trace: &mut Trace,
) -> Result<Option<&'a [u8]>, OutOfMemory>
    requires first { line.now ≡ event_text event ++ rest.now }
    requires room { length trace.old.events < event_limit }
    ensures { IfOk result (λ left. AddsFirst line.now left trace.old trace.new) }
{
    let _line = line;
    match add(event, trace)? {
        true => Ok(Some(rest)),
        false => Ok(None),
    }
}

// Puts the event of a line of a rarer kind at the trace's end: how many bytes the line has with its LF, or 0 where it is not plain.
#[inline(never)]
fn add_other(text: &[u8], trace: &mut Trace) -> Result<usize, OutOfMemory>
    requires { length trace.old.events < event_limit }
    ensures { IfOk result (λ count. AddsLine text.now count trace.old trace.new) }
{
    let Some((event, rest)) = take_other(text) else {
        return Ok(0);
    };
    let count = text.len() - rest.len();
    match add(event, trace)? {
        true => Ok(count),
        false => Ok(0),
    }
}

// Puts the event of the line at the front at the trace's end, where it is one of its format and that is plain in one pass: what stands
// after its LF. Each kind is put there by itself, so that it is built in its place.
#[inline(always)]
fn add_first<'a>(text: &'a [u8], trace: &mut Trace) -> Result<Option<&'a [u8]>, OutOfMemory>
    requires { length trace.old.events < event_limit }
    ensures { IfOk result (λ left. AddsFirst text.now left trace.old trace.new) }
{
    if let Some(rest) = take_word(b"store ", text) {
        return add_store(text, rest, trace);
    }
    if let Some(rest) = take_word(b"clwb ", text) {
        let Some((event, left)) = after_clwb(rest) else {
            return Ok(None);
        };
        return add_plain(text, event, left, trace);
    }
    if let Some(rest) = take_word(b"sfence ", text) {
        let Some((event, left)) = after_sfence(rest) else {
            return Ok(None);
        };
        return add_plain(text, event, left, trace);
    }
    match add_other(text, trace)? {
        0 => Ok(None),
        count => Ok(Some(&text[count..])),
    }
}

/// Puts the events of the lines at the front at the end of the trace, until it has `most` or a line is not plain in one pass: what
/// stands after them.
///
/// # Errors
/// Where memory was refused to the trace.
pub(crate) fn first_events<'a>(
    text: &'a [u8],
    most: usize,
    trace: &mut Trace,
) -> Result<&'a [u8], OutOfMemory>
    requires { most ≤ event_limit }
    ensures taken { IfOk result (λ rest. AreFirstEvents text.now rest.now trace.old trace.new) }
    ensures few { OnOk result ((length trace.new.events ≤ length trace.old.events) ⊎ (length trace.new.events ≤ most)) }
{
    let mut rest = text;
    'line: while trace.len() < most {
        match add_first(rest, trace)? {
            Some(after) => rest = after,
            None => return Ok(rest),
        }
    }
    Ok(rest)
}
