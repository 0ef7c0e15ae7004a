//! Words and addresses of events as texts.
ghost use Rattle.std.specs.Prelude.{◌≡◌, ◌++◌, IfOk, OnOk, string_bytes};
ghost use Rattle.pmt_text.specs.Spelling.{address, event_line};
ghost use Rattle.pmt_explain_json.specs.Entries.{address_of as address_in};

use pmt_model::{Event, Op, OutOfMemory};
use pmt_text::write::push_number;
use pmt_text::write_event;
use std::alloc::{AllocError, Global};

// The event's line in the text of its trace, without its LF.
#[tactic(auto, using(crate::proofs::WordLemmas::line_is_front))]
pub(crate) fn words_of(alloc: Global, event: Event) -> Result<String, OutOfMemory>
    ensures { IfOk result (λ text. string_bytes text ≡ event_line event) }
{
    let Event { thread, op } = event;
    let line = write_event(alloc, Event { thread, op })?;
    let spelled = line.as_slice();
    let end = spelled.len().saturating_sub(1);
    let words = Vec::from_slice(alloc, &spelled[..end])?;
    text_of(words)
}

// The address as it is spelled in a trace.
pub(crate) fn address_text(alloc: Global, addr: u64) -> Result<String, OutOfMemory>
    ensures { IfOk result (λ text. string_bytes text ≡ address addr) }
{
    let mut text = Vec::new(alloc);
    push_address(&mut text, addr)?;
    text_of(text)
}

// Adds the address: 0x, and the number in base 16.
fn push_address(text: &mut Vec<u8>, addr: u64) -> Result<(), OutOfMemory>
    ensures { OnOk result (text.new.items ≡ text.old.items ++ address addr) }
{
    text.extend_from_slice(b"0x")?;
    push_number(text, 16, addr)
}

// The bytes as a text. What is spelled in a trace is ASCII; no proof says so, so it is checked.
fn text_of(bytes: Vec<u8>) -> Result<String, OutOfMemory>
    ensures { IfOk result (λ text. string_bytes text ≡ bytes.items) }
{
    match String::from_utf8(bytes) {
        Ok(text) => Ok(text),
        Err(_) => Err(AllocError),
    }
}

// The address of a store, of a flush, or of an assertion's range or its first one. A fence has none.
pub(crate) fn address_of(op: Op) -> Option<u64>
    ensures { result ≡ address_in op }
{
    match op {
        Op::Store(store) => Some(store.addr().get()),
        Op::Clwb(addr) | Op::ClflushOpt(addr) | Op::Clflush(addr) => Some(addr.get()),
        Op::Sfence | Op::Mfence => None,
        Op::IsPersist(range) => Some(range.addr().get()),
        Op::IsOrderedBefore(first, _) => Some(first.addr().get()),
    }
}
