//! Judging one line: its event, or the first check that fails.
ghost use Rattle.std.specs.Prelude.{◌≡◌, IfOk};
ghost use Rattle.pmt_model.specs.Traces.{IsEventIn};
ghost use Rattle.pmt_text.specs.Judging.{line_judged, script_line_judged, fence_of_fields, fields_left, flushed_of_fields, kind_of as kind_in_text, op_of_fields, span_checked, with_thread};

use crate::fields::{next_address, next_number, next_span, split_field};
use crate::kind::TextKind;
use crate::number::read_bytes;
use crate::word::{Word, read_word};
use pmt_model::{Addr, Event, Format, Op, OpError, Range};

/// The one address of the fields that are left.
fn last_address(rest: Option<&[u8]>) -> Result<Addr, TextKind>
    ensures { result ≡ flushed_of_fields (fields_left rest.entry) }
{
    let Some((addr, rest)) = next_address(rest) else {
        return Err(TextKind::BadField);
    };
    if rest.is_some() {
        return Err(TextKind::BadField);
    }
    match Addr::new(addr) {
        Ok(addr) => Ok(addr),
        Err(_) => Err(TextKind::OutOfRange),
    }
}

/// The range of `len` bytes from `addr` on.
fn range_of(addr: u64, len: u64) -> Result<Range, TextKind>
    ensures { result ≡ span_checked addr len }
{
    match Range::new(addr, len) {
        Ok(range) => Ok(range),
        Err(_) => Err(TextKind::OutOfRange),
    }
}

/// What a refusal of a constructor is in a text.
fn kind_of(error: OpError) -> TextKind
    ensures { result ≡ kind_in_text error }
{
    match error {
        OpError::CrossesWord => TextKind::CrossesWord,
        OpError::BadLength | OpError::OutOfRange => TextKind::OutOfRange,
    }
}

/// The store of the fields that are left.
fn store_of(rest: Option<&[u8]>) -> Result<Op, TextKind>
    ensures { result ≡ op_of_fields Word.Store (fields_left rest.entry) }
{
    let Some((addr, rest)) = next_address(rest) else {
        return Err(TextKind::BadField);
    };
    let Some(rest) = rest else {
        return Err(TextKind::BadField);
    };
    let (field, rest) = split_field(rest);
    if rest.is_some() {
        return Err(TextKind::BadField);
    }
    let mut bytes = [0; 8];
    let Some(len) = read_bytes(field, &mut bytes) else {
        return Err(TextKind::BadField);
    };
    if len > 8 {
        return Err(TextKind::OutOfRange);
    }
    match Op::store(addr, &bytes[..len]) {
        Ok(op) => Ok(op),
        Err(error) => Err(kind_of(error)),
    }
}

/// The fence, where no fields are left.
fn fence_of(op: Op, rest: Option<&[u8]>) -> Result<Op, TextKind>
    ensures { result ≡ fence_of_fields op (fields_left rest.entry) }
{
    if rest.is_some() {
        return Err(TextKind::BadField);
    }
    Ok(op)
}

/// The assertion on the one span of the fields that are left.
fn persist_of(rest: Option<&[u8]>) -> Result<Op, TextKind>
    ensures { result ≡ op_of_fields Word.IsPersist (fields_left rest.entry) }
{
    let Some(((addr, len), rest)) = next_span(rest) else {
        return Err(TextKind::BadField);
    };
    if rest.is_some() {
        return Err(TextKind::BadField);
    }
    let range = range_of(addr, len)?;
    Ok(Op::IsPersist(range))
}

/// The assertion on the two spans of the fields that are left.
fn ordered_of(rest: Option<&[u8]>) -> Result<Op, TextKind>
    ensures { result ≡ op_of_fields Word.IsOrderedBefore (fields_left rest.entry) }
{
    let Some(((addr, len), rest)) = next_span(rest) else {
        return Err(TextKind::BadField);
    };
    let Some(((later_addr, later_len), rest)) = next_span(rest) else {
        return Err(TextKind::BadField);
    };
    if rest.is_some() {
        return Err(TextKind::BadField);
    }
    let first = range_of(addr, len)?;
    let second = range_of(later_addr, later_len)?;
    Ok(Op::IsOrderedBefore(first, second))
}

/// The op of the word and the fields that are left.
fn op_of(word: Word, rest: Option<&[u8]>) -> Result<Op, TextKind>
    ensures { result ≡ op_of_fields word (fields_left rest.entry) }
{
    match word {
        Word::Store => store_of(rest),
        Word::Clwb => Ok(Op::Clwb(last_address(rest)?)),
        Word::ClflushOpt => Ok(Op::ClflushOpt(last_address(rest)?)),
        Word::Clflush => Ok(Op::Clflush(last_address(rest)?)),
        Word::Sfence => fence_of(Op::Sfence, rest),
        Word::Mfence => fence_of(Op::Mfence, rest),
        Word::IsPersist => persist_of(rest),
        Word::IsOrderedBefore => ordered_of(rest),
    }
}

/// The event of the thread and the op.
fn event_of(thread: u64, op: Result<Op, TextKind>) -> Result<Event, TextKind>
    ensures { result ≡ with_thread thread op }
{
    match op {
        Err(TextKind::BadField) => Err(TextKind::BadField),
        Err(kind) => {
            if thread < 256 {
                Err(kind)
            } else {
                Err(TextKind::OutOfRange)
            }
        }
        Ok(op) => {
            if thread < 256 {
                Ok(Event {
                    thread: thread as u8,
                    op,
                })
            } else {
                Err(TextKind::OutOfRange)
            }
        }
    }
}

/// The event of a line of a trace of this format, or the first check that fails there.
///
/// # Errors
/// `BadWord`, `BadField`, `OutOfRange`, `CrossesWord`, in this order.
pub fn judge_line(format: Format, line: &[u8]) -> Result<Event, TextKind>
    ensures judged { result ≡ line_judged format line.now }
    ensures in_format { IfOk result (IsEventIn format) }
{
    let (word, rest) = split_field(line);
    let Some(word) = read_word(format, word) else {
        return Err(TextKind::BadWord);
    };
    let Some((thread, rest)) = next_number(rest) else {
        return Err(TextKind::BadField);
    };
    event_of(thread, op_of(word, rest))
}

/// The op of a line of a script, or the first check that fails there.
///
/// # Errors
/// `BadWord`, `BadField`, `OutOfRange`, `CrossesWord`, in this order.
pub(crate) fn judge_script_line(line: &[u8]) -> Result<Op, TextKind>
    ensures { result ≡ script_line_judged line.now }
{
    let (word, rest) = split_field(line);
    let Some(word) = read_word(Format::v1(), word) else {
        return Err(TextKind::BadWord);
    };
    op_of(word, rest)
}
