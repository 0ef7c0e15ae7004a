//! Which findings are asked for.
ghost use Rattle.std.specs.Prelude.{◌≡◌, ◌+◌, is_some, nat_lt, true};
ghost use Rattle.pmt_model.specs.Traces.{event};
ghost use Rattle.pmt_asked.specs.Choosing.{chooses_all as chooses_all_in, has_text as text_has, is_asked_for as asked_for, is_chosen as event_chosen, is_kind_chosen, is_label_chosen, is_same_kind as same_kind, is_thread_chosen, kind_name, meets as ranges_meet, meets_line as line_met, op_meets, stands_between, tells_all as tells_all_in};

use crate::ignoring::ByteRange;
use crate::labels::Labels;
use pmt_model::{Addr, Format, Op, Range, Trace, line_of};

/// A kind of what is told.
#[derive(Clone, Copy)]
pub enum Kind {
    /// Assertions that fail.
    Failure,
    /// Stores that are never persisted.
    NeverPersisted,
    /// Flushes and fences that are dropped.
    Dropped,
    /// Stores that are overwritten before any flush.
    Overwritten,
    /// Assertions on bytes that no store has written.
    Unwritten,
    /// Stores that are persisted late.
    Late,
    /// What is no error and mostly is a slip.
    Hint,
}

impl Kind {
    /// What the kind is called.
    pub fn name(self) -> &'static str
        ensures { result.now ≡ kind_name self }
    {
        match self {
            Kind::Failure => "failure",
            Kind::NeverPersisted => "never_persisted",
            Kind::Dropped => "dropped",
            Kind::Overwritten => "overwritten",
            Kind::Unwritten => "unwritten",
            Kind::Late => "late",
            Kind::Hint => "hint",
        }
    }
}

/// Which findings are asked for: those that meet each part that is given.
#[derive(Drop)]
pub struct Choice {
    /// Those of this kind.
    pub only: Option<Kind>,
    /// Those of an event of this thread.
    pub thread: Option<u8>,
    /// Those of a store to one of these bytes, of an assertion on one, or of a flush of a line with one.
    pub range: Option<ByteRange>,
    /// Those of this event and of later ones.
    pub from: Option<u64>,
    /// Those of this event and of earlier ones.
    pub to: Option<u64>,
    /// Those of an event whose label has this text in it.
    pub label: Option<String>,
}

impl Choice {
    /// All findings.
    pub fn all() -> Self
        ensures { tells_all_in result ≡ true }
    {
        Choice {
            only: None,
            thread: None,
            range: None,
            from: None,
            to: None,
            label: None,
        }
    }

    /// Whether no option chooses findings.
    pub fn tells_all(&self) -> bool
        ensures { result ≡ tells_all_in self.now }
    {
        self.only.is_none() && chooses_all(self)
    }

    /// The event of the failed assertion that is told alone, if one is.
    pub fn failure(&self) -> Option<u64> {
        let is_failure = matches!(self.only, Some(Kind::Failure));
        let is_all = self.thread.is_none() && self.range.is_none() && self.label.is_none();
        let is_one = is_failure && is_all && self.from == self.to;
        self.from.filter(|_| is_one)
    }
}

/// Whether findings of the kind are asked for.
pub fn is_asked(choice: &Choice, kind: Kind) -> bool
    ensures { result ≡ is_kind_chosen choice.now kind }
{
    match choice.only {
        Some(only) => is_same_kind(only, kind),
        None => true,
    }
}

// Whether the two are one kind.
fn is_same_kind(only: Kind, kind: Kind) -> bool
    ensures { result ≡ same_kind only kind }
{
    match only {
        Kind::Failure => matches!(kind, Kind::Failure),
        Kind::NeverPersisted => matches!(kind, Kind::NeverPersisted),
        Kind::Dropped => matches!(kind, Kind::Dropped),
        Kind::Overwritten => matches!(kind, Kind::Overwritten),
        Kind::Unwritten => matches!(kind, Kind::Unwritten),
        Kind::Late => matches!(kind, Kind::Late),
        Kind::Hint => matches!(kind, Kind::Hint),
    }
}

/// Whether the finding of this kind at the event is asked for.
pub fn is_asked_for(
    trace: &Trace,
    labels: &Labels,
    choice: &Choice,
    kind: Kind,
    number: u64,
) -> bool
    ensures { result ≡ asked_for trace.now labels.now choice.now kind number }
{
    is_asked(choice, kind) && is_chosen(trace, labels, choice, number)
}

// Whether findings of the event are asked for. It is not looked at where those of all events are.
fn is_chosen(trace: &Trace, labels: &Labels, choice: &Choice, number: u64) -> bool
    ensures { result ≡ event_chosen trace.now labels.now choice.now number }
{
    if chooses_all(choice) {
        return has_event(trace, number);
    }
    let Some(event) = trace.get(number) else {
        return false;
    };
    let thread = event.thread;
    let op = event.op;
    is_between(choice, number)
        && is_of_thread(choice, thread)
        && is_in_range(trace.format(), choice, op)
        && is_labelled(labels, choice, number)
}

// Whether nothing but a kind is asked for.
#[inline(always)]
fn chooses_all(choice: &Choice) -> bool
    ensures { result ≡ chooses_all_in choice.now }
{
    choice.thread.is_none()
        && choice.range.is_none()
        && choice.from.is_none()
        && choice.to.is_none()
        && choice.label.is_none()
}

// Whether the trace has an event with this number.
#[inline(always)]
fn has_event(trace: &Trace, number: u64) -> bool
    ensures { result ≡ is_some (event trace.now number) }
{
    0 < number && number <= trace.len() as u64
}

// Whether the number is none before the first that is asked for, and none after the last.
fn is_between(choice: &Choice, number: u64) -> bool
    ensures { result ≡ stands_between choice.now number }
{
    choice.from.unwrap_or(0) <= number && number <= choice.to.unwrap_or(u64::MAX)
}

// Whether events of the thread are asked for.
fn is_of_thread(choice: &Choice, thread: u8) -> bool
    ensures { result ≡ is_thread_chosen choice.now thread }
{
    match choice.thread {
        Some(asked) => asked == thread,
        None => true,
    }
}

// Whether the op is one of the bytes that are asked for.
fn is_in_range(format: Format, choice: &Choice, op: Op) -> bool
    ensures { result ≡ op_meets format choice.now.range op }
{
    let Some(asked) = choice.range else {
        return true;
    };
    match op {
        Op::Store(store) => meets(asked, store.addr().get(), store.bytes().len() as u64),
        Op::Clwb(addr) | Op::ClflushOpt(addr) | Op::Clflush(addr) => {
            meets_line(asked, format, addr)
        }
        Op::Sfence | Op::Mfence => false,
        Op::IsPersist(range) => meets_range(asked, range),
        Op::IsOrderedBefore(first, second) => {
            meets_range(asked, first) || meets_range(asked, second)
        }
    }
}

// Whether the range has one of the bytes.
fn meets_range(asked: ByteRange, range: Range) -> bool
    ensures { result ≡ ranges_meet asked range.addr range.len }
{
    meets(asked, range.addr().get(), range.len())
}

// Whether the line of the address has one of the bytes.
fn meets_line(asked: ByteRange, format: Format, addr: Addr) -> bool
    ensures { result ≡ line_met asked format addr }
{
    let size = format.line_size();
    meets(asked, line_of(format, addr).saturating_mul(size), size)
}

// Whether one of the `len` bytes from `addr` on is one of these bytes.
fn meets(asked: ByteRange, addr: u64, len: u64) -> bool
    ensures { result ≡ ranges_meet asked addr len }
{
    is_before_end(asked.addr, addr, len) && is_before_end(addr, asked.addr, asked.len)
}

// Whether the byte comes before the end of the `len` bytes from `addr` on.
fn is_before_end(byte: u64, addr: u64, len: u64) -> bool
    ensures { result ≡ nat_lt byte (addr + len) }
{
    byte < addr || byte - addr < len
}

// Whether the event has a label that is asked for.
fn is_labelled(labels: &Labels, choice: &Choice, number: u64) -> bool
    ensures { result ≡ is_label_chosen labels.now choice.now number }
{
    let Some(text) = &choice.label else {
        return true;
    };
    match labels.get(number) {
        Some(label) => has_text(label.as_bytes(), text.as_bytes()),
        None => false,
    }
}

// Whether the text stands in the label.
fn has_text(label: &[u8], text: &[u8]) -> bool
    ensures { result ≡ text_has label.now text.now }
{
    for start in 0..label.len() {
        if label[start..].starts_with(text) {
            return true;
        }
    }
    false
}
