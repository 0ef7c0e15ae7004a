//! One pass over the bytes of a line that is spelled rightly. Where a line is not, or where that is not plain at once, these answer
//! `None`, and the line is judged.
ghost use Rattle.std.specs.Prelude.{◌≡◌, ◌∷◌, ◌++◌, ◌≤◌, length, IfOk, IfSome};
ghost use Rattle.std.specs.Int.{to_le_bytes, w32};
ghost use Rattle.pmt_text.specs.Spelled.{IsAfterWord, IsEventOfStore, IsFirstEvent, front_four, spelled_span, spelled_store};
ghost use Rattle.pmt_text.specs.Spelling.{address, event_text, numeral};

use crate::number::digit;
use crate::word::Word;
use pmt_lanes::{decimal_number, hex_bytes, hex_number};
use pmt_model::{Addr, Event, Format, Op, OpError, Payload, Range, WordStore};

/// A store as its line spells it: the lowest byte of the number is the first of its `len` bytes, which are at most 8.
#[derive(Clone, Copy)]
pub(crate) struct SpelledStore {
    pub(crate) thread: u8,
    pub(crate) addr: u64,
    pub(crate) number: u64,
    pub(crate) len: usize,
}

/// The first four bytes as one number.
#[inline(always)]
fn first_four(text: &[u8]) -> u32
    requires { 4 ≤ length text.now }
    ensures { to_le_bytes w32 result ≡ front_four text.now }
{
    u32::from_le_bytes([text[0], text[1], text[2], text[3]])
}

/// What stands after the word at the front. Four bytes are compared at once.
#[inline(always)]
pub(crate) fn take_word<'a>(word: &[u8], text: &'a [u8]) -> Option<&'a [u8]>
    ensures { IfSome result (λ rest. text.now ≡ word.now ++ rest.now) }
{
    if text.len() < word.len() {
        return None;
    }
    let mut at = 0;
    if word.len() >= 4 {
        if first_four(text) != first_four(word) {
            return None;
        }
        at = 4;
    }
    while at < word.len() {
        if text[at] != word[at] {
            return None;
        }
        at += 1;
    }
    Some(&text[word.len()..])
}

/// The number of base 10 at the front, and what stands after it.
#[inline(always)]
fn take_decimal(text: &[u8]) -> Option<(u64, &[u8])>
    ensures { IfSome result (λ p. text.now ≡ numeral 10 p.0 ++ p.1.now) }
{
    match decimal_number(text) {
        Some((number, count)) => Some((number, &text[count..])),
        None => None,
    }
}

/// The number of base 16 at the front, and what stands after it.
#[inline(always)]
fn take_hex(text: &[u8]) -> Option<(u64, &[u8])>
    ensures { IfSome result (λ p. text.now ≡ numeral 16 p.0 ++ p.1.now) }
{
    match hex_number(text) {
        Some((number, count)) => Some((number, &text[count..])),
        None => None,
    }
}

/// The address at the front, and what stands after it.
#[inline(always)]
fn take_address(text: &[u8]) -> Option<(u64, &[u8])>
    ensures { IfSome result (λ p. text.now ≡ address p.0 ++ p.1.now) }
{
    let digits = take_word(b"0x", text)?;
    let (addr, rest) = take_hex(digits)?;
    Some((addr, rest))
}

/// What stands after the space at the front.
#[inline(always)]
fn take_space(text: &[u8]) -> Option<&[u8]>
    ensures { IfSome result (λ rest. text.now ≡ 32 ∷ rest.now) }
{
    match text {
        [b' ', rest @ ..] => Some(rest),
        _ => None,
    }
}

/// What stands after the LF at the front.
#[inline(always)]
fn take_end(text: &[u8]) -> Option<&[u8]>
    ensures { IfSome result (λ rest. text.now ≡ 10 ∷ rest.now) }
{
    match text {
        [b'\n', rest @ ..] => Some(rest),
        _ => None,
    }
}

/// The number of one digit at the front, where a space or an LF stands after it, and what stands after it.
#[inline(always)]
fn take_digit(text: &[u8]) -> Option<(u8, &[u8])>
    ensures { IfSome result (λ p. text.now ≡ numeral 10 p.0 ++ p.1.now) }
{
    if text.len() < 2 || text[1] > b' ' {
        return None;
    }
    let value = digit(text[0]);
    if value >= 10 {
        return None;
    }
    Some((value as u8, &text[1..]))
}

/// The thread at the front, and what stands after it.
#[inline(always)]
fn take_thread(text: &[u8]) -> Option<(u8, &[u8])>
    ensures { IfSome result (λ p. text.now ≡ numeral 10 p.0 ++ p.1.now) }
{
    if let Some((thread, rest)) = take_digit(text) {
        return Some((thread, rest));
    }
    let (number, rest) = take_decimal(text)?;
    if number < 256 {
        Some((number as u8, rest))
    } else {
        None
    }
}

/// The address and the length at the front, and what stands after them.
#[inline(always)]
fn take_span(text: &[u8]) -> Option<((u64, u64), &[u8])>
    ensures { IfSome result (λ p. text.now ≡ spelled_span p.0.0 p.0.1 ++ p.1.now) }
{
    let (addr, text) = take_address(text)?;
    let text = take_space(text)?;
    let (len, text) = take_decimal(text)?;
    Some(((addr, len), text))
}

/// The store of the bytes.
#[inline(always)]
fn store_of(addr: u64, bytes: &[u8]) -> Option<Op>
    ensures { IfSome result (λ op. op ≡ Op.Store (record { addr = addr; bytes = bytes.now })) }
{
    let Ok(payload) = Payload::new(bytes) else {
        return None;
    };
    let Ok(addr) = Addr::new(addr) else {
        return None;
    };
    match WordStore::new(addr, payload) {
        Ok(store) => Some(Op::Store(store)),
        Err(_) => None,
    }
}

/// The isPersist of the span.
fn persist_of(addr: u64, len: u64) -> Result<Op, OpError>
    ensures { IfOk result (λ op. op ≡ Op.IsPersist (record { addr = addr; len = len })) }
{
    let range = Range::new(addr, len)?;
    Ok(Op::IsPersist(range))
}

/// The isOrderedBefore of the spans.
fn ordered_of(addr: u64, len: u64, later_addr: u64, later_len: u64) -> Result<Op, OpError>
    ensures { IfOk result (λ op. op ≡ Op.IsOrderedBefore (record { addr = addr; len = len }) (record { addr = later_addr; len = later_len })) }
{
    let first = Range::new(addr, len)?;
    let second = Range::new(later_addr, later_len)?;
    Ok(Op::IsOrderedBefore(first, second))
}

/// The store after its word, and what stands after the line.
#[inline(always)]
pub(crate) fn take_store(text: &[u8]) -> Option<(SpelledStore, &[u8])>
    ensures spelled { IfSome result (λ p. text.now ≡ spelled_store p.0 ++ 10 ∷ p.1.now) }
    ensures few { IfSome result (λ p. p.0.len ≤ 8) }
{
    let (thread, text) = take_thread(text)?;
    let (addr, text) = take_address(take_space(text)?)?;
    let text = take_space(text)?;
    let (number, len) = hex_bytes(text)?;
    let text = take_end(&text[2 * len..])?;
    let store = SpelledStore {
        thread,
        addr,
        number,
        len,
    };
    Some((store, text))
}

impl SpelledStore {
    /// Its event, if its address and its bytes are those of a store.
    #[inline(always)]
    pub(crate) fn event(&self) -> Option<Event>
        requires { self.now.len ≤ 8 }
        ensures { IfSome result (IsEventOfStore self.now) }
    {
        let bytes = self.number.to_le_bytes();
        let thread = self.thread;
        let op = store_of(self.addr, &bytes[..self.len])?;
        Some(Event { thread, op })
    }

    /// The same, of a store of eight bytes, which are copied at once.
    #[inline(always)]
    pub(crate) fn whole_event(&self) -> Option<Event>
        requires { self.now.len ≡ 8 }
        ensures { IfSome result (IsEventOfStore self.now) }
    {
        let bytes = self.number.to_le_bytes();
        let thread = self.thread;
        let op = store_of(self.addr, &bytes)?;
        Some(Event { thread, op })
    }
}

/// The event of a store after its word, and what stands after the line.
#[inline(always)]
fn after_store(text: &[u8]) -> Option<(Event, &[u8])>
    ensures { IfSome result (λ p. IsAfterWord Word.Store text.now p.0 p.1.now) }
{
    let (store, text) = take_store(text)?;
    let event = store.event()?;
    Some((event, text))
}

/// The event of a clwb after its word, and what stands after the line.
#[inline(always)]
pub(crate) fn after_clwb(text: &[u8]) -> Option<(Event, &[u8])>
    ensures { IfSome result (λ p. IsAfterWord Word.Clwb text.now p.0 p.1.now) }
{
    let (thread, text) = take_thread(text)?;
    let (addr, text) = take_address(take_space(text)?)?;
    let text = take_end(text)?;
    match Op::clwb(addr) {
        Ok(op) => Some((Event { thread, op }, text)),
        Err(_) => None,
    }
}

/// The event of a clflushopt after its word, and what stands after the line.
fn after_clflushopt(text: &[u8]) -> Option<(Event, &[u8])>
    ensures { IfSome result (λ p. IsAfterWord Word.ClflushOpt text.now p.0 p.1.now) }
{
    let (thread, text) = take_thread(text)?;
    let (addr, text) = take_address(take_space(text)?)?;
    let text = take_end(text)?;
    match Op::clflushopt(addr) {
        Ok(op) => Some((Event { thread, op }, text)),
        Err(_) => None,
    }
}

/// The event of a clflush after its word, and what stands after the line.
fn after_clflush(text: &[u8]) -> Option<(Event, &[u8])>
    ensures { IfSome result (λ p. IsAfterWord Word.Clflush text.now p.0 p.1.now) }
{
    let (thread, text) = take_thread(text)?;
    let (addr, text) = take_address(take_space(text)?)?;
    let text = take_end(text)?;
    match Op::clflush(addr) {
        Ok(op) => Some((Event { thread, op }, text)),
        Err(_) => None,
    }
}

/// The event of an sfence after its word, and what stands after the line.
#[inline(always)]
pub(crate) fn after_sfence(text: &[u8]) -> Option<(Event, &[u8])>
    ensures { IfSome result (λ p. IsAfterWord Word.Sfence text.now p.0 p.1.now) }
{
    let (thread, text) = take_thread(text)?;
    let text = take_end(text)?;
    let op = Op::Sfence;
    Some((Event { thread, op }, text))
}

/// The event of an mfence after its word, and what stands after the line.
fn after_mfence(text: &[u8]) -> Option<(Event, &[u8])>
    ensures { IfSome result (λ p. IsAfterWord Word.Mfence text.now p.0 p.1.now) }
{
    let (thread, text) = take_thread(text)?;
    let text = take_end(text)?;
    let op = Op::Mfence;
    Some((Event { thread, op }, text))
}

/// The event of an isPersist after its word, and what stands after the line.
fn after_persist(text: &[u8]) -> Option<(Event, &[u8])>
    ensures { IfSome result (λ p. IsAfterWord Word.IsPersist text.now p.0 p.1.now) }
{
    let (thread, text) = take_thread(text)?;
    let ((addr, len), text) = take_span(take_space(text)?)?;
    let text = take_end(text)?;
    match persist_of(addr, len) {
        Ok(op) => Some((Event { thread, op }, text)),
        Err(_) => None,
    }
}

/// The event of an isOrderedBefore after its word, and what stands after the line.
fn after_ordered(text: &[u8]) -> Option<(Event, &[u8])>
    ensures { IfSome result (λ p. IsAfterWord Word.IsOrderedBefore text.now p.0 p.1.now) }
{
    let (thread, text) = take_thread(text)?;
    let ((addr, len), text) = take_span(take_space(text)?)?;
    let ((later_addr, later_len), text) = take_span(take_space(text)?)?;
    let text = take_end(text)?;
    match ordered_of(addr, len, later_addr, later_len) {
        Ok(op) => Some((Event { thread, op }, text)),
        Err(_) => None,
    }
}

/// The event of the line at the front, and what stands after its LF.
#[inline(always)]
fn take_event(text: &[u8]) -> Option<(Event, &[u8])>
    ensures { IfSome result (λ p. text.now ≡ event_text p.0 ++ p.1.now) }
{
    if let Some(rest) = take_word(b"store ", text) {
        return after_store(rest);
    }
    if let Some(rest) = take_word(b"clwb ", text) {
        return after_clwb(rest);
    }
    if let Some(rest) = take_word(b"sfence ", text) {
        return after_sfence(rest);
    }
    take_other(text)
}

/// As `take_event`, of the words that are rarer.
pub(crate) fn take_other(text: &[u8]) -> Option<(Event, &[u8])>
    ensures { IfSome result (λ p. text.now ≡ event_text p.0 ++ p.1.now) }
{
    if let Some(rest) = take_word(b"isPersist ", text) {
        return after_persist(rest);
    }
    if let Some(rest) = take_word(b"isOrderedBefore ", text) {
        return after_ordered(rest);
    }
    if let Some(rest) = take_word(b"clflushopt ", text) {
        return after_clflushopt(rest);
    }
    if let Some(rest) = take_word(b"clflush ", text) {
        return after_clflush(rest);
    }
    if let Some(rest) = take_word(b"mfence ", text) {
        return after_mfence(rest);
    }
    None
}

/// The event of the line at the front, where it is one of the format and that is plain in one pass, and what stands after its LF.
#[inline(always)]
pub(crate) fn first_event(format: Format, text: &[u8]) -> Option<(Event, &[u8])>
    ensures { IfSome result (λ p. IsFirstEvent format p.0 text.now p.1.now) }
{
    let Some((event, rest)) = take_event(text) else {
        return None;
    };
    if !event.is_in(format) {
        return None;
    }
    let Event { thread, op } = event;
    Some((Event { thread, op }, rest))
}
