//! How long the line of an event is, without its text.
ghost use Rattle.std.specs.Prelude.{◌≡◌, ◌+◌, ◌∷◌, [], ◌<◌, ◌≤◌, length};
ghost use Rattle.pmt_text.specs.Spelling.{address, arguments_of, event_text, numeral, word_of, word_text, spaced};

use pmt_model::{Addr, Event, Op, Range};

// How many digits the number has in base 16. Its lowest bit is set first: 0 has one digit too.
#[inline(always)]
fn hex_len(number: u64) -> usize
    ensures value { result ≡ length (numeral 16 number) }
    ensures few { result ≤ 16 }
{
    (67 - (number | 1).leading_zeros() as usize) / 4
}

// How many digits the number has in base 10.
#[inline(always)]
fn decimal_len(number: u64) -> usize
    requires { number < 10000 }
    ensures value { result ≡ length (numeral 10 number) }
    ensures few { result ≤ 4 }
{
    1 + (number >= 10) as usize + (number >= 100) as usize + (number >= 1000) as usize
}

// How many bytes the address has in a line, behind a space.
#[inline(always)]
fn address_len(addr: Addr) -> usize
    ensures value { result ≡ length (32 ∷ address addr) }
    ensures few { result ≤ 19 }
{
    3 + hex_len(addr.get())
}

// How many bytes the range has in a line, its address and its length each behind a space.
#[inline(always)]
fn range_len(range: &Range) -> usize
    ensures value { result ≡ length (spaced (address range.now.addr ∷ numeral 10 range.now.len ∷ [])) }
    ensures few { result ≤ 24 }
{
    address_len(range.addr()) + 1 + decimal_len(range.len())
}

// How many bytes the line of the op has, but for the thread behind its space and the LF.
#[inline(always)]
fn op_len(op: &Op) -> usize
    ensures value { result ≡ length (word_text (word_of op.now)) + length (spaced (arguments_of op.now)) }
    ensures few { result ≤ 63 }
{
    match op {
        Op::Store(store) => 5 + address_len(store.addr()) + 1 + 2 * store.bytes().len(),
        Op::Clwb(addr) => 4 + address_len(*addr),
        Op::ClflushOpt(addr) => 10 + address_len(*addr),
        Op::Clflush(addr) => 7 + address_len(*addr),
        Op::Sfence => 6,
        Op::Mfence => 6,
        Op::IsPersist(range) => 9 + range_len(range),
        Op::IsOrderedBefore(first, second) => 15 + range_len(first) + range_len(second),
    }
}

// How many bytes the line of the event has, with its LF.
#[inline(always)]
pub(crate) fn line_len(event: &Event) -> u8
    ensures { result ≡ length (event_text event.now) }
{
    (op_len(&event.op) + 2 + decimal_len(event.thread as u64)) as u8
}
