//! The line of an event, spelled from its end to its front: so the digits of a number come in the order in which division gives
//! them, and what is spelled lies at the end of the buffer.
ghost use Rattle.std.specs.Prelude.{◌≡◌, ◌∷◌, ◌++◌, ◌+◌, ◌/◌, ◌%◌, ◌^◌, [], ◌≤◌, ◌<◌, length};
ghost use Rattle.pmt_text.specs.Spelling.{Puts, address, arguments_of, event_text, glyph as glyph_of, hex_bytes, hex_pair, numeral, word_of, word_text, spaced};

use pmt_model::{Addr, Event, Op, Range};

/// Room for every line of an event.
pub const LINE_ROOM: usize = 128;

/// The number that four digits of base 16 write is below this.
const FOUR_LIMIT: u64 = 1 << 16;

/// The characters of the digits.
static GLYPHS: [u8; 16] = *b"0123456789abcdef";

/// The two digits of each byte, from 00 to ff.
static PAIRS: [u8; 512] = *b"000102030405060708090a0b0c0d0e0f101112131415161718191a1b1c1d1e1f\
    202122232425262728292a2b2c2d2e2f303132333435363738393a3b3c3d3e3f\
    404142434445464748494a4b4c4d4e4f505152535455565758595a5b5c5d5e5f\
    606162636465666768696a6b6c6d6e6f707172737475767778797a7b7c7d7e7f\
    808182838485868788898a8b8c8d8e8f909192939495969798999a9b9c9d9e9f\
    a0a1a2a3a4a5a6a7a8a9aaabacadaeafb0b1b2b3b4b5b6b7b8b9babbbcbdbebf\
    c0c1c2c3c4c5c6c7c8c9cacbcccdcecfd0d1d2d3d4d5d6d7d8d9dadbdcdddedf\
    e0e1e2e3e4e5e6e7e8e9eaebecedeeeff0f1f2f3f4f5f6f7f8f9fafbfcfdfeff";

/// The two digits of each number below 100.
static DECIMALS: [u8; 200] = *b"00010203040506070809101112131415161718192021222324\
    25262728293031323334353637383940414243444546474849\
    50515253545556575859606162636465666768697071727374\
    75767778798081828384858687888990919293949596979899";

/// The character of a digit: 0 to 9, and then a to f.
#[inline(always)]
pub(crate) fn glyph(digit: u64) -> u8
    requires { digit < 16 }
    ensures { result ≡ glyph_of digit }
{
    GLYPHS[digit as usize]
}

/// The first of the two digits of the byte.
#[inline(always)]
fn high_digit(byte: u8) -> u8
    ensures { result ≡ glyph_of (byte / 16 % 16) }
{
    PAIRS[2 * byte as usize]
}

/// The second of them.
#[inline(always)]
fn low_digit(byte: u8) -> u8
    ensures { result ≡ glyph_of (byte % 16) }
{
    PAIRS[2 * byte as usize + 1]
}

/// The first of the two digits of a number below 100.
#[inline(always)]
fn tens(number: u64) -> u8
    requires { number < 100 }
    ensures { result ≡ glyph_of (number / 10) }
{
    DECIMALS[2 * number as usize]
}

/// The second of them.
#[inline(always)]
fn ones(number: u64) -> u8
    requires { number < 100 }
    ensures { result ≡ glyph_of (number % 10) }
{
    DECIMALS[2 * number as usize + 1]
}

/// Puts the byte in front of what stands from `at` on; so do the others with what they put. Each answers where that begins.
#[inline(always)]
pub fn put(line: &mut [u8; LINE_ROOM], at: usize, byte: u8) -> usize
    requires room { 1 ≤ at }
    requires within { at ≤ 128 }
    ensures puts { Puts line.old at (byte ∷ []) 1 result line.new }
    ensures before { result + 1 ≡ at }
{
    line[at - 1] = byte;
    at - 1
}

/// Puts the word.
#[inline(always)]
pub fn put_word(line: &mut [u8; LINE_ROOM], at: usize, word: &[u8]) -> usize
    requires room { length word.now ≤ at }
    requires within { at ≤ 128 }
    ensures { Puts line.old at word.now (length word.now) result line.new }
{
    let mut start = at;
    let mut left = word.len();
    while left > 0 {
        left -= 1;
        start = put(line, start, word[left]);
    }
    start
}

/// Puts the number in base 10, of at most 20 digits, two at once.
#[inline(always)]
pub fn put_decimal(line: &mut [u8; LINE_ROOM], at: usize, number: u64) -> usize
    requires room { 20 ≤ at }
    requires within { at ≤ 128 }
    ensures { Puts line.old at (numeral 10 number) 20 result line.new }
{
    let mut start = at;
    let mut rest = number;
    while rest >= 100 {
        let last = put(line, start, ones(rest % 100));
        start = put(line, last, tens(rest % 100));
        rest /= 100;
    }
    if rest < 10 {
        return put(line, start, glyph(rest));
    }
    let start = put(line, start, ones(rest));
    put(line, start, tens(rest))
}

/// Puts the two digits of the byte.
#[inline(always)]
fn put_pair(line: &mut [u8; LINE_ROOM], at: usize, byte: u8) -> usize
    requires room { 2 ≤ at }
    requires within { at ≤ 128 }
    ensures puts { Puts line.old at (hex_pair byte) 2 result line.new }
    ensures before { result + 2 ≡ at }
{
    line[at - 1] = low_digit(byte);
    line[at - 2] = high_digit(byte);
    at - 2
}

/// Puts four digits of base 16, also those that are zeros in front.
#[inline(always)]
fn put_four(line: &mut [u8; LINE_ROOM], at: usize, number: u64) -> usize
    requires small { number < 2 ^ 16 }
    requires room { 4 ≤ at }
    requires within { at ≤ 128 }
    ensures puts { Puts line.old at (hex_pair (number / 256) ++ hex_pair (number % 256)) 4 result line.new }
    ensures before { result + 4 ≡ at }
{
    let at = put_pair(line, at, (number % 256) as u8);
    put_pair(line, at, (number / 256) as u8)
}

/// Puts the number in base 16, of at most 4 digits.
#[inline(always)]
fn put_short(line: &mut [u8; LINE_ROOM], at: usize, number: u64) -> usize
    requires small { number < 2 ^ 16 }
    requires room { 4 ≤ at }
    requires within { at ≤ 128 }
    ensures { Puts line.old at (numeral 16 number) 4 result line.new }
{
    if number >= 4096 {
        return put_four(line, at, number);
    }
    if number >= 256 {
        let at = put_pair(line, at, (number % 256) as u8);
        return put(line, at, glyph(number / 256));
    }
    if number >= 16 {
        return put_pair(line, at, number as u8);
    }
    put(line, at, glyph(number))
}

/// Puts the number in base 16, of at most 12 digits.
#[inline(always)]
fn put_hex(line: &mut [u8; LINE_ROOM], at: usize, number: u64) -> usize
    requires small { number < 2 ^ 48 }
    requires room { 12 ≤ at }
    requires within { at ≤ 128 }
    ensures { Puts line.old at (numeral 16 number) 12 result line.new }
{
    if number < FOUR_LIMIT {
        return put_short(line, at, number);
    }
    let at = put_four(line, at, number % FOUR_LIMIT);
    let rest = number / FOUR_LIMIT;
    if rest < FOUR_LIMIT {
        return put_short(line, at, rest);
    }
    let at = put_four(line, at, rest % FOUR_LIMIT);
    put_short(line, at, rest / FOUR_LIMIT)
}

/// Puts a space and the number in base 10.
#[inline(always)]
fn put_count(line: &mut [u8; LINE_ROOM], at: usize, number: u64) -> usize
    requires room { 21 ≤ at }
    requires within { at ≤ 128 }
    ensures { Puts line.old at (32 ∷ numeral 10 number) 21 result line.new }
{
    let at = put_decimal(line, at, number);
    put(line, at, b' ')
}

/// Puts a space and the address.
#[inline(always)]
fn put_address(line: &mut [u8; LINE_ROOM], at: usize, addr: Addr) -> usize
    requires room { 23 ≤ at }
    requires within { at ≤ 128 }
    ensures { Puts line.old at (32 ∷ address addr) 23 result line.new }
{
    let at = put_hex(line, at, addr.get());
    put_word(line, at, b" 0x")
}

/// Puts the address and the length of the range, each behind a space.
#[inline(always)]
fn put_range(line: &mut [u8; LINE_ROOM], at: usize, range: &Range) -> usize
    requires room { 44 ≤ at }
    requires within { at ≤ 128 }
    ensures { Puts line.old at (spaced (address range.now.addr ∷ numeral 10 range.now.len ∷ [])) 44 result line.new }
{
    let at = put_count(line, at, range.len());
    put_address(line, at, range.addr())
}

/// Puts two digits for each of the bytes, which are at most 8.
#[inline(always)]
fn put_pairs(line: &mut [u8; LINE_ROOM], at: usize, bytes: &[u8]) -> usize
    requires few { length bytes.now ≤ 8 }
    requires room { 16 ≤ at }
    requires within { at ≤ 128 }
    ensures { Puts line.old at (hex_bytes bytes.now) 16 result line.new }
{
    let mut start = at;
    let mut left = bytes.len();
    while left > 0 {
        left -= 1;
        start = put_pair(line, start, bytes[left]);
    }
    start
}

/// Puts a space and two digits for each of the bytes, which are at most 8 and mostly 8.
#[inline(always)]
fn put_bytes(line: &mut [u8; LINE_ROOM], at: usize, bytes: &[u8]) -> usize
    requires few { length bytes.now ≤ 8 }
    requires room { 17 ≤ at }
    requires within { at ≤ 128 }
    ensures { Puts line.old at (32 ∷ hex_bytes bytes.now) 17 result line.new }
{
    let start = if bytes.len() == 8 {
        put_pairs(line, at, &bytes[..8])
    } else {
        put_pairs(line, at, bytes)
    };
    put(line, start, b' ')
}

/// Puts the word of the op.
#[inline(always)]
fn put_name(line: &mut [u8; LINE_ROOM], at: usize, op: &Op) -> usize
    requires room { 15 ≤ at }
    requires within { at ≤ 128 }
    ensures { Puts line.old at (word_text (word_of op.now)) 15 result line.new }
{
    match op {
        Op::Store(_) => put_word(line, at, b"store"),
        Op::Clwb(_) => put_word(line, at, b"clwb"),
        Op::ClflushOpt(_) => put_word(line, at, b"clflushopt"),
        Op::Clflush(_) => put_word(line, at, b"clflush"),
        Op::Sfence => put_word(line, at, b"sfence"),
        Op::Mfence => put_word(line, at, b"mfence"),
        Op::IsPersist(_) => put_word(line, at, b"isPersist"),
        Op::IsOrderedBefore(_, _) => put_word(line, at, b"isOrderedBefore"),
    }
}

/// Puts what the line has after the thread, each field behind a space.
#[inline(always)]
fn put_arguments(line: &mut [u8; LINE_ROOM], at: usize, op: &Op) -> usize
    requires room { 88 ≤ at }
    requires within { at ≤ 128 }
    ensures { Puts line.old at (spaced (arguments_of op.now)) 88 result line.new }
{
    match op {
        Op::Store(store) => {
            let at = put_bytes(line, at, store.bytes());
            put_address(line, at, store.addr())
        }
        Op::Clwb(addr) => put_address(line, at, *addr),
        Op::ClflushOpt(addr) => put_address(line, at, *addr),
        Op::Clflush(addr) => put_address(line, at, *addr),
        Op::Sfence => at,
        Op::Mfence => at,
        Op::IsPersist(range) => put_range(line, at, range),
        Op::IsOrderedBefore(first, second) => {
            let at = put_range(line, at, second);
            put_range(line, at, first)
        }
    }
}

/// Spells the event's line, with its LF, at the end of the buffer, and answers where it begins.
#[inline(always)]
pub(crate) fn spell_line(line: &mut [u8; LINE_ROOM], event: &Event) -> usize
    ensures { Puts line.old 128 (event_text event.now) 125 result line.new }
{
    let at = put(line, LINE_ROOM, b'\n');
    let at = put_arguments(line, at, &event.op);
    let at = put_count(line, at, event.thread as u64);
    put_name(line, at, &event.op)
}
