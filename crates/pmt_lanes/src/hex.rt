//! Numbers of base 16, and bytes as pairs of its digits.
ghost use Rattle.std.specs.Prelude.{◌≡◌, ◌*◌, ◌%◌, ◌≤◌, ◌↔◌, IsSome, IfSome, length, map, min, take};
ghost use Rattle.std.specs.Int.{to_le_bytes, w64};
ghost use Rattle.std.specs.Int.Digits.{AllBelowBase};
ghost use Rattle.std.specs.List.{prefix_len};
ghost use Rattle.std.specs.Str.Parse.{digits_value};
ghost use Rattle.pmt_lanes.specs.Digits.{is_hex_digit, paired, IsNumberFirst, joined, nibble};

use crate::runs::{LANES, hex_run};
use std::simd::prelude::*;

/// The value of each digit of base 16, and some number below 16 for any other byte.
#[inline(always)]
fn nibbles(bytes: u8x16) -> u8x16
    ensures { result ≡ map nibble bytes }
{
    let no_letter = (bytes - u8x16::splat(b'a')).simd_ge(u8x16::splat(6));
    (bytes & u8x16::splat(15)) + no_letter.select(u8x16::splat(0), u8x16::splat(9))
}

/// The bytes that pairs of digits write.
#[inline(always)]
fn join(digits: u8x16) -> u8x8
    requires { AllBelowBase 16 digits }
    ensures { result ≡ joined digits }
{
    let pairs = u16x8::from_le_bytes(digits);
    (((pairs << 4) + (pairs >> 8)) & u16x8::splat(255)).cast::<u8>()
}

/// The number of base 16 that stands first, in digits 0 to 9 and a to f, and how many digits it has: at most 15. No 0 stands before
/// another digit. `None` where there is no such number, and of a text of fewer than 16 bytes.
#[inline(always)]
pub fn hex_number(text: &[u8]) -> Option<(u64, usize)>
    ensures found { IsSome result ↔ ((16 ≤ length text.now) × IsNumberFirst is_hex_digit 15 text.now) }
    ensures digits { IfSome result (λ p. p.1 ≡ prefix_len is_hex_digit text.now) }
    ensures value { IfSome result (λ p. p.0 ≡ digits_value 16 (take p.1 text.now)) }
{
    if text.len() < LANES {
        return None;
    }
    let bytes = u8x16::from_slice(text);
    let count = hex_run(bytes);
    if count == 0 {
        return None;
    }
    if count == LANES {
        return None;
    }
    if text[0] == b'0' && count != 1 {
        return None;
    }
    let number = u64::from_be_bytes(join(nibbles(bytes)).to_array());
    Some((number >> (64 - 4 * count), count))
}

/// The bytes that pairs of digits of base 16 write at the front, and how many: 0 to 8. The first byte is the lowest of the number. Digits
/// after the first 16 are not looked at. `None` where the digits are an odd number, and of a text of fewer than 16 bytes.
#[inline(always)]
pub fn hex_bytes(text: &[u8]) -> Option<(u64, usize)>
    ensures found { IsSome result ↔ ((16 ≤ length text.now) × (min 16 (prefix_len is_hex_digit text.now) % 2 ≡ 0)) }
    ensures digits { IfSome result (λ p. 2 * p.1 ≡ min 16 (prefix_len is_hex_digit text.now)) }
    ensures bytes { IfSome result (λ p. take p.1 (to_le_bytes w64 p.0) ≡ paired (take (2 * p.1) text.now)) }
{
    if text.len() < LANES {
        return None;
    }
    let bytes = u8x16::from_slice(text);
    let count = hex_run(bytes);
    if count % 2 == 1 {
        return None;
    }
    let number = u64::from_le_bytes(join(nibbles(bytes)).to_array());
    Some((number, count / 2))
}
