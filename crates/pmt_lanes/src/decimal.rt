//! Numbers of base 10.
ghost use Rattle.std.specs.Prelude.{◌≡◌, ◌<◌, ◌≤◌, ◌↔◌, IsSome, IfSome, length, take};
ghost use Rattle.std.specs.Char.{is_ascii_digit};
ghost use Rattle.std.specs.List.{prefix_len};
ghost use Rattle.std.specs.Str.Parse.{digits_value};
ghost use Rattle.pmt_lanes.specs.Digits.{IsNumberFirst};

use crate::runs::{LANES, decimal_run};
use std::simd::prelude::*;

/// What each of the first four digits counts, where so many stand before any other byte.
static WORTH: [[u16; 4]; 5] = [
    [0, 0, 0, 0],
    [1, 0, 0, 0],
    [10, 1, 0, 0],
    [100, 10, 1, 0],
    [1000, 100, 10, 1],
];

/// The number that the first digits write, of which there are so many.
#[inline(always)]
fn value_of(bytes: u8x16, count: usize) -> u16
    requires some { 1 ≤ count }
    requires few { count ≤ 4 }
    requires run { count ≤ prefix_len is_ascii_digit bytes }
    ensures { result ≡ digits_value 10 (take count bytes) }
{
    let digits = (bytes - u8x16::splat(b'0')).extract::<0, 4>().cast::<u16>();
    (digits * u16x4::from_array(WORTH[count])).reduce_sum()
}

/// The number of base 10 that stands first, and how many digits it has: at most four. No 0 stands before another digit. `None` where
/// there is no such number, and of a text of fewer than 16 bytes.
#[inline(always)]
pub fn decimal_number(text: &[u8]) -> Option<(u64, usize)>
    ensures found { IsSome result ↔ ((16 ≤ length text.now) × IsNumberFirst is_ascii_digit 4 text.now) }
    ensures digits { IfSome result (λ p. p.1 ≡ prefix_len is_ascii_digit text.now) }
    ensures value { IfSome result (λ p. p.0 ≡ digits_value 10 (take p.1 text.now)) }
{
    if text.len() < LANES {
        return None;
    }
    let bytes = u8x16::from_slice(text);
    let count = decimal_run(bytes);
    if count == 0 {
        return None;
    }
    if count > 4 {
        return None;
    }
    if text[0] == b'0' && count != 1 {
        return None;
    }
    Some((value_of(bytes, count) as u64, count))
}
