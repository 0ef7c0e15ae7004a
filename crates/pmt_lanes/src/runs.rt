//! How many bytes of one load, from the first on, are digits.
ghost use Rattle.std.specs.Prelude.{◌≡◌, ◌≤◌, map, not};
ghost use Rattle.std.specs.Char.{is_ascii_digit};
ghost use Rattle.std.specs.List.{prefix_len};
ghost use Rattle.std.specs.Simd.Lanes.{mask_l};
ghost use Rattle.pmt_lanes.specs.Digits.{is_hex_digit};

use std::simd::prelude::*;

/// So many bytes are read at once.
pub(crate) const LANES: usize = 16;

/// A bit for each byte that is no digit of base 10.
#[inline(always)]
fn other_than_decimal(bytes: u8x16) -> u64
    ensures { result ≡ mask_l (map (λ c. not (is_ascii_digit c)) bytes) }
{
    (bytes - u8x16::splat(b'0'))
        .simd_ge(u8x16::splat(10))
        .to_bitmask()
}

/// A bit for each byte that is no digit of base 16.
#[inline(always)]
fn other_than_hex(bytes: u8x16) -> u64
    ensures { result ≡ mask_l (map (λ c. not (is_hex_digit c)) bytes) }
{
    let no_number = (bytes - u8x16::splat(b'0')).simd_ge(u8x16::splat(10));
    let no_letter = (bytes - u8x16::splat(b'a')).simd_ge(u8x16::splat(6));
    (no_number & no_letter).to_bitmask()
}

/// How many digits of base 10 come before any other byte.
#[inline(always)]
pub(crate) fn decimal_run(bytes: u8x16) -> usize
    ensures run { result ≡ prefix_len is_ascii_digit bytes }
    ensures within { result ≤ 16 }
{
    (other_than_decimal(bytes) + (1 << LANES)).trailing_zeros() as usize
}

/// How many digits of base 16 come before any other byte.
#[inline(always)]
pub(crate) fn hex_run(bytes: u8x16) -> usize
    ensures run { result ≡ prefix_len is_hex_digit bytes }
    ensures within { result ≤ 16 }
{
    (other_than_hex(bytes) + (1 << LANES)).trailing_zeros() as usize
}
