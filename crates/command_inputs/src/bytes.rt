//! What is asked of all bytes of a text, sixteen at once.

use memchr::memchr_iter;
use std::simd::prelude::*;

// So many bytes are looked at together.
const LANES: usize = 16;

// How many lines end in these bytes.
pub(crate) fn line_ends(bytes: &[u8]) -> u64 {
    let parts = bytes.len() / LANES;
    let mut ends = 0u64;
    for part in 0..parts {
        let ended = u8x16::from_slice(&bytes[part * LANES..]).simd_eq(u8x16::splat(b'\n'));
        let count = ended.select(u8x16::splat(1), u8x16::splat(0)).reduce_sum();
        ends = ends.saturating_add(count as u64);
    }
    let rest = memchr_iter(b'\n', &bytes[parts * LANES..]).count();
    ends.saturating_add(rest as u64)
}

/// Whether a control character stands in the text.
pub fn has_control(bytes: &[u8]) -> bool {
    let parts = bytes.len() / LANES;
    for part in 0..parts {
        let lanes = u8x16::from_slice(&bytes[part * LANES..]);
        let controls = lanes.simd_lt(u8x16::splat(b' ')) | lanes.simd_eq(u8x16::splat(0x7f));
        if controls.any() {
            return true;
        }
    }
    for byte in &bytes[parts * LANES..] {
        if is_control(*byte) {
            return true;
        }
    }
    false
}

// Whether the byte is a control character.
fn is_control(byte: u8) -> bool {
    byte < b' ' || byte == 0x7f
}
