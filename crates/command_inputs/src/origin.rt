//! The address of a pool, as words and files have it.

use pmt_text::number::read_address;

/// The address, which has 48 bits.
pub fn read_origin(text: &[u8]) -> Option<u64> {
    match read_address(text) {
        Some(address) if address < 1 << 48 => Some(address),
        _ => None,
    }
}
