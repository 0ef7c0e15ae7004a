//! Reading numbers, addresses and bytes.
ghost use Rattle.std.specs.Prelude.{◌≡◌, ◌+◌, ◌*◌, ◌≤◌, length};
ghost use Rattle.std.specs.Option.{option_map};
ghost use Rattle.pmt_text.specs.Judging.{number_in, address_in, bytes_in, capped, digit_of, GivesBytes, IsBase};

/// The value of each byte as a digit: 0 to 9, and a to f; 16 for any other byte.
static DIGITS: [u8; 256] = [
    16, 16, 16, 16, 16, 16, 16, 16, 16, 16, 16, 16, 16, 16, 16, 16, 16, 16, 16, 16, 16, 16, 16, 16,
    16, 16, 16, 16, 16, 16, 16, 16, 16, 16, 16, 16, 16, 16, 16, 16, 16, 16, 16, 16, 16, 16, 16, 16,
    0, 1, 2, 3, 4, 5, 6, 7, 8, 9, 16, 16, 16, 16, 16, 16, 16, 16, 16, 16, 16, 16, 16, 16, 16, 16,
    16, 16, 16, 16, 16, 16, 16, 16, 16, 16, 16, 16, 16, 16, 16, 16, 16, 16, 16, 16, 16, 16, 16, 10,
    11, 12, 13, 14, 15, 16, 16, 16, 16, 16, 16, 16, 16, 16, 16, 16, 16, 16, 16, 16, 16, 16, 16, 16,
    16, 16, 16, 16, 16, 16, 16, 16, 16, 16, 16, 16, 16, 16, 16, 16, 16, 16, 16, 16, 16, 16, 16, 16,
    16, 16, 16, 16, 16, 16, 16, 16, 16, 16, 16, 16, 16, 16, 16, 16, 16, 16, 16, 16, 16, 16, 16, 16,
    16, 16, 16, 16, 16, 16, 16, 16, 16, 16, 16, 16, 16, 16, 16, 16, 16, 16, 16, 16, 16, 16, 16, 16,
    16, 16, 16, 16, 16, 16, 16, 16, 16, 16, 16, 16, 16, 16, 16, 16, 16, 16, 16, 16, 16, 16, 16, 16,
    16, 16, 16, 16, 16, 16, 16, 16, 16, 16, 16, 16, 16, 16, 16, 16, 16, 16, 16, 16, 16, 16, 16, 16,
    16, 16, 16, 16, 16, 16, 16, 16, 16, 16, 16, 16, 16, 16,
];

/// The value of a digit: 0 to 9, and a to f; 16 for any other byte.
#[inline(always)]
pub(crate) fn digit(byte: u8) -> u64
    ensures { result ≡ digit_of byte }
{
    DIGITS[byte as usize] as u64
}

/// The number that the field spells in the base; at most 2^64 - 1, which also stands for every greater one.
#[inline]
pub fn read_number(base: u64, field: &[u8]) -> Option<u64>
    requires { IsBase base }
    ensures { result ≡ option_map capped (number_in base field.now) }
{
    if field.is_empty() {
        return None;
    }
    if field[0] == b'0' && field.len() > 1 {
        return None;
    }
    let mut number: u64 = 0;
    for byte in field {
        let digit = digit(*byte);
        if digit >= base {
            return None;
        }
        number = number.saturating_mul(base).saturating_add(digit);
    }
    Some(number)
}

/// The address that the field spells, with the same bound.
#[inline]
pub fn read_address(field: &[u8]) -> Option<u64>
    ensures { result ≡ option_map capped (address_in field.now) }
{
    if field.len() < 2 {
        return None;
    }
    if field[0] != b'0' {
        return None;
    }
    if field[1] != b'x' {
        return None;
    }
    read_number(16, &field[2..])
}

/// How many bytes the field spells, which is at least one. The first eight of them are at the front of `out`.
#[inline]
pub fn read_bytes(field: &[u8], out: &mut [u8; 8]) -> Option<usize>
    ensures given { GivesBytes (bytes_in field.now) result out.new }
    ensures eight { length out.new ≡ 8 }
{
    if field.is_empty() || field.len() % 2 == 1 {
        return None;
    }
    let count = field.len() / 2;
    for i in 0..count {
        let high = digit(field[2 * i]);
        let low = digit(field[2 * i + 1]);
        if high == 16 || low == 16 {
            return None;
        }
        if i < 8 {
            out[i] = (16 * high + low) as u8;
        }
    }
    Some(count)
}
