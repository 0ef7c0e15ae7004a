//! The lines of a text.
ghost use Rattle.std.specs.Prelude.{◌≡◌, option_map};
ghost use Rattle.pmt_sources.specs.Places.{after_line, front_line, line_at};

use memchr::memchr;

/// The line with this number, from 1, without its LF. None where the text has fewer lines.
pub fn line_in(text: &[u8], number: u64) -> Option<&[u8]>
    ensures { option_map (λ line. line.now) result ≡ line_at number text.now }
{
    let mut rest = text;
    for _ in 0..number.saturating_sub(1) {
        if rest.is_empty() {
            return None;
        }
        rest = rest_after(rest);
    }
    if rest.is_empty() {
        return None;
    }
    Some(first_of(rest))
}

// What stands before the first LF, or all.
fn first_of(text: &[u8]) -> &[u8]
    ensures { result.now ≡ front_line text.now }
{
    match memchr(b'\n', text) {
        Some(end) => &text[..end],
        None => text,
    }
}

// What stands after the first LF; nothing where there is none.
fn rest_after(text: &[u8]) -> &[u8]
    ensures { result.now ≡ after_line text.now }
{
    match memchr(b'\n', text) {
        Some(end) => &text[end + 1..],
        None => &text[text.len()..],
    }
}
