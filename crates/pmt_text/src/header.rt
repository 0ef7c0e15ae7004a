//! The first line of a trace text.
ghost use Rattle.std.specs.Prelude.{◌≡◌};
ghost use Rattle.pmt_text.specs.Coming.{format_in};

use pmt_model::Format;

/// The format whose header the line is.
pub fn judge_header(line: &[u8]) -> Option<Format>
    ensures { result ≡ format_in line.now }
{
    if line == b"pmtrace 1".as_slice() {
        return Some(Format::v1());
    }
    if line == b"pmtrace 2 32".as_slice() {
        return Format::v2(32).ok();
    }
    if line == b"pmtrace 2 64".as_slice() {
        return Format::v2(64).ok();
    }
    if line == b"pmtrace 2 128".as_slice() {
        return Format::v2(128).ok();
    }
    if line == b"pmtrace 2 256".as_slice() {
        return Format::v2(256).ok();
    }
    None
}
