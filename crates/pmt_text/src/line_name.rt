//! The addresses of lines.
ghost use Rattle.std.specs.Prelude.{◌≡◌};
ghost use Rattle.pmt_text.specs.Spelling.{line_address as first_address};

use pmt_model::Format;

/// The address of the line's first byte; the highest number if it lies past 64 bits, as that of no line of a trace does.
pub fn line_address(format: Format, line: u64) -> u64
    ensures { result ≡ first_address format line }
{
    line.saturating_mul(format.line_size())
}
