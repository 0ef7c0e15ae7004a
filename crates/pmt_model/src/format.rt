//! The format of a trace: its version and the size of its cache lines.
ghost use Rattle.std.specs.Prelude.{◌≡◌, ◌≢◌, ℕ, ◌<◌, ◌≤◌};
ghost use Rattle.pmt_model.specs.Values.{IsFormat, first_version, second_version, line_of as line_in};

use crate::addr::Addr;
use crate::fault::FormatError;
use std::marker::Model;

/// The version of a trace and the size of its cache lines.
#[derive(Clone, Copy, Debug, PartialEq, Eq)]
pub struct Format {
    version: u8,
    line_size: u16,
}

impl Model for Format {
    ghost use Rattle.pmt_model.specs.Values.{Layout};

    ghost Value = { Layout };

    ghost use Rattle.pmt_model.specs.Values.{IsFormat};

    ghost view = { λ f. record { version = f.version; line_size = f.line_size } };

    ghost invariant = { λ f. IsFormat (record { version = f.version; line_size = f.line_size }) };

    ghost inverse = { λ l. record { version = l.version; line_size = l.line_size } };
}

impl Format {
    /// Version 1, with lines of 64 bytes.
    pub fn v1() -> Self
        ensures { result ≡ first_version }
    {
        Format {
            version: 1,
            line_size: 64,
        }
    }

    /// Version 2, with lines of 32, 64, 128 or 256 bytes.
    ///
    /// # Errors
    /// `BadLineSize` for every other size.
    pub fn v2(size: u64) -> Result<Self, FormatError>
        ensures { result ≡ second_version size }
    {
        match size {
            32 | 64 | 128 | 256 => Ok(Format {
                version: 2,
                line_size: size as u16,
            }),
            _ => Err(FormatError::BadLineSize),
        }
    }

    /// 1 or 2.
    pub fn version(self) -> u64
        ensures value { result ≡ self.version }
        ensures allowed { IsFormat self }
    {
        self.version as u64
    }

    /// The bytes of a line: 32, 64, 128 or 256.
    pub fn line_size(self) -> u64
        ensures value { result ≡ self.line_size }
        ensures allowed { IsFormat self }
    {
        self.line_size as u64
    }
}

/// The number of the line in which the address lies.
pub fn line_of(format: Format, addr: Addr) -> u64
    ensures { result ≡ line_in format addr }
{
    match format.line_size() {
        // a shift, where any other size takes a division
        64 => addr.get() / 64,
        size => addr.get() / size,
    }
}
