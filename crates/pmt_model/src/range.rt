//! The ranges of assertions.
ghost use Rattle.std.specs.Prelude.{◌≡◌, ◌+◌, ◌^◌, ◌≤◌};
ghost use Rattle.pmt_model.specs.Values.{range_of, IsRange};

use crate::addr::Addr;
use crate::fault::OpError;
use std::marker::Model;

/// The bytes that an assertion speaks of: 1 to 4096, none past 48 bits.
#[derive(Clone, Copy, Debug, PartialEq, Eq)]
pub struct Range {
    addr: Addr,
    len: u16,
}

impl Model for Range {
    ghost use Rattle.pmt_model.specs.Values.{Span, IsRange};

    ghost Value = { Span };

    ghost view = { λ r. record { addr = r.addr; len = r.len } };

    ghost invariant = { λ r. IsRange (record { addr = r.addr; len = r.len }) };

    ghost inverse = { λ s. record { addr = s.addr; len = s.len } };
}

impl Range {
    /// The `len` bytes from `addr` on.
    ///
    /// # Errors
    /// `BadLength` where `len` is 0 or over 4096, then `OutOfRange` where `addr + len` is over 2^48.
    pub fn new(addr: u64, len: u64) -> Result<Self, OpError>
        ensures { result ≡ range_of addr len }
    {
        if len == 0 || len > 4096 {
            return Err(OpError::BadLength);
        }
        if addr > (1 << 48) - len {
            return Err(OpError::OutOfRange);
        }
        let addr = Addr::new(addr)?;
        Ok(Range {
            addr,
            len: len as u16,
        })
    }

    /// The address of the first byte.
    pub fn addr(&self) -> Addr
        ensures { result ≡ self.now.addr }
    {
        self.addr
    }

    /// How many bytes, 1 to 4096.
    pub fn len(&self) -> u64
        ensures value { result ≡ self.now.len }
        ensures is_range { IsRange self.now }
    {
        self.len as u64
    }
}
