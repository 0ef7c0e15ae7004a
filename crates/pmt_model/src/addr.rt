//! Addresses.
ghost use Rattle.std.specs.Prelude.{◌≡◌, ℕ, ◌^◌, ◌<◌};
ghost use Rattle.pmt_model.specs.Values.{address_of};

use crate::fault::OpError;
use std::fmt;
use std::marker::Model;

/// An address of persistent memory: 0 to 0xffffffffffff (own profile: 48 bits).
#[derive(Clone, Copy, PartialEq, Eq)]
pub struct Addr {
    low: u16,
    middle: u16,
    high: u16,
}

impl Model for Addr {
    ghost use Rattle.std.specs.Prelude.{ℕ};

    ghost Value = { ℕ };

    ghost use Rattle.pmt_model.specs.Parts.{AreParts, address_from, parts_of, parts_back};

    ghost view = { address_from };

    ghost invariant = { AreParts };

    ghost inverse = { parts_of };

    ghost inverse_ok = { parts_back };
}

impl Addr {
    /// The address with this value.
    ///
    /// # Errors
    /// `OutOfRange` where the value is over 0xffffffffffff.
    pub fn new(value: u64) -> Result<Self, OpError>
        ensures { result ≡ address_of value }
    {
        if value < (1 << 48) {
            Ok(Addr {
                low: (value % (1 << 16)) as u16,
                middle: (value / (1 << 16) % (1 << 16)) as u16,
                high: (value / (1 << 32)) as u16,
            })
        } else {
            Err(OpError::OutOfRange)
        }
    }

    /// The value, below 2^48.
    pub fn get(self) -> u64
        ensures value { result ≡ self }
        ensures within { self < 2 ^ 48 }
    {
        self.low as u64 + self.middle as u64 * (1 << 16) + self.high as u64 * (1 << 32)
    }
}

impl fmt::Debug for Addr {
    fn fmt<W: fmt::Write>(&self, f: &mut fmt::Formatter<W>) -> fmt::Result {
        f.debug_struct("Addr").field("value", &self.get()).finish()
    }
}
