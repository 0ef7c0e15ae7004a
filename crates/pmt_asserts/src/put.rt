//! The stores of a line and the bytes that they write.

/// A store of a line's job.
#[derive(Clone, Copy)]
pub struct Put {
    /// The event's number.
    pub number: u64,
    pub addr: u64,
    pub len: u64,
}

/// A byte that a store writes, with the store's rank among those of its line, from 1.
#[derive(Clone, Copy)]
pub struct Write {
    pub byte: u64,
    pub rank: u64,
}

impl Write {
    ghost use Rattle.std.specs.Prelude.{◌≡◌};
    ghost use Rattle.pmt_asserts.specs.Puts.{key_of};

    /// By this number writes stand by byte, and those of one byte by rank.
    pub fn key(&self) -> u128
        ensures { result ≡ key_of self.now }
    {
        self.byte as u128 * (1 << 64) + self.rank as u128
    }
}
