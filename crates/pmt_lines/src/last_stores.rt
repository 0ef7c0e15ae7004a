//! Which store wrote each byte of a line last.
ghost use Rattle.std.specs.Prelude.{◌≡◌, ℕ, ◌+◌, ◌%◌, ◌<◌, ◌≤◌, ◌⊎◌, length, replicate, slice_index};

/// The number of the last store to each byte of a line, or 0, by the byte's address modulo 256: a line has at most 256 bytes.
#[derive(Drop)]
pub(crate) struct LastStores {
    pub(crate) numbers: [u32; 256],
}

impl LastStores {
    // No byte is stored yet.
    pub(crate) fn new() -> Self
        ensures { result.numbers ≡ replicate 256 0 }
    {
        LastStores { numbers: [0; 256] }
    }

    // The last stores to the bytes from the address on.
    pub(crate) fn of(&self, addr: u64, len: u64) -> &[u32]
        requires { addr % 256 + len ≤ 256 }
        ensures count { length result.now ≡ len }
        ensures each { (k : ℕ) → k < len → slice_index result.now k ≡ slice_index self.now.numbers (addr % 256 + k) }
    {
        let start = (addr % 256) as usize;
        &self.numbers[start..start + len as usize]
    }

    // A store to the bytes from the address on.
    pub(crate) fn store(&mut self, addr: u64, len: u64, number: u32)
        requires { addr % 256 + len ≤ 256 }
        ensures inside { (k : ℕ) → addr % 256 ≤ k → k < addr % 256 + len → slice_index self.new.numbers k ≡ number }
        ensures outside { (k : ℕ) → (k < addr % 256) ⊎ (addr % 256 + len ≤ k) → slice_index self.new.numbers k ≡ slice_index self.old.numbers k }
    {
        let start = (addr % 256) as usize;
        for place in start..start + len as usize {
            self.numbers[place] = number;
        }
    }
}
