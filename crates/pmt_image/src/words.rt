//! The words by which `image` is asked for a crash.
ghost use Rattle.std.specs.Prelude.{ℕ, MatchOption};
ghost use Rattle.pmt_image.specs.Listing.{Asks, CrashesAreReadBack};

use pmt_model::Addr;
use pmt_text::number::{read_address, read_number};

/// So many stores of the line of this address: its first ones.
#[derive(Clone, Copy)]
pub struct LineWord {
    /// The address.
    pub address: Addr,
    /// How many stores.
    pub stores: u64,
}

/// What the word `A:K` asks for; none where it is no address of 48 bits with a colon and a number behind it.
pub fn read_line_word(word: &str) -> Option<LineWord>
    ensures { MatchOption result ((a k : ℕ) → ¬ Asks word.now a k) (λ x. Asks word.now x.address x.stores) }
{
    let Some((front, digits)) = word.split_once(':') else {
        return None;
    };
    let Some(value) = read_address(front.as_bytes()) else {
        return None;
    };
    let Some(stores) = read_number(10, digits.as_bytes()) else {
        return None;
    };
    match Addr::new(value) {
        Ok(address) => Some(LineWord { address, stores }),
        Err(_) => None,
    }
}

/// The words of each line that `push_crash` writes are read back: the crash's place, and of each line, if its address has 48 bits, the line and
/// how many of its stores.
pub fn crashes_are_read_back()
    ensures { CrashesAreReadBack }
{}
