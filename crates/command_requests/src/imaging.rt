//! What `image` is asked for.
ghost use Rattle.std.specs.Prelude.{◌≡◌, ◌&&◌, nat_le};
ghost use Rattle.std.specs.List.{list_any};

use pmt_model::Addr;

/// So many stores of the line of this address: its first ones.
#[derive(Clone, Copy)]
pub struct AddressStores {
    pub address: Addr,
    pub stores: u64,
}

/// Which crash is asked for.
#[derive(Drop)]
pub enum AskedCrash {
    /// That of the failed assertion of this event.
    Failure(u64),
    /// One after so many events.
    At {
        place: u64,
        /// Whether each line has all its stores, and not only what no crash can lose.
        all: bool,
        /// The lines that have as many stores as is asked.
        lines: Vec<AddressStores>,
    },
}

/// What `image` is asked for.
#[derive(Drop)]
pub struct ImageWords<'a> {
    /// The crash.
    pub crash: AskedCrash,
    /// The pool's file before the trace began; none for the one beside the trace.
    pub pool: Option<&'a str>,
    /// The address of the pool's first byte; none for the one beside the trace.
    pub origin: Option<u64>,
    /// The file that is written; none for standard output.
    pub out: Option<&'a str>,
    /// The trace; none for standard input.
    pub file: Option<&'a str>,
}

/// Places from `first` to `last`, both among them.
#[derive(Clone, Copy)]
pub struct PlaceRange {
    /// The first.
    pub first: u64,
    /// The last.
    pub last: u64,
}

/// Whether one of the ranges has the place.
pub fn has_place(ranges: &[PlaceRange], place: u64) -> bool
    ensures { result ≡ list_any (λ x. nat_le x.first place && nat_le place x.last) ranges.now }
{
    ranges
        .iter()
        .any(|range| range.first <= place && place <= range.last)
}

/// What `image --list` is asked for.
#[derive(Drop)]
pub struct ListWords<'a> {
    /// The places; none for those where crashes turn.
    pub places: Vec<PlaceRange>,
    /// How many lines may be off.
    pub off: u64,
    /// The file that is written; none for standard output.
    pub out: Option<&'a str>,
    /// The trace; none for standard input.
    pub file: Option<&'a str>,
}
