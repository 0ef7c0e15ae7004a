//! Which stores the user ignores.
ghost use Rattle.std.specs.Prelude.{◌≡◌, []};
ghost use Rattle.pmt_asked.specs.Choosing.{has_byte as range_has, is_at_place as event_at_place, is_byte_ignored as byte_ignored, is_ignored as event_ignored, is_left_out as left_out, is_named as frame_named, is_place_ignored as place_ignored, is_store_ignored as store_ignored};

use crate::frames::frame_of;
use crate::labels::Labels;
use pmt_model::{Op, Trace, WordStore};
use std::alloc::Global;

/// The `len` bytes from `addr` on: a store all of whose bytes lie in such ranges is ignored.
#[derive(Clone, Copy)]
pub struct ByteRange {
    /// The address of the first byte.
    pub addr: u64,
    /// How many bytes.
    pub len: u64,
}

/// A place of the source, or all of them whose innermost frames begin alike.
#[derive(Drop)]
pub struct IgnoredPlace {
    /// The innermost frame, or how it begins.
    pub text: String,
    /// Whether it is how frames begin.
    pub is_start: bool,
}

/// The stores that may be lost or overwritten: those all of whose bytes lie in the ranges, and those of the places.
#[derive(Drop)]
pub struct Ignored {
    /// The bytes. Ranges may overlap.
    pub ranges: Vec<ByteRange>,
    /// The places. Events without a label are of none.
    pub places: Vec<IgnoredPlace>,
}

impl Ignored {
    /// No stores.
    pub fn new(alloc: Global) -> Self
        ensures ranges { result.ranges.items ≡ [] }
        ensures places { result.places.items ≡ [] }
    {
        Ignored {
            ranges: Vec::new(alloc),
            places: Vec::new(alloc),
        }
    }
}

// Whether the byte lies in the range.
fn has_byte(range: ByteRange, byte: u64) -> bool
    ensures { result ≡ range_has byte range }
{
    range.addr <= byte && byte - range.addr < range.len
}

// Whether the byte lies in one of the ranges.
fn is_byte_ignored(ranges: &[ByteRange], byte: u64) -> bool
    ensures { result ≡ byte_ignored ranges.now byte }
{
    ranges.iter().any(|range| has_byte(*range, byte))
}

/// Whether each byte of the store lies in one of the ranges.
pub(crate) fn is_store_ignored(ranges: &[ByteRange], store: &WordStore) -> bool
    ensures { result ≡ store_ignored ranges.now store.now }
{
    let first = store.addr().get();
    let end = first + store.bytes().len() as u64;
    for byte in first..end {
        if !is_byte_ignored(ranges, byte) {
            return false;
        }
    }
    true
}

/// Whether the event is a store each of whose bytes lies in one of the ranges.
pub fn is_ignored(trace: &Trace, ranges: &[ByteRange], number: u64) -> bool
    ensures { result ≡ event_ignored trace.now ranges.now number }
{
    let Some(event) = trace.get(number) else {
        return false;
    };
    let op = event.op;
    match op {
        Op::Store(store) => is_store_ignored(ranges, &store),
        _ => false,
    }
}

// Whether the frame is that of the place, or begins so.
fn is_named(place: &IgnoredPlace, frame: &[u8]) -> bool
    ensures { result ≡ frame_named place.now frame.now }
{
    if place.is_start {
        frame.starts_with(place.text.as_bytes())
    } else {
        frame == place.text.as_bytes()
    }
}

/// Whether the event has a label whose innermost frame is that of the place, or begins so.
pub fn is_at_place(labels: &Labels, place: &IgnoredPlace, number: u64) -> bool
    ensures { result ≡ event_at_place labels.now place.now number }
{
    match labels.get(number) {
        Some(label) => is_named(place, frame_of(label.as_str()).as_bytes()),
        None => false,
    }
}

// Whether the event is at one of the places.
fn is_place_ignored(labels: &Labels, places: &[IgnoredPlace], number: u64) -> bool
    ensures { result ≡ place_ignored labels.now places.now number }
{
    places
        .iter()
        .any(|place| is_at_place(labels, place, number))
}

/// Whether the store with this number is ignored, by its bytes or by its place.
pub fn is_left_out(trace: &Trace, labels: &Labels, ignored: &Ignored, number: u64) -> bool
    ensures { result ≡ left_out trace.now labels.now ignored.now number }
{
    is_ignored(trace, ignored.ranges.as_slice(), number)
        || is_place_ignored(labels, ignored.places.as_slice(), number)
}
