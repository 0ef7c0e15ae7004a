//! Whether the stores to a line that a crash may lose write a byte of a range.

ghost use Rattle.std.specs.Prelude.{◌≡◌, map, reverse};
ghost use Rattle.pmt_model.specs.Traces.{act};
ghost use Rattle.pmt_book.specs.Live.{touches as touches_range, store_on, none_touches as none_touches_range};

use pmt_model::{Event, Format, Op, Range, WordStore, line_of};

// Whether the store writes a byte of the range.
fn touches(store: &WordStore, range: Range) -> bool
    ensures { result ≡ touches_range store.now range }
{
    let from = store.addr().get();
    let to = from + store.bytes().len() as u64;
    from < range.addr().get() + range.len() && range.addr().get() < to
}

// What the event stores to the line.
fn store_to(event: &Event, format: Format, line: u64) -> Option<WordStore>
    ensures { result ≡ store_on line (act format event.now) }
{
    let op = event.op;
    match op {
        Op::Store(store) => {
            if line_of(format, store.addr()) == line {
                Some(store)
            } else {
                None
            }
        }
        _ => None,
    }
}

// Whether none of the newest `count` stores to the line writes a byte of the range. It goes back to the oldest of them.
pub(crate) fn none_touches(
    events: &[Event],
    format: Format,
    count: u64,
    line: u64,
    range: Range,
) -> bool
    ensures { result ≡ none_touches_range count line range (reverse (map (act format) events.now)) }
{
    let mut left = count;
    let mut rest = events;
    while let Some((event, older)) = rest.split_last() {
        if left == 0 {
            return true;
        }
        if let Some(store) = store_to(event, format, line) {
            if touches(&store, range) {
                return false;
            }
            left -= 1;
        }
        rest = older;
    }
    true
}
