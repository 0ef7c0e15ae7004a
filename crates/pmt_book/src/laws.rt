//! What the contracts of a book say of the machine: the function has an empty body, and its contract is the statement.

ghost use Rattle.pmt_book.specs.Live.{EndsAreBetween};

use crate::book::Book;

/// The ends of the runs of a book's events have just the counts of persisted stores that lie, line by line, between its `front` and
/// its `count`.
pub fn ends_are_between(_book: &Book)
    ensures { EndsAreBetween _book.now }
{}
