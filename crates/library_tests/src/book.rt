//! A test of the book.
use pmt_book::Book;
use pmt_model::{Event, Op};
use std::process::Abort;
use std::test::Fail;

// Adds the op as an event of thread 1.
fn add(rt: &impl Abort, book: &mut Book, op: Op) {
    let answer = book.push_event(Event { thread: 1, op });
    assert!(rt; answer.is_ok());
}

// The front of line 64, and the number of events.
fn has_front(rt: &impl Abort, book: &Book, front: u64, events: usize) {
    assert_eq!(rt; (book.front(64), book.len()), (front, events));
}

// A fence raises the front of the copy alone.
#[test]
fn copied(rt: HostRuntime) -> Result<(), Fail> {
    let mut book = Book::new(rt.alloc());
    add(&rt, &mut book, Op::store(0x1000, &[1])?);
    add(&rt, &mut book, Op::clwb(0x1000)?);
    let mut copy = book.copy().expect(&rt, "a copy");
    add(&rt, &mut copy, Op::Sfence);
    has_front(&rt, &copy, 1, 3);
    has_front(&rt, &book, 0, 2);
    Ok(())
}
