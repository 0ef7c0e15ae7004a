//! A test of what is kept of one line.
use pmt_marks::LineState;
use std::process::Abort;
use std::test::Fail;

fn has_state(rt: &impl Abort, line: &LineState, front: u64, mark: Option<u64>) {
    assert_eq!(rt; (line.front(), line.mark(5)), (front, mark));
}

// More marks than the four inline places. A fence raises the front of the copy, which is a state of its own.
#[test]
fn six_flushers(rt: HostRuntime) -> Result<(), Fail> {
    let mut line = LineState::new(rt.alloc());
    line.on_store();
    for thread in 0..6 {
        assert!(rt; line.on_flush(thread).is_ok());
    }
    let mut copy = line.copy().expect(&rt, "a copy");
    assert!(rt; copy.on_fence(5));
    has_state(&rt, &copy, 1, None);
    has_state(&rt, &line, 0, Some(1));
    Ok(())
}
