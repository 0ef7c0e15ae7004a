//! A test of a source that lends its lines.
use pmt_text::devices::PieceReader;
use pmt_text::{Counted, EventSource, TextSource};
use std::process::Abort;

const ONE_PERSIST: &[u8] = b"pmtrace 1\nstore 0 0x1000 01\nclwb 0 0x1000\nsfence 0\n";

// The source lends this line next.
fn lends<S: EventSource>(rt: &impl Abort, source: &mut S, line: &[u8]) {
    assert!(rt; source.next().is_ok());
    assert_eq!(rt; source.last_line(), Some(line));
}

#[test]
fn lends_each_line(rt: HostRuntime) {
    let reader = PieceReader::new(ONE_PERSIST, 4096);
    let mut source = TextSource::new(rt.alloc(), Counted::new(reader));
    lends(&rt, &mut source, b"store 0 0x1000 01\n");
    lends(&rt, &mut source, b"clwb 0 0x1000\n");
    lends(&rt, &mut source, b"sfence 0\n");
}
