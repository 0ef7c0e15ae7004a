//! Tests of the runs over a writer that takes every byte, and whose flush fails.
ghost use Rattle.std.specs.Prelude.{◌≡◌};
ghost use Rattle.pmt_text.specs.Counting.{failure_count};

use pmt_report::{RunError, run_check, run_fronts, run_trim};
use pmt_text::Counted;
use pmt_text::devices::LimitedWriter;
use std::alloc::Global;
use std::process::Abort;

const TRACE: &[u8] = b"pmtrace 1\nstore 0 0x1000 01\nclwb 0 0x1000\nsfence 0\n";

fn failing_writer(alloc: Global) -> Counted<LimitedWriter>
    ensures { failure_count result ≡ 0 }
{
    Counted::new(LimitedWriter::failing_flush(alloc, 4096))
}

// The run told a fault once so many bytes of its answer were out.
fn has_failed(rt: &impl Abort, fault: Option<RunError>, out: Counted<LimitedWriter>, written: u64) {
    assert_eq!(rt; fault, Some(RunError::Write { written }));
    assert_eq!(rt; out.into_inner().kept().len() as u64, written);
}

#[test]
fn failing_flush(rt: HostRuntime) {
    let mut out = failing_writer(rt.alloc());
    let (_reader, answer) = run_check(&rt, rt.alloc(), 1, Counted::new(TRACE), &mut out);
    has_failed(&rt, answer.err(), out, 34);
    let mut out = failing_writer(rt.alloc());
    let (_reader, answer) = run_trim(&rt, rt.alloc(), 1, Counted::new(TRACE), &mut out);
    has_failed(&rt, answer.err(), out, 51);
    let mut out = failing_writer(rt.alloc());
    let (_reader, answer) = run_fronts(rt.alloc(), 3, Counted::new(TRACE), &mut out);
    has_failed(&rt, answer.err(), out, 44);
}
