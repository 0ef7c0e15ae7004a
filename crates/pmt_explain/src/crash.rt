//! A crash, and which stores it leaves persisted.

ghost use Rattle.std.specs.Prelude.{◌≡◌, ◌≤◌, length, IfOk};
ghost use Rattle.pmt_explain.specs.Crashes.{full_line, IsCrashAt, persisted_to};

use crate::completed::{Completed, completed_flushes, flush_of};
use pmt_model::{Op, OutOfMemory, Trace, line_of};
use pmt_reasons::{ByteStore, Failure};
use std::alloc::Global;

/// A crash right after so many events. Each line has as many stores persisted as are safe there, but the full line has all of them.
#[derive(Drop)]
pub(crate) struct Crash {
    pub(crate) place: u64,
    pub(crate) full: Option<u64>,
    pub(crate) flushes: Completed,
}

impl Crash {
    // The crash at the place, with all stores to the full line.
    pub(crate) fn new(
        alloc: Global,
        trace: &Trace,
        place: u64,
        full: Option<u64>,
    ) -> Result<Self, OutOfMemory>
        requires { place ≤ length trace.now.events }
        ensures { IfOk result (IsCrashAt trace.now place full) }
    {
        let flushes = completed_flushes(alloc, trace, place)?;
        Ok(Crash {
            place,
            full,
            flushes,
        })
    }

    // The crash of the failure.
    pub(crate) fn of(alloc: Global, trace: &Trace, failure: &Failure) -> Result<Self, OutOfMemory>
        ensures { IfOk result (IsCrashAt trace.now failure.now.place (full_line trace.now failure.now.kept)) }
    {
        let place = failure.place.min(trace.len() as u64);
        let full = full_line_of(trace, failure.kept);
        let crash = Crash::new(alloc, trace, place, full)?;
        Ok(crash)
    }

    // The persisted stores to the line are those among so many events.
    pub(crate) fn persisted_to(&self, line: u64) -> u64
        ensures { result ≡ persisted_to self.now line }
    {
        if self.full == Some(line) {
            return self.place;
        }
        flush_of(&self.flushes, line)
    }
}

// The line of the kept store, if one is kept.
pub(crate) fn full_line_of(trace: &Trace, kept: Option<ByteStore>) -> Option<u64>
    ensures { result ≡ full_line trace.now kept }
{
    let store = kept?.store;
    let op = trace.get(store)?.op;
    match op {
        Op::Store(written) => Some(line_of(trace.format(), written.addr())),
        _ => None,
    }
}
