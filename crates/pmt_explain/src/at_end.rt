//! Why each store of a trace is not safe at its end.

ghost use Rattle.std.specs.Prelude.{◌≡◌, ◌≤◌, ℕ, false, length, replicate, None, Some, IfOk, OnOk};
ghost use Rattle.pmt_model.specs.Traces.{act_of};
ghost use Rattle.pmt_explain.specs.CauseOf.{AreCausesAfter, cause_in, before_flush, cause_before, fence_before, cause_told};
ghost use Rattle.pmt_explain.specs.Crashes.{fenced_before};

use indexmap::IndexMap;
use pmt_model::{Format, Op, OutOfMemory, Trace, line_of};
use pmt_reasons::Cause;
use std::alloc::Global;

// Of each event after the first so many, in order, why it is not safe at the trace's end: some run of the whole trace ends without
// it. None where every run ends with it persisted, and where the event is no store. It takes one look at each event.
pub(crate) fn causes_after(
    alloc: Global,
    trace: &Trace,
    start: usize,
) -> Result<Vec<Option<Cause>>, OutOfMemory>
    requires { start ≤ length trace.now.events }
    ensures { IfOk result (λ causes. AreCausesAfter trace.now start causes.items) }
{
    let format = trace.format();
    let events = trace.events();
    let mut causes = vec![in alloc; None; events.len() - start]?;
    let mut ahead = Ahead::new(alloc);
    for index in (start..events.len()).rev() {
        let event = events[index];
        let number = index as u64 + 1;
        causes[index - start] = ahead.go_back(format, event.thread, event.op, number)?;
    }
    Ok(causes)
}

// What comes after a place.
#[derive(Drop)]
struct Ahead {
    // Which threads fence.
    fenced: [bool; 256],
    // The first fence.
    fence: Option<u64>,
    // Why a store at the place to a line that is flushed is not safe at the end; none where it is.
    lines: IndexMap<u64, Option<Cause>>,
}

impl Ahead {
    // What comes after the end.
    fn new(alloc: Global) -> Self
        ensures fenced { result.fenced ≡ replicate 256 false }
        ensures fence { result.fence ≡ None }
        ensures lines { (l : ℕ) → cause_in result.lines l ≡ Some Cause.Unflushed }
    {
        Ahead {
            fenced: [false; 256],
            fence: None,
            lines: IndexMap::new(alloc),
        }
    }

    // Why a store at the place to the line is not safe at the end.
    fn cause(&self, line: u64) -> Option<Cause>
        ensures { result ≡ cause_in self.now.lines line }
    {
        match self.lines.get(&line) {
            None => Some(Cause::Unflushed),
            Some(cause) => *cause,
        }
    }

    // Goes back over the event with this number, and tells why it is not safe at the end, if it is a store.
    fn go_back(
        &mut self,
        format: Format,
        thread: u8,
        op: Op,
        number: u64,
    ) -> Result<Option<Cause>, OutOfMemory>
        ensures fenced { OnOk result (self.new.fenced ≡ fenced_before (act_of format thread op) self.old.fenced) }
        ensures fence { OnOk result (self.new.fence ≡ fence_before (act_of format thread op) number self.old.fence) }
        ensures lines { OnOk result ((l : ℕ) → cause_in self.new.lines l ≡ cause_before (act_of format thread op) number self.old.fenced self.old.fence (cause_in self.old.lines) l) }
        ensures told { IfOk result (λ o. o ≡ cause_told (act_of format thread op) (cause_in self.old.lines)) }
    {
        match op {
            Op::Store(written) => return Ok(self.cause(line_of(format, written.addr()))),
            Op::Clwb(addr) | Op::ClflushOpt(addr) => {
                let line = line_of(format, addr);
                let cause = self.cause_of_flush(line, thread, number);
                self.lines.insert(line, cause)?;
            }
            Op::Clflush(addr) => {
                self.lines.insert(line_of(format, addr), None)?;
            }
            Op::Sfence | Op::Mfence => {
                self.fenced[thread as usize] = true;
                self.fence = Some(number);
            }
            Op::IsPersist(_) | Op::IsOrderedBefore(_, _) => {}
        }
        Ok(None)
    }

    // Why a store right before this flush of its line is not safe at the end.
    fn cause_of_flush(&self, line: u64, thread: u8, number: u64) -> Option<Cause>
        ensures { result ≡ before_flush number thread self.now.fenced self.now.fence (cause_in self.now.lines line) }
    {
        match self.cause(line) {
            None => None,
            Some(_) => {
                if self.fenced[thread as usize] {
                    return None;
                }
                Some(Cause::Unfenced {
                    flush: number,
                    thread,
                    other: self.fence,
                })
            }
        }
    }
}
