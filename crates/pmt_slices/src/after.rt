//! What comes after a store.

ghost use Rattle.std.specs.Prelude.{◌≡◌, ℕ, suc, ◌≤◌, ◌<◌, length, IfOk};
ghost use Rattle.pmt_laws.specs.Prelude.{Span, line_of as line_in, Recording, IsAct, act_of};
ghost use Rattle.pmt_slices.specs.Slices.{IsComing, IsScan};

use crate::coming::Coming;
use crate::scan::Scan;
use pmt_model::{Addr, Format, Op, OutOfMemory, Trace, line_of};
use std::alloc::Global;

// What comes after event `number`, up to the place, of the line that the address lies in.
pub(crate) fn coming_after(
    alloc: Global,
    trace: &Trace,
    addr: Addr,
    number: u64,
    place: u64,
) -> Result<Coming, OutOfMemory>
    requires order { number ≤ place }
    requires place { place ≤ length trace.now.events }
    ensures { IfOk result (IsComing trace.now (line_in trace.now.format addr) number (suc place)) }
{
    let line = line_of(trace.format(), addr);
    let mut scan = Scan::of_line(alloc, line, place + 1)?;
    go_back_to(trace, number, place, &mut scan);
    match scan.coming(line) {
        Some(coming) => Ok(coming),
        None => unreachable!(),
    }
}

// Goes back over the events after event `number`, from the place on.
fn go_back_to(trace: &Trace, number: u64, place: u64, scan: &mut Scan)
    requires order { number ≤ place }
    requires place { place ≤ length trace.now.events }
    ensures { (A : Span) → IsScan trace.now A place (suc place) scan.old → IsScan trace.now A number (suc place) scan.new }
{
    let format = trace.format();
    let events = trace.events();
    for index in (number as usize..place as usize).rev() {
        let event = events[index];
        let before = index as u64 + 1;
        go_back_over(scan, format, event.thread, event.op, before);
    }
}

// Goes back over the event with this number.
fn go_back_over(scan: &mut Scan, format: Format, thread: u8, op: Op, number: u64)
    ensures { (T : Recording) (A : Span) (m past : ℕ) → IsAct T (suc m) (act_of format thread op) → number ≡ suc m → suc m < past → IsScan T A (suc m) past scan.old → IsScan T A m past scan.new }
{
    match op {
        Op::Store(_) => {}
        Op::Clwb(addr) => scan.flush(thread, line_of(format, addr), number),
        Op::ClflushOpt(addr) => scan.flush(thread, line_of(format, addr), number),
        Op::Clflush(addr) => scan.clflush(line_of(format, addr), number),
        Op::Sfence => scan.fence(thread, number),
        Op::Mfence => scan.fence(thread, number),
        Op::IsPersist(_) => {}
        Op::IsOrderedBefore(_, _) => {}
    }
}
