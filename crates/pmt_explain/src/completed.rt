//! Which flushes are complete at a place.

ghost use Rattle.std.specs.Prelude.{◌≡◌, ◌≤◌, ℕ, ◌==◌, ◌&&◌, if◌then◌else◌, length, IfOk, OnOk};
ghost use Rattle.pmt_model.specs.Traces.{act_of};
ghost use Rattle.pmt_explain.specs.Crashes.{flush_at, IsLastCompleted, completes, fenced_before};

use indexmap::IndexMap;
use pmt_model::{Format, Op, OutOfMemory, Trace, line_of};
use std::alloc::{AllocError, Global};

/// The last complete flush of each line that has one: its number by the line's.
pub(crate) type Completed = IndexMap<u64, u64>;

// The last flush of each line that is complete at the place.
pub(crate) fn completed_flushes(
    alloc: Global,
    trace: &Trace,
    place: u64,
) -> Result<Completed, OutOfMemory>
    requires { place ≤ length trace.now.events }
    ensures { IfOk result (λ flushes. (l : ℕ) → IsLastCompleted trace.now l place (flush_at flushes l)) }
{
    let format = trace.format();
    let events = trace.events();
    let mut fenced = [false; 256];
    let mut flushes = IndexMap::new(alloc);
    for index in (0..place as usize).rev() {
        let event = events[index];
        let number = index as u64 + 1;
        go_back(
            &mut flushes,
            &mut fenced,
            format,
            event.thread,
            event.op,
            number,
        )?;
    }
    Ok(flushes)
}

// Goes back over the event with this number, where `fenced` marks the threads that fence after it.
fn go_back(
    flushes: &mut Completed,
    fenced: &mut [bool; 256],
    format: Format,
    thread: u8,
    op: Op,
    number: u64,
) -> Result<(), OutOfMemory>
    ensures flushes { OnOk result ((l : ℕ) → flush_at flushes.new l ≡ (if completes l (act_of format thread op) fenced.old && (flush_at flushes.old l == 0) then number else flush_at flushes.old l)) }
    ensures fenced { OnOk result (fenced.new ≡ fenced_before (act_of format thread op) fenced.old) }
{
    match op {
        Op::Clwb(addr) | Op::ClflushOpt(addr) => {
            if fenced[thread as usize] {
                note_flush(flushes, line_of(format, addr), number)?;
            }
            Ok(())
        }
        Op::Clflush(addr) => {
            note_flush(flushes, line_of(format, addr), number)?;
            Ok(())
        }
        Op::Sfence | Op::Mfence => {
            fenced[thread as usize] = true;
            Ok(())
        }
        Op::Store(_) | Op::IsPersist(_) | Op::IsOrderedBefore(_, _) => Ok(()),
    }
}

// Notes a flush of the line, if none is noted.
fn note_flush(flushes: &mut Completed, line: u64, number: u64) -> Result<(), OutOfMemory>
    ensures { OnOk result ((l : ℕ) → flush_at flushes.new l ≡ (if (line == l) && (flush_at flushes.old l == 0) then number else flush_at flushes.old l)) }
{
    if flush_of(flushes, line) != 0 {
        return Ok(());
    }
    match flushes.insert(line, number) {
        Ok(_) => Ok(()),
        Err(_) => Err(AllocError),
    }
}

// The number of the flush of the line, or 0.
pub(crate) fn flush_of(flushes: &Completed, line: u64) -> u64
    ensures { result ≡ flush_at flushes.now line }
{
    match flushes.get(&line) {
        Some(number) => *number,
        None => 0,
    }
}
