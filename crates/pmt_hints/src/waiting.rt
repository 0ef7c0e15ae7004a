//! Which threads have made a clwb or clflushopt since their last fence: something of theirs is open.

ghost use Rattle.std.specs.Prelude.{◌≡◌, ◌==◌, ◌<◌, ℕ, false};
ghost use Rattle.pmt_model.specs.Traces.{act_of};
ghost use Rattle.pmt_hints.specs.Contrasts.{StoresWhenClear, open_by, stores_open};
ghost use Rattle.pmt_hints.specs.Numbers.{of_thread};

use crate::per_thread::PerThread;
use pmt_model::{Format, Op, Trace};

// Whether a thread stores while something of its own is open. If not, no flush can be open at a store, nor be made too early.
pub(crate) fn has_store_while_open(trace: &Trace) -> bool
    ensures { result ≡ false → StoresWhenClear trace.now }
{
    let format = trace.format();
    let events = trace.events();
    let mut waiting = PerThread::new(0);
    for index in 0..events.len() {
        let event = events[index];
        if is_store_while_open(&waiting, format, event.thread, event.op) {
            return true;
        }
        note_open(&mut waiting, format, event.thread, event.op);
    }
    false
}

// Whether the op is a store, and something of the thread is open.
#[inline(always)]
fn is_store_while_open(waiting: &PerThread, format: Format, thread: u8, op: Op) -> bool
    ensures value { result ≡ stores_open waiting.now thread (act_of format thread op) }
    ensures small { thread < 256 }
{
    match op {
        Op::Store(_) => !is_clear(waiting, thread),
        Op::Clwb(_)
        | Op::ClflushOpt(_)
        | Op::Clflush(_)
        | Op::Sfence
        | Op::Mfence
        | Op::IsPersist(_)
        | Op::IsOrderedBefore(_, _) => false,
    }
}

// Whether the thread has nothing open.
pub(crate) fn is_clear(waiting: &PerThread, thread: u8) -> bool
    ensures value { result ≡ (of_thread waiting.now thread == 0) }
    ensures small { thread < 256 }
{
    waiting.get(thread) == 0
}

// The thread gets 1 for a flush that waits for a fence, and 0 for a fence.
#[inline(always)]
pub(crate) fn note_open(waiting: &mut PerThread, format: Format, thread: u8, op: Op)
    ensures { (t : ℕ) → t < 256 → of_thread waiting.new t ≡ open_by (act_of format thread op) t (of_thread waiting.old t) }
{
    match op {
        Op::Clwb(_) | Op::ClflushOpt(_) => waiting.set(thread, 1),
        Op::Sfence | Op::Mfence => waiting.set(thread, 0),
        Op::Store(_) | Op::Clflush(_) | Op::IsPersist(_) | Op::IsOrderedBefore(_, _) => {}
    }
}
