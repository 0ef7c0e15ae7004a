//! A test of scripts with running threads.
use pmt_model::{Gate, Op, Trace};
use pmt_recorder::record_scripts;
use std::alloc::Global;
use std::process::Abort;
use std::sync::atomic::{AtomicU64, Ordering};
use std::test::Fail;
use std::thread;

// The trace has these ops of these threads, and no others.
pub(crate) fn has_events<R: Abort>(rt: &R, trace: &Trace, wanted: &[(u8, Op)]) {
    assert_eq!(rt; trace.len(), wanted.len());
    for (event, (thread, op)) in trace.events().iter().zip(wanted) {
        assert_eq!(rt; (event.thread, event.op), (*thread, *op));
    }
}

// Lets two recorders append in the order 0, 1, 1, 0.
#[derive(Drop)]
struct InOrder {
    done: AtomicU64,
    entries: [AtomicU64; 2],
}

impl Gate for InOrder {
    fn enter(&self, worker: usize) {
        if worker > 1 {
            return;
        }
        let entry = self.entries[worker].fetch_add(1, Ordering::SeqCst);
        if entry > 0 {
            self.done.fetch_add(1, Ordering::SeqCst);
        }
        let before = match (worker, entry) {
            (0, 1) => 3,
            (1, 0) => 1,
            (1, 1) => 2,
            _ => 0,
        };
        for _ in 0..100_000_000u64 {
            if self.done.load(Ordering::SeqCst) >= before {
                return;
            }
            thread::yield_now();
        }
    }
}

fn new_gate() -> InOrder {
    InOrder {
        done: AtomicU64::new(0),
        entries: [AtomicU64::new(0), AtomicU64::new(0)],
    }
}

// A script of the op and a fence.
fn script_of(alloc: Global, op: Op) -> Result<Vec<Op>, Fail> {
    Ok(vec![in alloc; op, Op::Sfence]?)
}

#[test]
fn scripts(rt: HostRuntime) -> Result<(), Fail> {
    let store = Op::store(0x1000, &[1])?;
    let flush = Op::clwb(0x1000)?;
    let mut scripts = Vec::new(rt.alloc());
    scripts.push(script_of(rt.alloc(), store)?)?;
    scripts.push(script_of(rt.alloc(), flush)?)?;
    let trace = record_scripts(&rt, rt.alloc(), &new_gate(), scripts)?;
    let wanted = [(0, store), (1, flush), (1, Op::Sfence), (0, Op::Sfence)];
    has_events(&rt, &trace, &wanted);
    Ok(())
}
