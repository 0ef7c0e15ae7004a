//! Recording scripts.

use crate::stop::{Stop, gave, given, worst};
use pmt_model::{Gate, Op, Trace};
use pmt_recorder::{RecordError, record_scripts};
use std::alloc::{AllocError, Global};
use std::sync::Wait;
use std::sync::atomic::{AtomicU64, Ordering};
use std::thread::Threads;

const RECORD: &str = "record_scripts";

const SCRIPTS: usize = 3;

const TURNS: u8 = 20;

// Counts how often the recorders enter.
#[derive(Drop)]
struct Entries {
    count: AtomicU64,
}

impl Entries {
    fn new() -> Self {
        Entries {
            count: AtomicU64::new(0),
        }
    }

    fn seen(&self) -> u64 {
        self.count.load(Ordering::SeqCst)
    }
}

impl Gate for Entries {
    fn enter(&self, _worker: usize) {
        self.count.fetch_add(1, Ordering::SeqCst);
    }
}

// What script number `script` has at its turn.
fn op_of(script: usize, turn: u8) -> Option<Op> {
    Op::store(0x1000 + 64 * (script % 256) as u64, &[turn]).ok()
}

fn scripts_of(alloc: Global) -> Result<Vec<Vec<Op>>, AllocError> {
    let mut scripts = Vec::new(alloc);
    for script in 0..SCRIPTS {
        let mut ops = Vec::new(alloc);
        for turn in 0..TURNS {
            if let Some(op) = op_of(script, turn) {
                ops.push(op)?;
            }
        }
        scripts.push(ops)?;
    }
    Ok(scripts)
}

// Whether the trace has the script as the part of its thread.
fn plays(trace: &Trace, script: usize) -> bool {
    let mut turn = 0u8;
    for event in trace.events() {
        if event.thread as usize == script {
            if turn == TURNS || op_of(script, turn) != Some(event.op) {
                return false;
            }
            turn = turn.saturating_add(1);
        }
    }
    turn == TURNS
}

// Records the scripts.
fn recorded<R: Threads + Wait + Sync>(rt: &R, alloc: Global, gate: &Entries) -> Result<(), Stop> {
    let answer = record_scripts(rt, alloc, gate, scripts_of(alloc)?);
    let trace = given(RECORD, answer, RecordError::OutOfMemory)?;
    gave(RECORD, plays_all(&trace, gate.seen()))
}

// Whether the trace has all scripts, and no more, after each recorder entered before its first append and after each.
fn plays_all(trace: &Trace, entered: u64) -> bool {
    for script in 0..SCRIPTS {
        if !plays(trace, script) {
            return false;
        }
    }
    trace.len() == SCRIPTS * TURNS as usize && entered == (SCRIPTS * (TURNS as usize + 1)) as u64
}

/// Each recorder plays its script. After a refusal no recorder goes on, and the scripts can be recorded again.
pub fn record<R: Threads + Wait + Sync>(rt: &R, alloc: Global) -> Result<(), Stop> {
    let gate = Entries::new();
    let first = recorded(rt, alloc, &gate);
    if first.is_ok() {
        return first;
    }
    let entered = gate.seen();
    recorded(rt, alloc, &Entries::new())?;
    worst(first, gave(RECORD, gate.seen() == entered))
}
