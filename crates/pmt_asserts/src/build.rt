//! The stores of a line's steps, and the bytes that they write.
ghost use Rattle.std.specs.Prelude.{◌≡◌, ◌+◌, ◌^◌, ◌<◌, ◌++◌, ◌∷◌, [], ◌⊎◌, ◌↔◌, true, IfOk, OnOk, All, Contains};
ghost use Rattle.pmt_asserts.specs.declared.put.Write.{Write as Written};
ghost use Rattle.pmt_asserts.specs.Puts.{covers, puts_of, Fits, AreWritesOf};

use crate::put::{Put, Write};
use pmt_lines::{Step, StepKind};
use pmt_model::OutOfMemory;
use std::alloc::Global;

// The stores among the steps.
pub fn collect_puts(alloc: Global, steps: &[Step]) -> Result<Vec<Put>, OutOfMemory>
    ensures { IfOk result (λ puts. puts.items ≡ puts_of steps.now) }
{
    let mut puts = Vec::new(alloc);
    for step in steps {
        push_put(&mut puts, step)?;
    }
    Ok(puts)
}

// Adds the step, if it is a store.
fn push_put(puts: &mut Vec<Put>, step: &Step) -> Result<(), OutOfMemory>
    ensures { OnOk result (puts.new.items ≡ puts.old.items ++ puts_of (step.now ∷ [])) }
{
    let number = step.number;
    match &step.kind {
        StepKind::Store { addr, len } => {
            let (addr, len) = (*addr, *len);
            puts.push(Put { number, addr, len })?;
            Ok(())
        }
        StepKind::Flush | StepKind::Clflush | StepKind::Fence => Ok(()),
    }
}

// All bytes that the stores write, by byte and then by rank.
pub fn collect_writes(alloc: Global, puts: &[Put]) -> Result<Vec<Write>, OutOfMemory>
    requires { All Fits puts.now }
    ensures { IfOk result (λ writes. AreWritesOf puts.now writes.items) }
{
    let mut writes = Vec::new(alloc);
    for (index, put) in puts.iter().enumerate() {
        add_writes(&mut writes, *put, index as u64 + 1)?;
    }
    writes.sort_unstable_by_key(Write::key);
    Ok(writes)
}

// Adds the bytes that the store with this rank writes.
fn add_writes(writes: &mut Vec<Write>, put: Put, rank: u64) -> Result<(), OutOfMemory>
    requires { put.addr + put.len < 2 ^ 64 }
    ensures { OnOk result ((w : Written) → Contains writes.new.items w ↔ (Contains writes.old.items w ⊎ ((w.rank ≡ rank) × (covers put w.byte ≡ true)))) }
{
    for byte in put.addr..put.addr + put.len {
        writes.push(Write { byte, rank })?;
    }
    Ok(())
}
