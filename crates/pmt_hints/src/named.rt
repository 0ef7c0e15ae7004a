//! Stores that assertions name: of a range of one that passes the last store to each byte.

ghost use Rattle.std.specs.Prelude.{◌≡◌, ◌≤◌, ℕ, length, false, replicate, IfOk, OnOk};
ghost use Rattle.pmt_model.specs.Analyses.{IsVerdicts};
ghost use Rattle.pmt_hints.specs.Hints.{AreClaimedStores, IsNamed, AreFlags};
ghost use Rattle.pmt_hints.specs.NamedBytes.{Adds, AreNamedBytes};
ghost use Rattle.pmt_hints.specs.Claiming.{AreNaming, GoesBack, IsNamedIn, IsNamingBy, Marks, op_range as range_in, verdict_range};

use crate::named_bytes::NamedBytes;
use pmt_model::{Op, OutOfMemory, Range, Trace, Verdict};
use std::alloc::Global;

/// Which range of an assertion that passes.
#[derive(Clone, Copy)]
pub(crate) enum Role {
    /// The one that is saved: that of an isPersist, or the first one of an isOrderedBefore.
    Claimed,
    /// The first one of an isOrderedBefore.
    First,
    /// The second one.
    Second,
}

/// Of each event, in order, whether it is a store that is claimed: an isPersist, or the first range of an isOrderedBefore, that passes names
/// one of its bytes while it is the last store to that byte. `verdicts` are those of the trace.
///
/// It takes one look at each event before the last assertion that passes, one look-up at each store among them, and one at each 64 bytes
/// that such an assertion names.
///
/// # Errors
/// Where memory was refused.
pub fn claimed_stores(
    alloc: Global,
    trace: &Trace,
    verdicts: &[Verdict],
) -> Result<Vec<bool>, OutOfMemory>
    requires { IsVerdicts trace.now verdicts.now }
    ensures { IfOk result (λ flags. AreClaimedStores trace.now flags.items) }
{
    named_stores(alloc, trace, verdicts, Role::Claimed)
}

// Of each event whether it is the last store to a byte of a range of this role, as of its assertion.
pub(crate) fn named_stores(
    alloc: Global,
    trace: &Trace,
    verdicts: &[Verdict],
    role: Role,
) -> Result<Vec<bool>, OutOfMemory>
    requires { IsVerdicts trace.now verdicts.now }
    ensures { IfOk result (λ flags. AreFlags (IsNamed trace.now role) (length trace.now.events) flags.items) }
{
    let mut naming = vec![in alloc; false; trace.len()]?;
    let end = mark_naming(naming.as_mut_slice(), trace, role, verdicts);
    stores_before(alloc, trace, role, naming.as_slice(), end)
}

// The same, by one pass back from the last assertion that passes and has such a range. Its number is `end`, or that is 0 where there is none,
// and `naming` tells of each event whether it is one.
fn stores_before(
    alloc: Global,
    trace: &Trace,
    role: Role,
    naming: &[bool],
    end: usize,
) -> Result<Vec<bool>, OutOfMemory>
    requires { AreNaming trace.now role naming.now end }
    ensures { IfOk result (λ flags. AreFlags (IsNamed trace.now role) (length trace.now.events) flags.items) }
{
    let events = trace.events();
    let mut flags = vec![in alloc; false; events.len()]?;
    let mut bytes = NamedBytes::new(alloc);
    for index in (0..end).rev() {
        let event = events[index];
        let is_naming = naming[index];
        let is_named = go_back(&mut bytes, role, is_naming, event.op)?;
        flags[index] = is_named;
    }
    Ok(flags)
}

// Goes back over an op, of an assertion that passes and has such a range or not: whether it is a store to one of the bytes. Those that it
// stores leave them, and those that it names join them.
fn go_back(bytes: &mut NamedBytes, role: Role, is_naming: bool, op: Op) -> Result<bool, OutOfMemory>
    requires { AreNamedBytes bytes.old }
    ensures { IfOk result (λ is_named. GoesBack role is_naming op bytes.old is_named bytes.new) }
{
    match op {
        Op::Store(store) => Ok(bytes.take(store)),
        Op::IsPersist(_) | Op::IsOrderedBefore(_, _) => {
            add_named(bytes, role, is_naming, op)?;
            Ok(false)
        }
        Op::Clwb(_) | Op::ClflushOpt(_) | Op::Clflush(_) | Op::Sfence | Op::Mfence => Ok(false),
    }
}

// Adds the bytes that the op names, if it is of an assertion that passes and has such a range.
fn add_named(bytes: &mut NamedBytes, role: Role, is_naming: bool, op: Op) -> Result<(), OutOfMemory>
    requires { AreNamedBytes bytes.old }
    ensures { OnOk result (Adds (IsNamedIn role is_naming op) bytes.old bytes.new) }
{
    if !is_naming {
        return Ok(());
    }
    let Some(range) = op_range(role, op) else {
        return Ok(());
    };
    bytes.add(range)?;
    Ok(())
}

// Marks each event that is an assertion that passes and has such a range: the number of the last one, or 0 where there is none.
fn mark_naming(naming: &mut [bool], trace: &Trace, role: Role, verdicts: &[Verdict]) -> usize
    requires verdicts { IsVerdicts trace.now verdicts.now }
    requires none { naming.old ≡ replicate (length trace.now.events) false }
    ensures { AreNaming trace.now role naming.new result }
{
    let mut end = 0;
    for verdict in verdicts {
        end = mark_verdict(naming, trace, role, verdict, end);
    }
    end
}

// Marks the assertion of the verdict, if it passes and has such a range: the higher one of its number and `end`, which else stays.
fn mark_verdict(
    naming: &mut [bool],
    trace: &Trace,
    role: Role,
    verdict: &Verdict,
    end: usize,
) -> usize
    requires { length naming.old ≡ length trace.now.events }
    ensures marked { Marks (IsNamingBy trace.now role verdict.now) naming.old naming.new }
    ensures last { (i : ℕ) → IsNamingBy trace.now role verdict.now i → i ≤ result }
    ensures higher { end ≤ result }
    ensures within { end ≤ length trace.now.events → result ≤ length trace.now.events }
{
    match range_of(trace, role, verdict) {
        None => end,
        Some(_) => {
            let number = verdict.event as usize;
            naming[number - 1] = true;
            number.max(end)
        }
    }
}

// The range of this role of the assertion of the verdict, if it passes.
fn range_of(trace: &Trace, role: Role, verdict: &Verdict) -> Option<Range>
    ensures { result ≡ verdict_range trace.now role verdict.now }
{
    if !verdict.pass {
        return None;
    }
    let Some(event) = trace.get(verdict.event) else {
        return None;
    };
    op_range(role, event.op)
}

// The range of this role, if the op is an assertion that has one.
fn op_range(role: Role, op: Op) -> Option<Range>
    ensures { result ≡ range_in role op }
{
    match op {
        Op::IsPersist(range) => match role {
            Role::Claimed => Some(range),
            Role::First | Role::Second => None,
        },
        Op::IsOrderedBefore(first, second) => match role {
            Role::Claimed | Role::First => Some(first),
            Role::Second => Some(second),
        },
        Op::Store(_) | Op::Clwb(_) | Op::ClflushOpt(_) | Op::Clflush(_) | Op::Sfence | Op::Mfence =>
            None,
    }
}
