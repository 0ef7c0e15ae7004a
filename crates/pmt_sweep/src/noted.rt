//! Findings in eight bytes each: a trace may have as many as it has events.
ghost use Rattle.std.specs.Prelude.{◌≡◌, ◌≤◌, [], ◌∷◌, ◌++◌, IfNone, IfOk, IfSome, OnOk};
ghost use Rattle.pmt_laws.specs.Prelude.{reported_at, NeverPersisted};
ghost use Rattle.pmt_sweep.specs.Found.{LacksRoom, finding_from, first_without_room};

use pmt_model::{Finding, OutOfMemory};
use std::alloc::{AllocError, Global};
use std::marker::Model;

// What a finding is. A greater number is that of an overwritten store, and `FIRST_STORE` more.
const REDUNDANT_FLUSH: u32 = 0;

const FENCE_WITHOUT_FLUSH: u32 = 1;

const NEVER_FLUSHED: u32 = 2;

const NEVER_FENCED: u32 = 3;

const FIRST_STORE: u32 = 4;

// Events from this number on have no room.
const FIRST_WITHOUT_ROOM: u64 = 1 << 31;

/// A finding whose events have numbers below 2^31.
#[derive(Clone, Copy)]
pub struct Noted {
    event: u32,
    told: u32,
}

impl Model for Noted {
    ghost use Rattle.pmt_model.specs.declared.finding.Finding.{Finding};

    ghost Value = { Finding };

    ghost use Rattle.pmt_sweep.specs.Found.{finding_in, inside_of, inside_back};

    ghost view = { finding_in };

    ghost inverse = { inside_of };

    ghost inverse_ok = { λ n _. inside_back n };
}

impl Noted {
    /// The finding, or none where one of its events has a number from 2^31 on.
    #[inline(always)]
    pub fn of(finding: Finding) -> Option<Noted>
        ensures value { IfSome result (λ noted. noted ≡ finding) }
        ensures none { IfNone result (LacksRoom finding) }
    {
        match finding {
            Finding::Overwritten { earlier, later } => {
                if earlier >= FIRST_WITHOUT_ROOM {
                    return None;
                }
                noted_at(later, earlier as u32 + FIRST_STORE)
            }
            Finding::NeverPersisted { event, flushed } => noted_lost(event, flushed),
            Finding::RedundantFlush { event } => noted_at(event, REDUNDANT_FLUSH),
            Finding::FenceWithoutFlush { event } => noted_at(event, FENCE_WITHOUT_FLUSH),
        }
    }

    /// The number of the event at which it is reported.
    #[inline(always)]
    pub fn event(&self) -> u64
        ensures { result ≡ reported_at self.now }
    {
        self.event as u64
    }

    /// The finding.
    #[inline(always)]
    pub fn finding(&self) -> Finding
        ensures { result ≡ self.now }
    {
        told_finding(self.event as u64, self.told)
    }
}

// What a finding of that kind and event tells.
#[inline(always)]
fn told_finding(event: u64, told: u32) -> Finding
    ensures { result ≡ finding_from event told }
{
    if told == REDUNDANT_FLUSH {
        return Finding::RedundantFlush { event };
    }
    if told == FENCE_WITHOUT_FLUSH {
        return Finding::FenceWithoutFlush { event };
    }
    if told == NEVER_FLUSHED {
        return lost(event, false);
    }
    if told == NEVER_FENCED {
        return lost(event, true);
    }
    Finding::Overwritten {
        earlier: (told - FIRST_STORE) as u64,
        later: event,
    }
}

// That the store is never persisted.
#[inline(always)]
fn lost(event: u64, flushed: bool) -> Finding
    ensures { result ≡ NeverPersisted event flushed }
{
    Finding::NeverPersisted { event, flushed }
}

// The finding of that kind and event, if the event has room.
#[inline(always)]
fn noted_at(event: u64, told: u32) -> Option<Noted>
    ensures value { IfSome result (λ noted. noted ≡ finding_from event told) }
    ensures none { IfNone result (first_without_room ≤ event) }
{
    if event >= FIRST_WITHOUT_ROOM {
        return None;
    }
    Some(Noted {
        event: event as u32,
        told,
    })
}

// That the store is never persisted, if it has room.
#[inline(always)]
fn noted_lost(event: u64, flushed: bool) -> Option<Noted>
    ensures value { IfSome result (λ noted. noted ≡ NeverPersisted event flushed) }
    ensures none { IfNone result (first_without_room ≤ event) }
{
    if flushed {
        return noted_at(event, NEVER_FENCED);
    }
    noted_at(event, NEVER_FLUSHED)
}

/// Adds the finding.
///
/// # Errors
/// Where memory was refused, or its events have no room. The list stays as it was.
#[inline(always)]
pub fn note(list: &mut Vec<Noted>, finding: Finding) -> Result<(), OutOfMemory>
    ensures { OnOk result (list.new.items ≡ list.old.items ++ finding ∷ []) }
{
    let Some(noted) = Noted::of(finding) else {
        return Err(AllocError);
    };
    list.push(noted)?;
    Ok(())
}

/// These findings, in eight bytes each.
///
/// # Errors
/// Where memory was refused, or an event has no room.
pub fn all_noted(alloc: Global, findings: &[Finding]) -> Result<Vec<Noted>, OutOfMemory>
    ensures { IfOk result (λ list. list.items ≡ findings.now) }
{
    let mut list = Vec::with_capacity(alloc, findings.len())?;
    for index in 0..findings.len() {
        note(&mut list, findings[index])?;
    }
    Ok(list)
}

/// These findings as they are told.
///
/// # Errors
/// Where memory was refused.
pub fn all_told(alloc: Global, list: &[Noted]) -> Result<Vec<Finding>, OutOfMemory>
    ensures { IfOk result (λ findings. findings.items ≡ list.now) }
{
    let mut findings = Vec::with_capacity(alloc, list.len())?;
    for index in 0..list.len() {
        findings.push(list[index].finding())?;
    }
    Ok(findings)
}
