//! Stores that are written over before they can be persisted, in groups.

ghost use Rattle.std.specs.Prelude.{◌≡◌, ◌↔◌, ◌+◌, ◌^◌, ◌<◌, ℕ, Some, length, All, IfOk, IfSome, OnOk, IsTrue, MatchOption, nat_eq};
ghost use Rattle.indexmap.specs.IndexMap.{get};
ghost use Rattle.pmt_laws.specs.Prelude.{Written, Stores, IsAct, line_of as line_at};
ghost use Rattle.pmt_explain.specs.OverwrittenGroups.{AreOverwrittenGroups, IsPair, IsPairAlone, IsRepeatedBy, AddsPair};

use crate::lost::line_of_store;
use indexmap::IndexMap;
use pmt_model::{Op, OutOfMemory, Trace, WordStore, line_of};
use std::alloc::Global;

/// Two stores by their numbers, the later of which writes over bytes of the earlier.
#[derive(Clone, Copy)]
pub struct Overwriting {
    pub earlier: u64,
    pub later: u64,
}

/// Stores to one line whose bytes are written over before they can be persisted.
#[derive(Clone, Copy)]
pub struct OverwrittenGroup {
    /// The number of the line.
    pub line: u64,
    /// The first pair that was given.
    pub first: Overwriting,
    /// How many pairs they are.
    pub count: u64,
    /// In how many of them the later store writes all bytes of the earlier one again, each as it was.
    pub same: u64,
}

/// The groups of these pairs by their line, in the order of their first pairs. A pair that is not of two stores to one line is in
/// no group.
///
/// # Errors
/// Where memory was refused.
pub fn overwritten_groups(
    alloc: Global,
    trace: &Trace,
    pairs: &[Overwriting],
) -> Result<Vec<OverwrittenGroup>, OutOfMemory>
    ensures { IfOk result (λ groups. AreOverwrittenGroups trace.now pairs.now groups.items) }
{
    let mut groups = Vec::new(alloc);
    let mut places = IndexMap::new(alloc);
    for pair in pairs {
        if let Some(group) = group_of(trace, *pair) {
            add_group(&mut groups, &mut places, group)?;
        }
    }
    Ok(groups)
}

// The group of this pair alone, if it is of two stores to one line.
fn group_of(trace: &Trace, pair: Overwriting) -> Option<OverwrittenGroup>
    ensures alone { MatchOption result (¬ IsPair trace.now pair) (IsPairAlone trace.now pair) }
    ensures once { IfSome result (λ g. g.same < 2) }
{
    let earlier = store_at(trace, pair.earlier)?;
    let later = store_at(trace, pair.later)?;
    let format = trace.format();
    let line = line_of(format, earlier.addr());
    if line_of(format, later.addr()) != line {
        return None;
    }
    Some(OverwrittenGroup {
        line,
        first: pair,
        count: 1,
        same: u64::from(repeats(later, earlier)),
    })
}

// The store with this number.
fn store_at(trace: &Trace, number: u64) -> Option<WordStore>
    ensures { MatchOption result ((l : ℕ) (w : Written) → ¬ IsAct trace.now number (Stores l w)) (λ w. IsAct trace.now number (Stores (line_at trace.now.format w.addr) w)) }
{
    let op = trace.get(number)?.op;
    match op {
        Op::Store(written) => Some(written),
        _ => None,
    }
}

// Whether the later store writes all bytes of the earlier one, each as it was.
fn repeats(later: WordStore, earlier: WordStore) -> bool
    ensures { IsTrue result ↔ IsRepeatedBy earlier later }
{
    let start = earlier.addr().get();
    let first = later.addr().get();
    let bytes = later.bytes();
    if start < first || start - first > bytes.len() as u64 {
        return false;
    }
    bytes[(start - first) as usize..].starts_with(earlier.bytes())
}

// Puts the pair of a group of one into its group, or makes it a new group.
fn add_group(
    groups: &mut Vec<OverwrittenGroup>,
    places: &mut IndexMap<u64, usize>,
    one: OverwrittenGroup,
) -> Result<(), OutOfMemory>
    requires stands { (p : ℕ) → get nat_eq places.old one.line ≡ Some p → p < length groups.old.items }
    requires room { All (λ g. (g.count + 1 < 2 ^ 64) × (g.same + one.same < 2 ^ 64)) groups.old.items }
    ensures { OnOk result (AddsPair groups.old.items places.old one groups.new.items places.new) }
{
    match places.get(&one.line) {
        Some(place) => {
            let group = &mut groups[*place];
            group.count += 1;
            group.same += one.same;
        }
        None => {
            places.insert(one.line, groups.len())?;
            groups.push(one)?;
        }
    }
    Ok(())
}
