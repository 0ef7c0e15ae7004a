//! The crashes at a place that are near what no crash can lose, or near all that was stored.
ghost use Rattle.std.specs.Prelude.{◌≡◌, ◌+◌, ◌-◌, ◌<◌, ◌++◌, ◌∷◌, ℕ, true, false, [], nat_lt, length, map, IfOk, OnOk};
ghost use Rattle.std.specs.List.{filter, flat_map};
ghost use Rattle.pmt_image.specs.Crashes.{with_counts, chosen, grown, fronts_off, low_of, settings};

use crate::crash::LineStores;
use pmt_explain::LineCount;
use pmt_model::OutOfMemory;
use std::alloc::Global;

/// Crashes at a place, each told by a few lines and how many of their stores are persisted, as `crash_at` takes them.
#[derive(Drop)]
pub struct NearCrashes {
    /// Each other line has the stores that no crash can lose.
    pub off_fronts: Vec<Vec<LineStores>>,
    /// Each other line has all its stores so far.
    pub off_counts: Vec<Vec<LineStores>>,
}

// The ways to give at most so many of the open lines other numbers than their fronts, or than their counts, each once.
pub(crate) fn near_choices(
    alloc: Global,
    lines: &[LineCount],
    most: u64,
) -> Result<NearCrashes, OutOfMemory>
    ensures fronts { IfOk result (λ crashes. map (λ x. x.items) crashes.off_fronts.items ≡ chosen false most lines.now ([] ∷ [])) }
    ensures counts { IfOk result (λ crashes. map (λ x. x.items) crashes.off_counts.items ≡ filter (λ x. nat_lt most (fronts_off lines.now x)) (chosen true most lines.now ([] ∷ []))) }
{
    let off_fronts = choices(alloc, lines, false, most)?;
    let mut off_counts = choices(alloc, lines, true, most)?;
    keep_farther(&mut off_counts, lines, most);
    Ok(NearCrashes {
        off_fronts,
        off_counts,
    })
}

// The ways to give at most so many of the lines another number than its front, or with `all` than its count.
fn choices(
    alloc: Global,
    lines: &[LineCount],
    all: bool,
    most: u64,
) -> Result<Vec<Vec<LineStores>>, OutOfMemory>
    ensures { IfOk result (λ choices. map (λ x. x.items) choices.items ≡ chosen all most lines.now ([] ∷ [])) }
{
    let mut choices = Vec::new(alloc);
    choices.push(Vec::new(alloc))?;
    for index in 0..lines.len() {
        add_line(alloc, &mut choices, lines[index], all, most)?;
    }
    Ok(choices)
}

// Adds each choice with the line beside it, where it has room.
fn add_line(
    alloc: Global,
    choices: &mut Vec<Vec<LineStores>>,
    line: LineCount,
    all: bool,
    most: u64,
) -> Result<(), OutOfMemory>
    ensures { OnOk result (map (λ x. x.items) choices.new.items ≡ grown all most line (map (λ x. x.items) choices.old.items)) }
{
    let mut more = longer_choices(alloc, choices.as_slice(), line, all, most)?;
    choices.append(&mut more)?;
    Ok(())
}

// Each of the choices with the line beside it, where it has room.
fn longer_choices(
    alloc: Global,
    choices: &[Vec<LineStores>],
    line: LineCount,
    all: bool,
    most: u64,
) -> Result<Vec<Vec<LineStores>>, OutOfMemory>
    ensures { IfOk result (λ more. map (λ x. x.items) more.items ≡ flat_map (settings most line.line (low_of all line) (line.stores - line.persisted)) (map (λ x. x.items) choices.now)) }
{
    let mut more = Vec::new(alloc);
    for choice in choices {
        add_settings(alloc, &mut more, choice.as_slice(), line, all, most)?;
    }
    Ok(more)
}

// Adds the choice with each other number of the line beside it, if it has room.
fn add_settings(
    alloc: Global,
    more: &mut Vec<Vec<LineStores>>,
    choice: &[LineStores],
    line: LineCount,
    all: bool,
    most: u64,
) -> Result<(), OutOfMemory>
    ensures { OnOk result (map (λ x. x.items) more.new.items ≡ map (λ x. x.items) more.old.items ++ settings most line.line (low_of all line) (line.stores - line.persisted) choice.now) }
{
    if choice.len() as u64 >= most {
        return Ok(());
    }
    for step in 0..line.stores.saturating_sub(line.persisted) {
        let stores = number_at(line, all, step);
        let setting = LineStores {
            line: line.line,
            stores,
        };
        let longer = with_setting(alloc, choice, setting)?;
        more.push(longer)?;
    }
    Ok(())
}

// The number of the line so many steps after the first other one.
fn number_at(line: LineCount, all: bool, step: u64) -> u64
    requires { step < line.stores - line.persisted }
    ensures { result ≡ low_of all line + step }
{
    if all {
        line.persisted + step
    } else {
        line.persisted + 1 + step
    }
}

// The choice, with one more line.
fn with_setting(
    alloc: Global,
    choice: &[LineStores],
    setting: LineStores,
) -> Result<Vec<LineStores>, OutOfMemory>
    ensures { IfOk result (λ longer. longer.items ≡ choice.now ++ setting ∷ []) }
{
    let mut longer = Vec::with_capacity(alloc, choice.len() + 1)?;
    longer.extend_from_slice(choice)?;
    longer.push(setting)?;
    Ok(longer)
}

// Keeps the choices off the counts that have more than so many lines off their fronts: the others are choices off the fronts too.
fn keep_farther(choices: &mut Vec<Vec<LineStores>>, lines: &[LineCount], most: u64)
    ensures { choices.new.items ≡ filter (λ x. nat_lt most (fronts_off lines.now x.items)) choices.old.items }
{
    choices.retain(|choice| is_farther(lines, choice.as_slice(), most));
}

// Whether more than so many of the lines are off their fronts.
fn is_farther(lines: &[LineCount], choice: &[LineStores], most: u64) -> bool
    ensures { result ≡ nat_lt most (fronts_off lines.now choice.now) }
{
    let mut off = 0;
    for index in 0..lines.len() {
        let line = lines[index];
        let stores = stores_of(choice, line.line, line.stores);
        if stores != line.persisted {
            if off == most {
                return true;
            }
            off += 1;
        }
    }
    false
}

// How many stores of the line are persisted: as many as the choice says, else all.
fn stores_of(choice: &[LineStores], line: u64, all: u64) -> u64
    ensures { result ≡ with_counts choice.now (λ _. all) line }
{
    let mut stores = all;
    for index in 0..choice.len() {
        let chosen = choice[index];
        if chosen.line == line {
            stores = chosen.stores;
        }
    }
    stores
}
