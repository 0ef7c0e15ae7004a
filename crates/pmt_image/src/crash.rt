//! How many stores of each line a crash leaves persisted.
ghost use Rattle.std.specs.Prelude.{◌≡◌, ◌≤◌, ◌==◌, ℕ, length, map, if◌then◌else◌, nat_le, nat_lt, IfOk, IfErr, OnOk};
ghost use Rattle.pmt_explain.specs.Prelude.{VectorsAt, count_at, history, lines_of, front_at, AllByRecursion, persisted_at};
ghost use Rattle.pmt_explain.specs.Crashes.{full_line, line_count};
ghost use Rattle.pmt_image.specs.declared.crash.CountFault.TheVariants.{OutOfMemory};
ghost use Rattle.pmt_image.specs.Crashes.{count_in, with_counts, persisted_entry, stored_entry, IsBetween, IsOutside, asked_count, IsCountFault, persisted_by};

use indexmap::IndexMap;
use pmt_explain::{LineCount, crash_lines};
use pmt_model::{OutOfMemory, Trace};
use pmt_reasons::{ByteStore, Failure};
use std::alloc::{AllocError, Global};

/// A number of stores to a line: its first ones.
#[derive(Clone, Copy)]
pub struct LineStores {
    /// The line, that is its first address divided by the line size.
    pub line: u64,
    /// How many stores.
    pub stores: u64,
}

/// Numbers of stores, by line; none of a line that is not in it.
pub type StoresByLine = IndexMap<u64, u64>;

/// A crash: it comes right after the first `place` events, and leaves so many stores of each line persisted, its first ones.
#[derive(Drop)]
pub struct Crash {
    /// How many events come before it.
    pub place: u64,
    /// How many stores of each line are persisted.
    pub persisted: StoresByLine,
}

/// Why there is no such crash.
#[derive(Clone, Copy)]
pub enum CountFault {
    /// The place lies past the last event.
    PastEnd {
        /// How many events there are.
        events: u64,
    },
    /// No crash at the place leaves so many stores of the line persisted.
    Outside {
        /// What was asked.
        asked: LineStores,
        /// The least number of its stores that a crash leaves persisted there: those that are safe.
        least: u64,
        /// The greatest: all its stores so far.
        greatest: u64,
    },
    /// A growth was refused.
    OutOfMemory,
}

impl From<AllocError> for CountFault {
    ghost from_gives = { λ _ error. error ≡ OutOfMemory };

    fn from(_refused: AllocError) -> Self {
        CountFault::OutOfMemory
    }
}

/// The crash after the first `place` events at which each line has the stores that no crash can lose, or with `all` all its stores so
/// far, but each line that is asked for has as many as are asked; where one is asked twice, as many as are asked last. A crash may
/// leave exactly these counts.
///
/// # Errors
/// `PastEnd` where the place lies past the events; `Outside` of a number asked that no crash there leaves of its line; `OutOfMemory`.
pub fn crash_at(
    alloc: Global,
    trace: &Trace,
    place: u64,
    all: bool,
    asked: &[LineStores],
) -> Result<Crash, CountFault>
    ensures place { IfOk result (λ crash. crash.place ≡ place) }
    ensures within { IfOk result (λ crash. place ≤ length trace.now.events) }
    ensures counts { IfOk result (λ crash. (l : ℕ) → persisted_by crash l ≡ asked_count trace.now place all asked.now l) }
    ensures may { IfOk result (λ crash. VectorsAt trace.now place (persisted_by crash)) }
    ensures fault { IfErr result (IsCountFault trace.now place asked.now) }
{
    let events = trace.len() as u64;
    if place > events {
        return Err(CountFault::PastEnd { events });
    }
    let Bounds { least, greatest } = bounds_at(alloc, trace, place)?;
    check_bounds(asked, &least, &greatest)?;
    let mut persisted = if all { greatest } else { least };
    set_counts(&mut persisted, asked)?;
    Ok(Crash { place, persisted })
}

/// The crash of the failure, which violates its assertion. A crash at the failure's place may leave these counts, whatever the failure.
///
/// # Errors
/// Where memory was refused.
pub fn crash_of_failure(
    alloc: Global,
    trace: &Trace,
    failure: &Failure,
) -> Result<Crash, OutOfMemory>
    ensures place { IfOk result (λ crash. crash.place ≡ failure.now.place) }
    ensures counts { IfOk result (λ crash. (l : ℕ) → persisted_by crash l ≡ persisted_at trace.now failure.now.place (full_line trace.now failure.now.kept) l) }
    ensures may { IfOk result (λ crash. VectorsAt trace.now failure.now.place (persisted_by crash)) }
{
    let lines = crash_lines(alloc, trace, failure)?;
    let persisted = persisted_table(alloc, lines.as_slice())?;
    Ok(Crash {
        place: failure.place,
        persisted,
    })
}

// Of each line the least and the greatest number of stores that a crash leaves persisted.
#[derive(Drop)]
struct Bounds {
    least: StoresByLine,
    greatest: StoresByLine,
}

// The bounds at the place.
fn bounds_at(alloc: Global, trace: &Trace, place: u64) -> Result<Bounds, OutOfMemory>
    ensures least { IfOk result (λ bounds. (l : ℕ) → count_in bounds.least l ≡ front_at trace.now l place) }
    ensures greatest { IfOk result (λ bounds. (l : ℕ) → count_in bounds.greatest l ≡ count_at trace.now l place) }
{
    let lines = least_lines(alloc, trace, place)?;
    let least = persisted_table(alloc, lines.as_slice())?;
    let greatest = stored_table(alloc, lines.as_slice())?;
    Ok(Bounds { least, greatest })
}

// The lines after a crash that leaves persisted what no crash can lose: it keeps no store, and which one it loses plays no part.
pub(crate) fn least_lines(
    alloc: Global,
    trace: &Trace,
    place: u64,
) -> Result<Vec<LineCount>, OutOfMemory>
    ensures { IfOk result (λ lines. lines.items ≡ map (line_count trace.now place None) (lines_of (history trace.now place))) }
{
    let failure = Failure {
        place,
        kept: None,
        lost: ByteStore { store: 0, byte: 0 },
    };
    let lines = crash_lines(alloc, trace, &failure)?;
    Ok(lines)
}

// The persisted stores, by line.
fn persisted_table(alloc: Global, lines: &[LineCount]) -> Result<StoresByLine, OutOfMemory>
    ensures { IfOk result (λ table. (l : ℕ) → count_in table l ≡ with_counts (map persisted_entry lines.now) (λ _. 0) l) }
{
    let list = persisted_stores(alloc, lines)?;
    let table = table_of(alloc, list.as_slice())?;
    Ok(table)
}

// All stores, by line.
fn stored_table(alloc: Global, lines: &[LineCount]) -> Result<StoresByLine, OutOfMemory>
    ensures { IfOk result (λ table. (l : ℕ) → count_in table l ≡ with_counts (map stored_entry lines.now) (λ _. 0) l) }
{
    let list = all_stores(alloc, lines)?;
    let table = table_of(alloc, list.as_slice())?;
    Ok(table)
}

// The stores that are persisted.
fn persisted_stores(alloc: Global, lines: &[LineCount]) -> Result<Vec<LineStores>, OutOfMemory>
    ensures { IfOk result (λ list. list.items ≡ map persisted_entry lines.now) }
{
    lines
        .iter()
        .map(|count| LineStores {
            line: count.line,
            stores: count.persisted,
        })
        .collect(alloc)
}

// All stores.
fn all_stores(alloc: Global, lines: &[LineCount]) -> Result<Vec<LineStores>, OutOfMemory>
    ensures { IfOk result (λ list. list.items ≡ map stored_entry lines.now) }
{
    lines
        .iter()
        .map(|count| LineStores {
            line: count.line,
            stores: count.stores,
        })
        .collect(alloc)
}

// These numbers, by line.
fn table_of(alloc: Global, lines: &[LineStores]) -> Result<StoresByLine, OutOfMemory>
    ensures { IfOk result (λ table. (l : ℕ) → count_in table l ≡ with_counts lines.now (λ _. 0) l) }
{
    let mut table = IndexMap::new(alloc);
    set_counts(&mut table, lines)?;
    Ok(table)
}

// Sets these numbers, one after another.
fn set_counts(table: &mut StoresByLine, lines: &[LineStores]) -> Result<(), OutOfMemory>
    ensures { OnOk result ((l : ℕ) → count_in table.new l ≡ with_counts lines.now (count_in table.old) l) }
{
    for index in 0..lines.len() {
        let line = lines[index];
        set_count(table, line.line, line.stores)?;
    }
    Ok(())
}

// Sets the number of a line.
pub(crate) fn set_count(table: &mut StoresByLine, line: u64, stores: u64) -> Result<(), OutOfMemory>
    ensures { OnOk result ((l : ℕ) → count_in table.new l ≡ (if line == l then stores else count_in table.old l)) }
{
    match table.insert(line, stores) {
        Ok(_) => Ok(()),
        Err(_) => Err(AllocError),
    }
}

// The number of the line.
pub(crate) fn count_of(table: &StoresByLine, line: u64) -> u64
    ensures { result ≡ count_in table.now line }
{
    match table.get(&line) {
        Some(count) => *count,
        None => 0,
    }
}

// Refuses a number that lies outside of the bounds of its line.
fn check_bounds(
    asked: &[LineStores],
    least: &StoresByLine,
    greatest: &StoresByLine,
) -> Result<(), CountFault>
    ensures all { OnOk result (AllByRecursion (IsBetween (count_in least.now) (count_in greatest.now)) asked.now) }
    ensures fault { IfErr result (IsOutside (count_in least.now) (count_in greatest.now) asked.now) }
{
    for index in 0..asked.len() {
        let line = asked[index];
        let few = count_of(least, line.line);
        let many = count_of(greatest, line.line);
        if line.stores < few {
            return Err(outside(line, few, many));
        }
        if many < line.stores {
            return Err(outside(line, few, many));
        }
    }
    Ok(())
}

// The fault of a number outside of its bounds.
fn outside(asked: LineStores, least: u64, greatest: u64) -> CountFault
    ensures { result ≡ CountFault.Outside asked least greatest }
{
    CountFault::Outside {
        asked,
        least,
        greatest,
    }
}
