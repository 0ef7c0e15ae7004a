//! The stores of a line, and when each of them changes its state.
use crate::ops::{is_fence, is_flush, line_of_op};
use crate::picture::Column;
use pmt_model::{Event, Format, Op, OutOfMemory, Trace};
use std::alloc::Global;

/// A flush of a line.
#[derive(Clone, Copy, PartialEq, Eq)]
pub struct Flush {
    /// Its number.
    pub number: u64,
    /// Its thread.
    pub thread: u8,
}

/// The event that makes a store safe: from it on no crash loses the store.
#[derive(Clone, Copy, PartialEq, Eq)]
pub struct Saver {
    /// Its number.
    pub number: u64,
    /// Its thread.
    pub thread: u8,
    /// Whether it is a fence, and not a clflush.
    pub is_fence: bool,
}

/// Stores that are one after another to their line and share their states, from the first one on: pending, then flushed, then safe.
#[derive(Clone, Copy)]
pub struct Bar {
    /// The number of their line.
    pub line: u64,
    /// The first store's number.
    pub store: u64,
    /// The last store's number.
    pub last: u64,
    /// How many they are.
    pub drawn: u64,
    /// The first flush of the line after the stores, up to the last event that is drawn.
    pub flush: Option<Flush>,
    /// What makes them safe, up to the last event that is drawn.
    pub safe: Option<Saver>,
    /// Which of the row's lanes it lies in, from 0.
    pub lane: usize,
    /// The store whose bar takes over the lane. This one is safe before.
    pub until: Option<u64>,
}

impl Bar {
    /// Whether the column is one of its stores.
    pub fn has(&self, format: Format, column: &Column) -> bool {
        let op = column.event.op;
        let is_within = self.store <= column.number && column.number <= self.last;
        is_within && matches!(op, Op::Store(_)) && line_of_op(format, op) == Some(self.line)
    }
}

/// A line, and its stores and flushes that are drawn.
#[derive(Drop)]
pub struct DrawnRow {
    /// The number of the line.
    pub line: u64,
    /// The bars, by rising store.
    pub bars: Vec<Bar>,
    /// The flushes.
    pub flushes: Vec<Flush>,
    /// How many lanes there are.
    pub lanes: usize,
}

/// Which events are drawn, and after which of them the crash comes.
#[derive(Clone, Copy)]
pub struct Drawn<'a> {
    /// The trace.
    pub trace: &'a Trace,
    /// Of each of its events that is a store, the place from which on no crash loses it.
    pub safe: &'a [u64],
    /// The events' numbers, rising.
    pub columns: &'a [u64],
    /// The crash's place, or the greatest number. Stores before it share no bar with stores after it.
    pub crash: u64,
}

impl Drawn<'_> {
    // The last event that is drawn.
    fn last(&self) -> u64 {
        self.columns.last().copied().unwrap_or(0)
    }

    // What makes the store safe, up to the last event that is drawn.
    fn saver_of(&self, store: u64) -> Option<Saver> {
        let index = store.saturating_sub(1) as usize;
        let number = self.safe.get(index).copied()?;
        if number > self.last() {
            return None;
        }
        let event = self.trace.get(number)?;
        Some(Saver {
            number,
            thread: event.thread,
            is_fence: is_fence(&event.op),
        })
    }
}

/// The row of the line with this number.
///
/// # Errors
/// Where memory was refused.
pub fn row_of(alloc: Global, drawn: Drawn<'_>, line: u64) -> Result<DrawnRow, OutOfMemory> {
    let all = flushes_of(alloc, drawn, line)?;
    let mut row = DrawnRow {
        line,
        bars: Vec::new(alloc),
        flushes: Vec::new(alloc),
        lanes: 0,
    };
    for column in drawn.columns {
        let number = *column;
        let Some(Event { thread, op }) = drawn.trace.get(number) else {
            continue;
        };
        if line_of_op(drawn.trace.format(), op) != Some(line) {
            continue;
        }
        if is_flush(&op) {
            row.flushes.push(Flush { number, thread })?;
        } else {
            let bar = bar_of(drawn, all.as_slice(), line, number);
            push_bar(&mut row, drawn.crash, bar)?;
        }
    }
    Ok(row)
}

// The flushes of the line up to the last event that is drawn.
fn flushes_of(alloc: Global, drawn: Drawn<'_>, line: u64) -> Result<Vec<Flush>, OutOfMemory> {
    let mut flushes = Vec::new(alloc);
    let end = drawn.last() as usize;
    for (index, event) in drawn.trace.events().iter().enumerate().take(end) {
        let op = event.op;
        if is_flush(&op) && line_of_op(drawn.trace.format(), op) == Some(line) {
            flushes.push(Flush {
                number: (index as u64).saturating_add(1),
                thread: event.thread,
            })?;
        }
    }
    Ok(flushes)
}

// The bar of the store alone, with no lane yet.
fn bar_of(drawn: Drawn<'_>, flushes: &[Flush], line: u64, store: u64) -> Bar {
    let later = flushes.partition_point(|flush| flush.number <= store);
    Bar {
        line,
        store,
        last: store,
        drawn: 1,
        flush: flushes.get(later).copied(),
        safe: drawn.saver_of(store),
        lane: 0,
        until: None,
    }
}

// Adds the bar: to the last one, where they share their states, or else in the first lane that is free.
fn push_bar(row: &mut DrawnRow, crash: u64, bar: Bar) -> Result<(), OutOfMemory> {
    if joins(row.bars.as_mut_slice(), crash, &bar) {
        return Ok(());
    }
    let lane = take_lane(row.bars.as_mut_slice(), row.lanes, bar.store);
    row.lanes = row.lanes.max(lane.saturating_add(1));
    row.bars.push(Bar { lane, ..bar })?;
    Ok(())
}

// Whether the last of these bars takes the store of the bar in: no crash comes between, and they have the same flush and are safe from the
// same event on.
fn joins(bars: &mut [Bar], crash: u64, bar: &Bar) -> bool {
    let Some(before) = bars.last_mut() else {
        return false;
    };
    let is_parted = (crash < before.last) != (crash < bar.store);
    if is_parted || before.flush != bar.flush || before.safe != bar.safe {
        return false;
    }
    before.last = bar.last;
    before.drawn = before.drawn.saturating_add(1);
    true
}

// The first lane whose bar is safe before the store comes, or else a new one. That bar ends at the store.
fn take_lane(bars: &mut [Bar], lanes: usize, store: u64) -> usize {
    for bar in bars {
        if bar.until.is_none() {
            if let Some(safe) = bar.safe {
                if safe.number < store {
                    bar.until = Some(store);
                    return bar.lane;
                }
            }
        }
    }
    lanes
}
