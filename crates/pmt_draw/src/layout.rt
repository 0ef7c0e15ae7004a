//! Where things stand on the page, in pixels. All sums stop at the greatest number.
use pmt_model::OutOfMemory;
use pmt_picture::{DrawnRow, Picture};
use std::alloc::Global;

/// The room left of the columns, where the rows are named.
pub const LEFT: u64 = 136;

/// The room at the edges of the page.
pub const EDGE: u64 = 16;

/// The height of a line of text.
pub const LINE: u64 = 18;

/// The height of a thread's row.
pub const THREAD: u64 = 24;

/// The height of a bar.
pub const BAR: u64 = 14;

// The room of a lane.
const LANE: u64 = 22;

// The height of the strip over the lanes of a row, where flushes stand.
const STRIP: u64 = 24;

// The least height of a line's row: its name, and what is asserted of its bytes.
const ROW: u64 = 46;

// The room of a crash's line and of the word beside it. No event stands there.
const TAG: u64 = 48;

// The room between two columns whose events don't follow one another; and where that is too much.
const GAP: u64 = 22;

const THIN: u64 = 10;

// The room of all columns, beside the name of a crash.
const CONTENT: u64 = 984;

// The room of a crash's name, right of its line.
const NAME: u64 = 260;

// The least width of a column; that where a thread has three digits; and the most.
const NARROW: u64 = 24;

const THREE_DIGITS: u64 = 34;

const WIDE: u64 = 116;

// The least width of a page.
const PAGE: u64 = 960;

// From which width on a column's words stand side by side.
const FLAT: u64 = 104;

/// Where an event that is drawn stands.
#[derive(Clone, Copy)]
pub struct Slot {
    /// The event's number.
    pub number: u64,
    /// The left side of its column.
    pub left: u64,
    /// Where events are left out before it, the middle of the room for them.
    pub gap: Option<u64>,
}

/// The places of all that is drawn.
#[derive(Drop)]
pub struct Layout {
    /// The columns, from left to right.
    pub slots: Vec<Slot>,
    /// Where the line of the crash stands, if there is one.
    pub crash: Option<u64>,
    /// The middles of the rooms of the missing events, from left to right.
    pub missing: Vec<u64>,
    /// Where events are left out after all that are drawn, the middle of the room for them.
    pub gap: Option<u64>,
    /// The threads of the events, rising: each has a row.
    pub threads: Vec<u8>,
    /// The width of each column.
    pub column: u64,
    // The room for events that are left out.
    between: u64,
    /// Where the columns end.
    pub right: u64,
}

impl Layout {
    /// The places for the picture.
    pub fn new(alloc: Global, picture: &Picture) -> Result<Self, OutOfMemory> {
        let (column, between) = widths(picture);
        let threads = threads_of(alloc, picture)?;
        let mut layout = Layout {
            slots: Vec::new(alloc),
            crash: None,
            missing: Vec::new(alloc),
            gap: None,
            threads,
            column,
            between,
            right: LEFT,
        };
        let mut before: u64 = 0;
        for event in &picture.columns {
            let number = event.number;
            let gap = layout.push_between(picture, before, number)?;
            let left = layout.right;
            layout.slots.push(Slot { number, left, gap })?;
            layout.right = left.saturating_add(column);
            before = number;
        }
        let end = picture.events.saturating_add(1);
        layout.gap = layout.push_between(picture, before, end)?;
        layout.right = layout.right.max(LEFT.saturating_add(column));
        Ok(layout)
    }

    // Adds what stands between two events that are drawn one after the other: what is missing, the crash, and dots where events are left
    // out, the middle of which is answered.
    fn push_between(
        &mut self,
        picture: &Picture,
        before: u64,
        number: u64,
    ) -> Result<Option<u64>, OutOfMemory> {
        for missing in picture.missing.iter().skip(self.missing.len()) {
            if missing.after >= number {
                break;
            }
            self.missing
                .push(self.right.saturating_add(self.column / 2))?;
            self.right = self.right.saturating_add(self.column);
        }
        self.push_crash(picture, before);
        let mut gap = None;
        if before.saturating_add(1) < number {
            gap = Some(self.right.saturating_add(self.between / 2));
            self.right = self.right.saturating_add(self.between);
        }
        self.push_crash(picture, number.saturating_sub(1));
        Ok(gap)
    }

    // Adds the crash, if it comes right after event `last` or before and does not stand yet.
    fn push_crash(&mut self, picture: &Picture, last: u64) {
        if let Some(crash) = picture.crash.as_ref() {
            if self.crash.is_none() && crash.failure.place <= last {
                self.crash = Some(self.right);
                self.right = self.right.saturating_add(TAG);
            }
        }
    }

    /// The page's width, with the name of the crash.
    pub fn width(&self) -> u64 {
        let named = match self.crash {
            Some(x) => x.saturating_add(NAME),
            None => 0,
        };
        self.right.max(named).saturating_add(EDGE).max(PAGE)
    }

    /// Whether the words over the columns stand side by side, and not upright.
    pub fn is_flat(&self) -> bool {
        FLAT <= self.column
    }

    /// The middle of the event's column; where it is left out, the middle of the room for what is left out.
    pub fn middle(&self, number: u64) -> u64 {
        for slot in &self.slots {
            if slot.number == number {
                return slot.left.saturating_add(self.column / 2);
            }
            if number < slot.number {
                return slot.gap.unwrap_or(slot.left);
            }
        }
        self.right
    }

    /// The middle of the row of the thread, if the rows begin there.
    pub fn thread_middle(&self, thread: u8, top: u64) -> u64 {
        let index = match self.threads.binary_search(&thread) {
            Ok(index) => index,
            Err(_) => self.threads.len(),
        };
        top.saturating_add(THREAD.saturating_mul(index as u64))
            .saturating_add(THREAD / 2)
    }

    /// The height of the rows of all threads.
    pub fn threads_height(&self) -> u64 {
        THREAD.saturating_mul(self.threads.len() as u64)
    }
}

// The threads of the events, and of those that are missing, rising.
fn threads_of(alloc: Global, picture: &Picture) -> Result<Vec<u8>, OutOfMemory> {
    let mut threads = Vec::new(alloc);
    for column in &picture.columns {
        threads.push(column.event.thread)?;
    }
    for missing in &picture.missing {
        threads.push(missing.thread)?;
    }
    threads.sort_unstable();
    threads.dedup();
    Ok(threads)
}

// The width of each column, that of a missing event too, and the room for events that are left out: a column is as wide as there is room,
// but so that the names of two threads do not touch. Events may be left out before, between and after those that are drawn.
fn widths(picture: &Picture) -> (u64, u64) {
    let columns = (picture.columns.len() as u64).saturating_add(picture.missing.len() as u64);
    let mut narrow = NARROW;
    let mut gaps: u64 = 0;
    let mut before: u64 = 0;
    for column in &picture.columns {
        if column.event.thread >= 100 {
            narrow = THREE_DIGITS;
        }
        if column.number > before.saturating_add(1) {
            gaps = gaps.saturating_add(1);
        }
        before = column.number;
    }
    if columns == 0 {
        return (narrow, GAP);
    }
    if before < picture.events {
        gaps = gaps.saturating_add(1);
    }
    let content = match picture.crash.as_ref() {
        Some(_) => CONTENT - TAG,
        None => CONTENT + NAME,
    };
    let wide = content.saturating_sub(GAP.saturating_mul(gaps)) / columns;
    if narrow <= wide {
        return (wide.min(WIDE), GAP);
    }
    let thin = content.saturating_sub(THIN.saturating_mul(gaps)) / columns;
    (thin.max(narrow), THIN)
}

/// The height of a line's row.
pub fn row_height(row: &DrawnRow) -> u64 {
    LANE.saturating_mul(row.lanes as u64)
        .saturating_add(STRIP + 8)
        .max(ROW)
}

/// Where the bars of a lane begin, in a row that begins there.
pub fn lane_top(top: u64, lane: usize) -> u64 {
    top.saturating_add(STRIP + 4)
        .saturating_add(LANE.saturating_mul(lane as u64))
}
