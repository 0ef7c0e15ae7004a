//! Of each line a row.
ghost use Rattle.std.specs.Prelude.{◌≡◌, ℕ, ◌<◌, ◌^◌, List, [], length, max, nat_eq, IfOk, OnOk, OnErr};
ghost use Rattle.pmt_laws.specs.Prelude.{IsDistinct, with_line};
ghost use Rattle.pmt_rows.specs.Known.{raised, AreRows, row_by};
ghost use Rattle.pmt_tables.specs.Slots.{IsSlotOf};

use pmt_model::OutOfMemory;
use pmt_tables::LineSlots;
use std::alloc::Global;

/// Of a line the numbers of its last store, of its last store that is safe, and of its last flush or clflush: 0 where there is none.
#[derive(Clone, Copy)]
pub struct Row {
    pub last_store: u32,
    pub safe: u32,
    pub last_flush: u32,
}

const EMPTY: Row = Row {
    last_store: 0,
    safe: 0,
    last_flush: 0,
};

/// The lines of a trace under way, each with a slot, that of its first appearance, and a row. A line has a slot before an act on it is
/// told; an act takes at most one look-up, and none where the line is one of those found last.
#[derive(Drop)]
pub struct Rows {
    slots: LineSlots,
    rows: Vec<Row>,
}

impl Rows {
    /// Before the first act.
    pub fn new(alloc: Global) -> Self
        ensures { AreRows [] (λ _. 0) (λ _. 0) (λ _. 0) result }
    {
        Rows {
            slots: LineSlots::new(alloc),
            rows: Vec::new(alloc),
        }
    }

    /// How many lines have a slot.
    pub fn len(&self) -> usize
        ensures { result ≡ length self.now.rows.items }
    {
        self.rows.len()
    }

    /// The lines, by their slots.
    pub fn slots(&self) -> &LineSlots
        ensures { result.now ≡ self.now.slots }
    {
        &self.slots
    }

    /// The slot of the line, which it gets if it has none yet, below 2^32.
    ///
    /// # Errors
    /// Where memory was refused, or 4,294,967,295 lines have a slot. All that is known stays as it was.
    #[inline(always)]
    pub fn slot_of(&mut self, line: u64) -> Result<usize, OutOfMemory>
        ensures here { IfOk result (λ slot. IsSlotOf line slot self.new.slots) }
        ensures small { IfOk result (λ slot. slot < 2 ^ 32) }
        ensures known { OnOk result ((lines : List ℕ) (last safe flush : ℕ → ℕ) → AreRows lines last safe flush self.old → AreRows (with_line line lines) last safe flush self.new) }
        ensures kept { OnErr result ((lines : List ℕ) (last safe flush : ℕ → ℕ) → AreRows lines last safe flush self.old → AreRows lines last safe flush self.new) }
    {
        match self.slots.recent(line) {
            Some(slot) => Ok(slot),
            None => self.look_up(line),
        }
    }

    // The same, by a look-up.
    fn look_up(&mut self, line: u64) -> Result<usize, OutOfMemory>
        ensures here { IfOk result (λ slot. IsSlotOf line slot self.new.slots) }
        ensures small { IfOk result (λ slot. slot < 2 ^ 32) }
        ensures known { OnOk result ((lines : List ℕ) (last safe flush : ℕ → ℕ) → AreRows lines last safe flush self.old → AreRows (with_line line lines) last safe flush self.new) }
        ensures kept { OnErr result ((lines : List ℕ) (last safe flush : ℕ → ℕ) → AreRows lines last safe flush self.old → AreRows lines last safe flush self.new) }
    {
        self.rows.reserve(1)?;
        let (slot, is_new) = self.slots.insert(line)?;
        if is_new {
            self.rows.push_reserved(EMPTY);
        }
        Ok(slot)
    }

    /// The row of the line at this slot.
    #[inline(always)]
    pub fn row(&self, slot: usize) -> Row
        requires { slot < length self.now.rows.items }
        ensures { (lines : List ℕ) (last safe flush : ℕ → ℕ) (l : ℕ) → IsSlotOf l slot lines → AreRows lines last safe flush self.now → result ≡ row_by last safe flush l }
    {
        self.rows[slot]
    }

    /// A store to the line at this slot, the event with this number.
    #[inline(always)]
    pub fn store(&mut self, slot: usize, number: u32)
        requires { slot < length self.old.rows.items }
        ensures { (lines : List ℕ) (last safe flush : ℕ → ℕ) (l : ℕ) → IsSlotOf l slot lines → AreRows lines last safe flush self.old → AreRows lines (raised l number last) safe flush self.new }
    {
        let row = &mut self.rows[slot];
        row.last_store = number;
    }

    /// A flush (clwb, clflushopt) of the line at this slot, the event with this number.
    #[inline(always)]
    pub fn flush(&mut self, slot: usize, number: u32)
        requires { slot < length self.old.rows.items }
        ensures { (lines : List ℕ) (last safe flush : ℕ → ℕ) (l : ℕ) → IsSlotOf l slot lines → AreRows lines last safe flush self.old → AreRows lines last safe (raised l number flush) self.new }
    {
        let row = &mut self.rows[slot];
        row.last_flush = number;
    }

    /// A clflush of the line at this slot, the event with this number: its last store is safe then.
    #[inline(always)]
    pub fn clflush(&mut self, slot: usize, number: u32)
        requires { slot < length self.old.rows.items }
        ensures { (lines : List ℕ) (last safe flush : ℕ → ℕ) (l : ℕ) → IsSlotOf l slot lines → AreRows lines last safe flush self.old → AreRows lines last (raised l (last l) safe) (raised l number flush) self.new }
    {
        let row = &mut self.rows[slot];
        *row = Row {
            last_store: row.last_store,
            safe: row.last_store,
            last_flush: number,
        };
    }

    /// The last safe store of the line at this slot is this one, where that is later: which it was.
    #[inline(always)]
    pub fn raise(&mut self, slot: usize, store: u32) -> u32
        requires { slot < length self.old.rows.items }
        ensures raised { (lines : List ℕ) (last safe flush : ℕ → ℕ) (l : ℕ) → IsSlotOf l slot lines → AreRows lines last safe flush self.old → AreRows lines last (raised l (max (safe l) store) safe) flush self.new }
        ensures was { (lines : List ℕ) (last safe flush : ℕ → ℕ) (l : ℕ) → IsSlotOf l slot lines → AreRows lines last safe flush self.old → result ≡ safe l }
    {
        let row = &mut self.rows[slot];
        let safe = row.safe;
        row.safe = safe.max(store);
        safe
    }

    /// The same rows.
    ///
    /// # Errors
    /// Where memory was refused.
    pub fn copy(&self) -> Result<Self, OutOfMemory>
        ensures { IfOk result (λ copy. (lines : List ℕ) (last safe flush : ℕ → ℕ) → AreRows lines last safe flush self.now → AreRows lines last safe flush copy) }
    {
        let alloc = *self.rows.allocator();
        Ok(Rows {
            slots: copied(&self.slots, alloc)?,
            rows: self.rows.as_slice().to_vec(alloc)?,
        })
    }
}

// The same lines, each at the same slot.
fn copied(slots: &LineSlots, alloc: Global) -> Result<LineSlots, OutOfMemory>
    ensures { IfOk result (λ copy. IsDistinct nat_eq slots.now → copy ≡ slots.now) }
{
    let mut copy = LineSlots::new(alloc);
    for line in slots.lines() {
        copy.insert(*line)?;
    }
    Ok(copy)
}
