//! The slots of lines.
ghost use Rattle.std.specs.Prelude.{◌≡◌, ◌<◌, ◌^◌, ◌↔◌, ℕ, suc, [], true, not, length, IfOk, IfSome, OnOk, OnErr, None, false, ◌++◌, ◌∷◌, nat_eq};
ghost use Rattle.std.specs.List.{IsDistinct, list_any};
ghost use Rattle.pmt_tables.specs.Slots.{AreIndexed, IsFound, IsSlotOf, IsReached, cell_at, insert_line};

use pmt_model::OutOfMemory;
use std::alloc::{AllocError, Global};
use std::marker::Model;

// How many slots are remembered: 8 KiB of them, a quarter of a processor's nearest cache.
const RECENT: usize = 2048;

// An odd number whose multiples differ in all bits: 2^64 by the golden ratio.
const MIXER: u64 = 0x9e37_79b9_7f4a_7c15;

/// Lines, each with a slot: that of its first appearance. A line takes 16 to 24 bytes.
#[derive(Drop)]
pub struct LineSlots {
    // In order of first appearance.
    lines: Vec<u64>,
    // Of each line its slot and one more, at the first cell that was free of those that are looked at for it; else 0. At least half are free.
    cells: Vec<u32>,
    // By the lowest bits of lines the slots that were found last: mostly the next line is one of these. Nothing is promised of them.
    recent: [u32; RECENT],
}

impl Model for LineSlots {
    ghost use Rattle.std.specs.Prelude.{ℕ, ◌^◌, ◌<◌, List, length};
    ghost use Rattle.pmt_tables.specs.Slots.{AreIndexed};

    ghost Value = { List ℕ };

    ghost view = { λ p. p.lines.items };

    ghost invariant = { λ p. AreIndexed p.lines.items p.cells.items × (length p.lines.items < 2 ^ 32) };
}

impl LineSlots {
    /// No lines.
    pub fn new(alloc: Global) -> Self
        ensures { result ≡ [] }
    {
        LineSlots {
            lines: Vec::new(alloc),
            cells: Vec::new(alloc),
            recent: [0; RECENT],
        }
    }

    /// How many lines there are.
    pub fn len(&self) -> usize
        ensures { result ≡ length self.now }
    {
        self.lines.len()
    }

    /// The lines, in order of first appearance.
    pub fn lines(&self) -> &[u64]
        ensures { result.now ≡ self.now }
    {
        self.lines.as_slice()
    }

    /// The slot of the line, if it is one of those that were found last. It takes no look-up.
    #[inline(always)]
    pub fn recent(&self, line: u64) -> Option<usize>
        ensures slot { IfSome result (λ slot. IsSlotOf line slot self.now) }
        ensures small { IfSome result (λ slot. slot < 2 ^ 32) }
    {
        let slot = self.recent[line as usize % RECENT] as usize;
        if !is_at(self.lines.as_slice(), slot, line) {
            return None;
        }
        Some(slot)
    }

    /// The slot of the line, below 2^32, which it gets if it has none yet, and whether it is new.
    ///
    /// # Errors
    /// Where memory was refused, or there are 4,294,967,295 lines. The lines stay as they were.
    #[inline(always)]
    pub fn insert(&mut self, line: u64) -> Result<(usize, bool), OutOfMemory>
        ensures here { IfOk result (λ found. IsSlotOf line found.0 self.new) }
        ensures small { IfOk result (λ found. found.0 < 2 ^ 32) }
        ensures added { IfOk result (λ found. found.1 ≡ not (list_any (nat_eq line) self.old)) }
        ensures lines { OnOk result (self.new ≡ insert_line self.old line) }
        ensures unique { OnOk result (IsDistinct nat_eq self.new) }
        ensures same { OnErr result (self.new ≡ self.old) }
    {
        if let Some(slot) = look_up(self.lines.as_slice(), self.cells.as_slice(), line) {
            self.remember(line, slot);
            return Ok((slot, false));
        }
        let slot = add(&mut self.lines, &mut self.cells, line)?;
        self.remember(line, slot);
        Ok((slot, true))
    }

    // Remembers the slot of a line that was found.
    #[inline(always)]
    fn remember(&mut self, line: u64, slot: usize)
        requires { slot < 2 ^ 32 }
        ensures { self.new ≡ self.old }
    {
        self.recent[line as usize % RECENT] = slot as u32;
    }

    /// The slot of the line, if it has one.
    #[inline(always)]
    pub fn find(&self, line: u64) -> Option<usize>
        ensures found { IsFound line self.now result }
        ensures small { IfSome result (λ slot. slot < 2 ^ 32) }
    {
        match self.recent(line) {
            Some(slot) => Some(slot),
            None => look_up(self.lines.as_slice(), self.cells.as_slice(), line),
        }
    }
}

// Whether the line stands at this slot.
#[inline(always)]
fn is_at(lines: &[u64], slot: usize, line: u64) -> bool
    ensures { (result ≡ true) ↔ IsSlotOf line slot lines.now }
{
    match lines.get(slot) {
        Some(other) => *other == line,
        None => false,
    }
}

// The cell at which the look with this number is made for the line: lines beside one another begin beside one another, and lines that begin
// at one cell go on by steps of their own.
#[inline(always)]
fn cell_of(size: usize, line: u64, look: usize) -> usize
    requires { 0 < size }
    ensures cell { result ≡ cell_at size line look }
    ensures within { result < size }
{
    let mixed = (line >> 14).wrapping_mul(MIXER);
    let far = (look as u64).wrapping_mul(mixed >> 32 | 1);
    line.wrapping_add(mixed).wrapping_add(far) as usize & (size - 1)
}

// The slot of the line, if it has one.
#[inline(always)]
fn look_up(lines: &[u64], cells: &[u32], line: u64) -> Option<usize>
    requires { AreIndexed lines.now cells.now }
    ensures found { IsFound line lines.now result }
    ensures small { IfSome result (λ slot. slot < 2 ^ 32) }
{
    for look in 0..cells.len() {
        let cell = cell_of(cells.len(), line, look);
        let entry = cells[cell];
        if entry == 0 {
            return None;
        }
        let slot = entry as usize - 1;
        if is_at(lines, slot, line) {
            return Some(slot);
        }
    }
    None
}

// The next slot, which the line gets. It had none.
#[inline(always)]
fn add(lines: &mut Vec<u64>, cells: &mut Vec<u32>, line: u64) -> Result<usize, OutOfMemory>
    requires indexed { AreIndexed lines.old.items cells.old.items × (length lines.old.items < 2 ^ 32) }
    requires new { IsFound line lines.old.items None }
    ensures indexed { AreIndexed lines.new.items cells.new.items }
    ensures few { length lines.new.items < 2 ^ 32 }
    ensures next { IfOk result (λ slot. slot ≡ length lines.old.items) }
    ensures absent { OnOk result (list_any (nat_eq line) lines.old.items ≡ false) }
    ensures lines { OnOk result (lines.new.items ≡ lines.old.items ++ line ∷ []) }
    ensures same { OnErr result (lines.new.items ≡ lines.old.items) }
{
    let slot = lines.len();
    if slot >= u32::MAX as usize {
        return Err(AllocError);
    }
    lines.reserve(1)?;
    make_room(*lines.allocator(), lines.as_slice(), cells)?;
    if !put(cells, line, slot as u32 + 1) {
        return Err(AllocError);
    }
    lines.push_reserved(line);
    Ok(slot)
}

// Makes room for one line more, where half of the cells have an entry.
#[inline(always)]
fn make_room(alloc: Global, lines: &[u64], cells: &mut Vec<u32>) -> Result<(), OutOfMemory>
    requires { AreIndexed lines.now cells.old.items × (length lines.now < 2 ^ 32) }
    ensures { AreIndexed lines.now cells.new.items }
{
    if lines.len() < cells.len() / 2 {
        return Ok(());
    }
    *cells = indexed(alloc, lines)?;
    Ok(())
}

// The cells of these lines, of which at least half are free.
#[inline(never)]
fn indexed(alloc: Global, lines: &[u64]) -> Result<Vec<u32>, OutOfMemory>
    requires { length lines.now < 2 ^ 32 }
    ensures { IfOk result (λ cells. (slot l : ℕ) → IsSlotOf l slot lines.now → IsReached cells.items l (suc slot)) }
{
    let size = (4 * lines.len().max(4)).next_power_of_two();
    let mut cells = Vec::new(alloc);
    cells.resize(size, 0)?;
    for slot in 0..lines.len() {
        let line = lines[slot];
        if !put(&mut cells, line, slot as u32 + 1) {
            return Err(AllocError);
        }
    }
    Ok(cells)
}

// Puts the entry at the first free cell of those that are looked at for the line: whether there is one.
#[inline(always)]
fn put(cells: &mut Vec<u32>, line: u64, entry: u32) -> bool
    requires { 0 < entry }
    ensures reached { result ≡ true → IsReached cells.new.items line entry }
    ensures others { (l e : ℕ) → 0 < e → IsReached cells.old.items l e → IsReached cells.new.items l e }
{
    for look in 0..cells.len() {
        let cell = cell_of(cells.len(), line, look);
        let other = cells[cell];
        if other == 0 {
            cells[cell] = entry;
            return true;
        }
    }
    false
}
