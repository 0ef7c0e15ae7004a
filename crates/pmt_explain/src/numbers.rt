//! Numbers of lines.

ghost use Rattle.std.specs.Prelude.{◌≡◌, [], min, IfOk, OnOk};
ghost use Rattle.pmt_explain.specs.Numbers.{number_at, number_in, Puts, Reaches};

use pmt_model::OutOfMemory;
use pmt_tables::LineSlots;
use std::alloc::Global;
use std::marker::Model;

/// A line with its number.
#[derive(Clone, Copy)]
pub struct Numbered {
    pub line: u64,
    pub number: u64,
}

/// Numbers of lines: each has one or none. A line that came lately takes a few steps, another one a look-up.
#[derive(Drop)]
pub struct Numbers {
    lines: LineSlots,
    // each of these lines with its number
    rows: Vec<Numbered>,
}

impl Model for Numbers {
    ghost use Rattle.std.specs.Prelude.{List};
    ghost use Rattle.pmt_explain.specs.declared.numbers.Numbered.{Numbered};
    ghost use Rattle.pmt_explain.specs.Numbers.{IsTable};

    ghost Value = { List Numbered };

    ghost view = { λ n. n.rows.items };

    ghost invariant = { λ n. IsTable n.lines n.rows.items };
}

impl Numbers {
    /// No line has one.
    pub fn new(alloc: Global) -> Self
        ensures { result ≡ [] }
    {
        Numbers {
            lines: LineSlots::new(alloc),
            rows: Vec::new(alloc),
        }
    }

    /// The number of the line, if it has one.
    pub fn get(&self, line: u64) -> Option<u64>
        ensures { result ≡ number_in self.now line }
    {
        match self.lines.find(line) {
            None => None,
            Some(place) => Some(self.rows[place].number),
        }
    }

    // The place of the line, which gets the other number if it has none.
    fn reach(&mut self, line: u64, other: u64) -> Result<usize, OutOfMemory>
        ensures { IfOk result (λ place. Reaches line other place self.old self.new) }
    {
        match self.lines.recent(line) {
            Some(place) => Ok(place),
            None => self.insert(line, other),
        }
    }

    // The same, by a look-up.
    fn insert(&mut self, line: u64, other: u64) -> Result<usize, OutOfMemory>
        ensures { IfOk result (λ place. Reaches line other place self.old self.new) }
    {
        self.rows.reserve(1)?;
        let (place, is_new) = self.lines.insert(line)?;
        if is_new {
            self.rows.push_reserved(Numbered {
                line,
                number: other,
            });
        }
        Ok(place)
    }

    /// The number of the line, or the other one where it has none. The line gets this one.
    ///
    /// # Errors
    /// Where memory was refused. They can't be used any more then.
    pub fn replace(&mut self, line: u64, other: u64, number: u64) -> Result<u64, OutOfMemory>
        ensures number { IfOk result (λ old. old ≡ number_at other self.old line) }
        ensures put { OnOk result (Puts line number self.old self.new) }
    {
        let place = self.reach(line, other)?;
        let old = self.rows[place].number;
        self.rows[place].number = number;
        Ok(old)
    }

    /// The number of the line, or the other one where it has none. The line gets the lower one of it and the bound.
    ///
    /// # Errors
    /// Where memory was refused. They can't be used any more then.
    pub fn lower(&mut self, line: u64, other: u64, bound: u64) -> Result<u64, OutOfMemory>
        ensures number { IfOk result (λ old. old ≡ number_at other self.old line) }
        ensures put { IfOk result (λ old. Puts line (min old bound) self.old self.new) }
    {
        let place = self.reach(line, other)?;
        let old = self.rows[place].number;
        self.rows[place].number = old.min(bound);
        Ok(old)
    }
}
