//! The tables of all lines of a trace.
ghost use Rattle.std.specs.Prelude.{◌≡◌, ◌≢◌, IfOk, All, Contains, MatchOption};

use crate::table::LineTable;
use indexmap::IndexMap;
use pmt_lines::LineResult;
use pmt_model::OutOfMemory;
use std::alloc::Global;
use std::marker::Model;

/// The results of all lines of a trace, made ready for the verdicts of its assertions.
#[derive(Drop)]
pub struct Tables {
    lines: Vec<LineTable>,
    places: IndexMap<u64, usize>,
}

impl Model for Tables {
    ghost use Rattle.std.specs.Prelude.{List, nat_eq};
    ghost use Rattle.indexmap.specs.IndexMap.{get};
    ghost use Rattle.pmt_lines.specs.Jobs.{LineFound};
    ghost use Rattle.pmt_asserts.specs.Tables.{IsPlacing};

    ghost Value = { List LineFound };

    ghost view = { λ t. t.lines.items };

    ghost invariant = { λ t. IsPlacing t.lines.items (get nat_eq t.places) };
}

impl Tables {
    /// The tables of these results.
    ///
    /// # Errors
    /// Where memory was refused.
    pub fn merge(alloc: Global, results: Vec<LineResult>) -> Result<Tables, OutOfMemory>
        ensures { IfOk result (λ tables. tables ≡ results.items) }
    {
        let mut lines = Vec::with_capacity(alloc, results.len())?;
        let mut places = IndexMap::new(alloc);
        for found in results {
            places.insert(found.job().line(), lines.len())?;
            lines.push(LineTable::new(alloc, found)?)?;
        }
        Ok(Tables { lines, places })
    }

    // The table of the line.
    pub(crate) fn find(&self, line: u64) -> Option<&LineTable>
        ensures { MatchOption result (All (λ found. found.job.line ≢ line) self.now) (λ table. Contains self.now table.now × (table.now.job.line ≡ line)) }
    {
        let place = *self.places.get(&line)?;
        Some(&self.lines[place])
    }
}
