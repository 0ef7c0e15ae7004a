//! What the tables tell of one line.
ghost use Rattle.std.specs.Prelude.{ℕ, ◌<◌, ◌≤◌, ◌^◌, ◌↔◌, IsTrue};
ghost use Rattle.pmt_model.specs.Traces.{Recording};
ghost use Rattle.pmt_asserts.specs.Tables.{PersistedBy, RankedBy, EachIn, IsOldestOfLine, Knows};

use crate::oldest::Oldest;
use crate::part::part_of;
use crate::tables::Tables;
use pmt_model::{Format, Range};

impl Tables {
    // Whether by place `by` the last store to a byte of the range in this line is persisted for sure, for each such byte.
    pub(crate) fn is_line_persisted(
        &self,
        format: Format,
        range: Range,
        line: u64,
        number: u64,
        by: u64,
    ) -> bool
        requires line { line < 2 ^ 48 }
        ensures { (T : Recording) → Knows self.now format number T → by ≤ number → (IsTrue result ↔ EachIn T line range (PersistedBy T number by)) }
    {
        let part = part_of(format, range, line);
        match self.find(line) {
            None => true,
            Some(table) => table.is_persisted_by(part.low, part.high, number, by),
        }
    }

    // Whether the last store to a byte of the range in this line has at most this rank among those of the line, for each such byte.
    pub(crate) fn is_line_ranked(
        &self,
        format: Format,
        range: Range,
        line: u64,
        number: u64,
        rank: u64,
    ) -> bool
        requires line { line < 2 ^ 48 }
        ensures { (T : Recording) → Knows self.now format number T → (IsTrue result ↔ EachIn T line range (RankedBy T number rank)) }
    {
        let part = part_of(format, range, line);
        match self.find(line) {
            None => true,
            Some(table) => table.is_ranked_by(part.low, part.high, number, rank),
        }
    }

    // Of the last stores to the bytes of the range in this line, the first.
    pub(crate) fn line_oldest(
        &self,
        format: Format,
        range: Range,
        line: u64,
        number: u64,
    ) -> Option<Oldest>
        requires line { line < 2 ^ 48 }
        ensures { (T : Recording) → Knows self.now format number T → IsOldestOfLine T number line range result }
    {
        let part = part_of(format, range, line);
        if part.high <= part.low {
            return None;
        }
        match self.find(line) {
            None => None,
            Some(table) => table.oldest(part.low, part.high, number),
        }
    }
}
