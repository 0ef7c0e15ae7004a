//! The table of one line: its result, made ready for searches by place and by byte.
ghost use Rattle.std.specs.Prelude.{◌≡◌, ℕ, ◌<◌, ◌≤◌, ◌↔◌, IsTrue, IfOk, length};
ghost use Rattle.pmt_laws.specs.Prelude.{count_at as stores_by, front_at as front_by};
ghost use Rattle.pmt_asserts.specs.Puts.{puts_of, last_in, IsLeastOf, IsLesser};
ghost use Rattle.pmt_asserts.specs.Tables.{OfEachTrace, LieIn, EachFrom, PersistedBy, RankedBy, IsOldestOf};

use crate::build::{collect_puts, collect_writes};
use crate::oldest::Oldest;
use crate::put::{Put, Write};
use pmt_lines::LineResult;
use pmt_model::OutOfMemory;
use std::alloc::Global;
use std::marker::Model;

/// A line's result, made ready for searches by place and by byte.
#[derive(Drop)]
pub struct LineTable {
    found: LineResult,
    puts: Vec<Put>,
    writes: Vec<Write>,
}

impl Model for LineTable {
    ghost use Rattle.pmt_lines.specs.Jobs.{LineFound};
    ghost use Rattle.pmt_asserts.specs.Puts.{IsTableOf};

    ghost Value = { LineFound };

    ghost view = { λ t. t.found };

    ghost invariant = { λ t. IsTableOf t.found.job.steps t.puts.items t.writes.items };
}

impl LineTable {
    pub fn new(alloc: Global, found: LineResult) -> Result<Self, OutOfMemory>
        ensures { IfOk result (λ table. table ≡ found) }
    {
        let puts = collect_puts(alloc, found.job().steps())?;
        let writes = collect_writes(alloc, &puts)?;
        Ok(LineTable {
            found,
            puts,
            writes,
        })
    }

    // How many stores come by the place.
    fn count_at(&self, place: u64) -> usize
        ensures value { OfEachTrace self.now (λ T l. stores_by T l place ≡ result) }
        ensures within { result ≤ length (puts_of self.now.job.steps) }
    {
        self.puts.partition_point(|put| put.number <= place)
    }

    // The front at the place.
    fn front_at(&self, place: u64) -> u64
        ensures { OfEachTrace self.now (λ T l. place ≤ length T.events → front_by T l place ≡ result) }
    {
        let raises = self.found.raises();
        let count = raises.partition_point(|raise| raise.0 <= place);
        if count == 0 { 0 } else { raises[count - 1].1 }
    }

    // The rank of the last one of the first `count` stores that writes the byte, or 0.
    fn last(&self, byte: u64, count: usize) -> u64
        requires { count ≤ length (puts_of self.now.job.steps) }
        ensures { result ≡ last_in (puts_of self.now.job.steps) byte count }
    {
        let rank = count as u64;
        let newest = Write { byte, rank }.key();
        let end = self.writes.partition_point(|write| write.key() <= newest);
        if end == 0 {
            return 0;
        }
        let last = self.writes[end - 1];
        if last.byte == byte { last.rank } else { 0 }
    }

    // The least rank of a last one of the first `count` stores to a byte from `low` to `high`.
    fn least(&self, low: u64, high: u64, count: usize) -> Option<u64>
        requires { count ≤ length (puts_of self.now.job.steps) }
        ensures { IsLeastOf (puts_of self.now.job.steps) count low high result }
    {
        let mut least = None;
        for byte in low..high {
            least = lesser(least, self.last(byte, count));
        }
        least
    }

    /// Whether by place `by` the last one of the events up to `place` that stores to a byte is persisted for sure, for each
    /// byte from `low` to `high`.
    pub fn is_persisted_by(&self, low: u64, high: u64, place: u64, by: u64) -> bool
        ensures { OfEachTrace self.now (λ T l. by ≤ length T.events → LieIn T l low high → IsTrue result ↔ EachFrom low high (PersistedBy T place by)) }
    {
        self.is_ranked_by(low, high, place, self.front_at(by))
    }

    /// Whether the last one of the events up to `place` that stores to a byte has at most this rank, for each byte from `low`
    /// to `high`.
    pub fn is_ranked_by(&self, low: u64, high: u64, place: u64, rank: u64) -> bool
        ensures { OfEachTrace self.now (λ T l. LieIn T l low high → IsTrue result ↔ EachFrom low high (RankedBy T place rank)) }
    {
        let count = self.count_at(place);
        for byte in low..high {
            if rank < self.last(byte, count) {
                return false;
            }
        }
        true
    }

    /// Of the last ones of the events up to `place` that store to a byte from `low` to `high`, the first.
    pub fn oldest(&self, low: u64, high: u64, place: u64) -> Option<Oldest>
        ensures { OfEachTrace self.now (λ T l. LieIn T l low high → IsOldestOf T place l low high result) }
    {
        match self.least(low, high, self.count_at(place)) {
            None => None,
            Some(rank) => {
                let number = self.puts[rank as usize - 1].number;
                Some(Oldest { rank, number })
            }
        }
    }
}

// The lesser one of two ranks, 0 being none.
fn lesser(least: Option<u64>, rank: u64) -> Option<u64>
    ensures { IsLesser least rank result }
{
    if rank == 0 {
        return least;
    }
    match least {
        Some(other) if other <= rank => Some(other),
        _ => Some(rank),
    }
}
