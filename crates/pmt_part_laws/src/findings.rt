//! What is found in a stretch, by its part.

ghost use Rattle.pmt_part_laws.specs.Parts.{PartEmptyFence, PartFlushedAfter, PartNeverPersists, PartOverwrites, PartRedundantClflush, PartRedundantFlush};

/// A store is overwritten by a store of the stretch exactly if it is in the part, and overwritten there.
pub fn part_overwrites()
    ensures { PartOverwrites }
{}

/// A flush of the stretch is redundant exactly if it is so in the part.
pub fn part_redundant_flush()
    ensures { PartRedundantFlush }
{}

/// A clflush of the stretch is redundant exactly if it is so in the part.
pub fn part_redundant_clflush()
    ensures { PartRedundantClflush }
{}

/// A fence of the stretch comes without flush exactly if it does so in the part.
pub fn part_empty_fence()
    ensures { PartEmptyFence }
{}

/// In the last part of a trace, the stores are never persisted that are so in the whole, carried ones among them.
pub fn part_never_persists()
    ensures { PartNeverPersists }
{}

/// In the last part of a trace, the line of a store is flushed after it exactly if it is so in the whole.
pub fn part_flushed_after()
    ensures { PartFlushedAfter }
{}
