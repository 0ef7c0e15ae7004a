//! What is found in a trace besides its verdicts, in the forms that are computed.

ghost use Rattle.pmt_laws.specs.ModelLaws.{OverwrittenByNumbers, RedundantFlushByFronts, RedundantClflushByFronts};

/// A store is overwritten exactly where it is the last store to a byte of the later one, by their numbers, and the last flush
/// of its line has a smaller number.
pub fn overwritten_by_numbers()
    ensures { OverwrittenByNumbers }
{}

/// A flush is redundant exactly where the front just before it, or the open mark of its thread, counts all stores to the line.
pub fn redundant_flush_by_fronts()
    ensures { RedundantFlushByFronts }
{}

/// A clflush is redundant exactly where the front just before it counts all stores to the line.
pub fn redundant_clflush_by_fronts()
    ensures { RedundantClflushByFronts }
{}
