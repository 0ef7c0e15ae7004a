//! What is found, kept and judged, by the last safe store of each line.

ghost use Rattle.pmt_safety.specs.Safety.{EmptyFenceByFlag, KeptClflushByStores, KeptFenceByStores, KeptFlushByStores, NeverPersistedByStores, OrderedByStores, PersistByStores, RedundantClflushByStores, RedundantFlushByStores};

/// A store is never persisted in some run exactly if it comes after the last safe one of its line at the end.
pub fn never_persisted_by_stores()
    ensures { NeverPersistedByStores }
{}

/// A flush is redundant exactly if the last store to its line is safe, or its thread has flushed the line since that store.
pub fn redundant_flush_by_stores()
    ensures { RedundantFlushByStores }
{}

/// A clflush is redundant exactly if the last store to its line is safe.
pub fn redundant_clflush_by_stores()
    ensures { RedundantClflushByStores }
{}

/// A fence comes without flush exactly if its thread has flushed no line since its last fence.
pub fn empty_fence_by_flag()
    ensures { EmptyFenceByFlag }
{}

/// Of its open flushes, a fence keeps the last one of each line of which it marks a store that is not safe.
pub fn kept_flush_by_stores()
    ensures { KeptFlushByStores }
{}

/// A fence is kept exactly if its thread's last flush of some line marks a store that is not safe.
pub fn kept_fence_by_stores()
    ensures { KeptFenceByStores }
{}

/// A clflush is kept exactly if the last store to its line is not safe.
pub fn kept_clflush_by_stores()
    ensures { KeptClflushByStores }
{}

/// `isPersist` passes exactly if the last store to each byte of its range is safe.
pub fn persist_by_stores()
    ensures { PersistByStores }
{}

/// `isOrderedBefore` passes exactly if each last store to a byte of the first range stands before each one to a byte of the second on
/// their line, or is safe at its place.
pub fn ordered_by_stores()
    ensures { OrderedByStores }
{}
