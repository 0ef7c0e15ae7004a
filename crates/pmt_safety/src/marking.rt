//! A fence, and the flushes that its thread has made since its last one.

ghost use Rattle.pmt_safety.specs.Safety.{FenceKeeps, FenceRaisesTo};

/// A fence takes the last safe store of a line to the last one that an open flush of its thread marks, if that is later.
pub fn fence_raises_to()
    ensures { FenceRaisesTo }
{}

/// Of the open flushes of its thread, a fence keeps those that mark a later store than the last safe one just before it and than each
/// newer one does.
pub fn fence_keeps()
    ensures { FenceKeeps }
{}
