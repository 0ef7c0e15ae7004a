//! Verdicts by a part.

ghost use Rattle.pmt_part_laws.specs.Parts.{PartAsideFails, PartOrders, PartPersists};

/// Of each isPersist in the stretch, the part has the verdict of the whole trace.
pub fn part_persists()
    ensures { PartPersists }
{}

/// Of each isOrderedBefore in the stretch that is not set aside, the part has the verdict of the whole trace.
pub fn part_orders()
    ensures { PartOrders }
{}

/// An isOrderedBefore in the stretch fails if the last store to some byte of its first range is in the part, and that to some byte of
/// its second range is not.
pub fn part_aside_fails()
    ensures { PartAsideFails }
{}
