//! What is kept of a stretch and what is carried at its end, by its part.

ghost use Rattle.pmt_part_laws.specs.Parts.{PartCarries, PartIsMade, PartKeeps};

/// The carry at a place, followed by the events after it up to another, is the part of that stretch.
pub fn part_is_made()
    ensures { PartIsMade }
{}

/// Of the events of a part those are kept that are kept in the whole, where this is decided by the end of the stretch.
pub fn part_keeps()
    ensures { PartKeeps }
{}

/// What is carried at the end of a stretch is what its part carries at its own end.
pub fn part_carries()
    ensures { PartCarries }
{}
