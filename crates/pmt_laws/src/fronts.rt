//! What crashes leave, by the fronts.

ghost use Rattle.pmt_laws.specs.ModelLaws.{VectorsAreABox, FrontsAreGreatest};

/// The front of a line, kept event by event, is the greatest number of stores that a completed flush of the line marked.
pub fn fronts_are_greatest()
    ensures { FrontsAreGreatest }
{}

/// The counts of persisted stores that a crash may leave are exactly those that lie, line by line, between the front and the
/// number of stores.
pub fn vectors_are_a_box()
    ensures { VectorsAreABox }
{}
