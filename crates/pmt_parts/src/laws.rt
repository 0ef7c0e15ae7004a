//! What a part without the ignored stores of its carry owes to the whole, and what pieces of a text do.

ghost use Rattle.pmt_parts.specs.Making.{AsideByWhole, AsideIsAll, PartCarriesAt, PartOfAll};
ghost use Rattle.pmt_parts.specs.Cutting.{EventsOfPieces, FaultsOfPieces};

/// Where no range is ignored, a part is what pmt_part_laws calls so, and all that stands there holds of it.
pub fn part_of_all()
    ensures { PartOfAll }
{}

/// At each place of its stretch the part carries what the whole does, without the stores that are ignored.
pub fn part_carries_at()
    ensures { PartCarriesAt }
{}

/// An assertion is set aside exactly if to some byte of its second range no event of the whole stores after the part's place.
pub fn aside_by_whole()
    ensures { AsideByWhole }
{}

/// Each isOrderedBefore whose verdict the part does not know is set aside.
pub fn aside_is_all()
    ensures { AsideIsAll }
{}

/// Where a piece of whole lines is judged a trace behind the header of a text of any length, that text has just its events there.
pub fn events_of_pieces()
    ensures { EventsOfPieces }
{}

/// Where a piece is refused behind that header, the text is refused for the same, so many lines later as stand before the piece.
pub fn faults_of_pieces()
    ensures { FaultsOfPieces }
{}
