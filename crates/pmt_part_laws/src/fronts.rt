//! What a crash may leave, by a part.

ghost use Rattle.pmt_part_laws.specs.Parts.{PartFronts, PartImages, PartVectors};

/// At each place of its stretch, a part has the front and the count of each line less the front at the place where the stretch begins.
pub fn part_fronts()
    ensures { PartFronts }
{}

/// A crash in the stretch may leave the counts of persisted stores that the part may leave, with what is safe where the stretch begins.
pub fn part_vectors()
    ensures { PartVectors }
{}

/// A crash in the stretch may leave the images that the part may leave, upon memory with what is safe where the stretch begins.
pub fn part_images()
    ensures { PartImages }
{}
