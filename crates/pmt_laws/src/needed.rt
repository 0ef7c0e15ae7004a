//! Which events the kept selection needs.

ghost use Rattle.pmt_laws.specs.ModelLaws.{NoneCanGo};

/// No flush, clflush or fence of the kept selection can go: without it, the selection is not faithful at some place.
pub fn none_can_go()
    ensures { NoneCanGo }
{}
