//! The last store to a line that no crash loses.

ghost use Rattle.pmt_safety.specs.Safety.{SafeFromIsPassed, SafeStoreIsLast};

/// The last safe store to a line, kept event by event, is the last one of the line that every run so far has persisted: a store to the
/// line is safe exactly up to it.
pub fn safe_store_is_last()
    ensures { SafeStoreIsLast }
{}

/// A store is safe from the place at which the last safe store of its line passes it.
pub fn safe_from_is_passed()
    ensures { SafeFromIsPassed }
{}
