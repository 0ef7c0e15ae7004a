//! What the kept events of a trace are good for.

ghost use Rattle.std.specs.Prelude.{ℕ, List};
ghost use Rattle.pmt_laws.specs.Prelude.{Recording, cut, IsKeep};
ghost use Rattle.pmt_trimming.specs.Passing.{KeepIsCounted};
ghost use Rattle.pmt_trimming.specs.Headline.{IsTrimmed};

/// A trace that is cut to its kept events is trimmed.
pub fn keep_is_trimmed()
    ensures { (T : Recording) (K : List ℕ) → IsKeep T K → IsTrimmed T K (cut T K) }
{}

/// So many events are kept: the stores and assertions, the fences and clflushes that raise a front, and one flush for each pair of a line
/// and a fence that raises its front. No selection with the same counts of persisted stores at every place has fewer.
pub fn keep_is_counted()
    ensures { KeepIsCounted }
{}
