//! The status of a run, by its explanation.
ghost use Rattle.std.specs.Prelude.{◌≡◌};
ghost use Rattle.pmt_entries.specs.Entries.{is_any_with};
ghost use Rattle.pmt_entries.specs.declared.weight.Weight.TheVariants.{Suspect};
ghost use Rattle.pmt_explanation.specs.Summing.{fails};

use crate::explaining::Explanation;
use pmt_entries::{Verdict, Weight, is_any_of};

/// Whether the verdict makes the status 1: `Fail`, `Lost` and `Suspect` do. Of a trace that was cut `Lost` does so only if some entry weighs
/// `Suspect`, since its last stores may be persisted later. If the caller is strict, `Check` and `ProbablyOk` do so as well.
pub fn status_of(explanation: &Explanation, is_cut: bool, is_strict: bool) -> bool
    ensures { result ≡ fails explanation.now.entries is_cut is_strict }
{
    let knows = !is_cut || is_any_suspect(explanation);
    match explanation.entries.verdict {
        Verdict::Fail | Verdict::Suspect => true,
        Verdict::Lost => is_strict || knows,
        Verdict::Check | Verdict::ProbablyOk => is_strict,
        Verdict::Nothing | Verdict::Ok | Verdict::OkSoFar => false,
    }
}

// Whether an entry weighs `Suspect`.
fn is_any_suspect(explanation: &Explanation) -> bool
    ensures { result ≡ is_any_with Suspect explanation.now.entries.entries.items }
{
    is_any_of(explanation.entries.entries.as_slice(), Weight::Suspect)
}
