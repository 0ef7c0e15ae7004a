//! How much an entry weighs.

ghost use Rattle.std.specs.Prelude.{◌≡◌};
ghost use Rattle.pmt_entries.specs.Entries.{hint_weight, is_mostly_clear as is_mostly_clear_in, rank, site_weight};

use crate::sites::Site;
use pmt_fates::LEAST_EVENTS;
use pmt_hints::{Contrast, Hint, HintKind};

/// How much an entry weighs; the greatest weight first.
#[derive(Clone, Copy, PartialEq, Eq)]
pub enum Weight {
    /// An assertion fails.
    Fail,
    /// A site loses stores for good, and not only scratch.
    Lost,
    /// A site delays stores or leaves a flush open, and something else shows that it should not.
    Suspect,
    /// What may be meant or not.
    Check,
    /// What is mostly meant, such as counters that nothing flushes.
    Meant,
}

/// How much the site weighs.
pub fn weight_of_site(site: &Site) -> Weight
    ensures { result ≡ site_weight site.now }
{
    if site.is_scratch {
        Weight::Meant
    } else if 0 < site.row.lost {
        Weight::Lost
    } else if site.sign.is_some() || site.has_contrast {
        Weight::Suspect
    } else if site.is_claimed {
        Weight::Meant
    } else {
        Weight::Check
    }
}

// How much the hint with this contrast weighs by itself; nothing where it is a small thing.
pub(crate) fn weight_of_hint(contrast: Contrast, hint: &Hint) -> Option<Weight>
    ensures { result ≡ hint_weight contrast hint.now }
{
    match hint.kind {
        HintKind::StoredAfterFlush | HintKind::OneLineShort | HintKind::StoredAfterMark => {
            Some(Weight::Check)
        }
        HintKind::SplitWord => None,
        HintKind::OpenAtStore => {
            if hint.count < LEAST_EVENTS {
                None
            } else if is_mostly_clear(contrast) {
                Some(Weight::Suspect)
            } else {
                Some(Weight::Check)
            }
        }
    }
}

// Whether most stores of the contrast come with nothing open.
fn is_mostly_clear(contrast: Contrast) -> bool
    ensures { result ≡ is_mostly_clear_in contrast }
{
    contrast.all.saturating_sub(contrast.clear) < contrast.clear
}

// Less for a greater weight.
pub(crate) fn rank_of(weight: Weight) -> u8
    ensures { result ≡ rank weight }
{
    match weight {
        Weight::Fail => 0,
        Weight::Lost => 1,
        Weight::Suspect => 2,
        Weight::Check => 3,
        Weight::Meant => 4,
    }
}
