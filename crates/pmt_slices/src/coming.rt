//! What comes after a place, of one line.

ghost use Rattle.std.specs.Prelude.{◌≡◌, ◌<◌, ◌≤◌};

/// Numbers of events after a place, up to that of an assertion; one more than the assertion's where there is no such event.
#[derive(Clone, Copy)]
pub(crate) struct Coming {
    /// The first flush of the line.
    pub(crate) flush: u64,
    /// The first fence after that flush, by any thread.
    pub(crate) fence: u64,
    /// The first event that completes a flush of the line.
    pub(crate) safe: u64,
    /// The first flush of the line that it completes.
    pub(crate) cover: u64,
}

impl Coming {
    // Nothing comes.
    pub(crate) fn nothing(past: u64) -> Self
        ensures flush { result.flush ≡ past }
        ensures fence { result.fence ≡ past }
        ensures safe { result.safe ≡ past }
        ensures cover { result.cover ≡ past }
    {
        Coming {
            flush: past,
            fence: past,
            safe: past,
            cover: past,
        }
    }

    // What comes before a flush of the line with this number, which the fence `by` completes, where `fence` is the first one of all.
    pub(crate) fn before_flush(self, number: u64, fence: u64, by: u64) -> Self
        ensures flush { result.flush ≡ number }
        ensures fence { result.fence ≡ fence }
        ensures sooner { by ≤ self.safe → (result.safe ≡ by) × (result.cover ≡ number) }
        ensures later { self.safe < by → (result.safe ≡ self.safe) × (result.cover ≡ self.cover) }
    {
        if by <= self.safe {
            Coming {
                flush: number,
                fence,
                safe: by,
                cover: number,
            }
        } else {
            Coming {
                flush: number,
                fence,
                safe: self.safe,
                cover: self.cover,
            }
        }
    }

    // What comes before a clflush of the line with this number.
    pub(crate) fn before_clflush(number: u64, fence: u64) -> Self
        ensures flush { result.flush ≡ number }
        ensures fence { result.fence ≡ fence }
        ensures safe { result.safe ≡ number }
        ensures cover { result.cover ≡ number }
    {
        Coming {
            flush: number,
            fence,
            safe: number,
            cover: number,
        }
    }
}
