//! How many flushes fences wait for.

ghost use Rattle.std.specs.Prelude.{◌≡◌, ◌≤◌, ◌<◌, ◌*◌, ℕ, length, slice_index, []};
ghost use Rattle.pmt_model.specs.Traces.{event_limit};
ghost use Rattle.pmt_fates.specs.Counting.{AreSizes, bar_of as bar_in, with_size, AreSmall, sizes_after, waiting_after};

use pmt_model::Op;

/// How many bars the histogram of fences has.
pub const BARS: usize = 7;

/// How many flushes fences wait for: of each fence those of its thread since its fence before. A clflush waits for no fence.
#[derive(Clone, Copy)]
pub struct FenceSizes {
    /// How many fences 0, 1, 2, 3 to 4, 5 to 8, 9 to 16, and more flushes wait for.
    pub bars: [u64; BARS],
    /// How many wait for the fence for which most do.
    pub most: u64,
    /// How many wait for all fences together.
    pub flushes: u64,
}

impl FenceSizes {
    // The sizes of no fence.
    pub(crate) fn none() -> Self
        ensures sizes { AreSizes [] result }
        ensures bars { length result.bars ≡ 7 }
    {
        FenceSizes {
            bars: [0; BARS],
            most: 0,
            flushes: 0,
        }
    }

    // Counts a fence for which so many flushes wait.
    fn add(&mut self, flushes: u64)
        requires bars { (b : ℕ) → b < 7 → slice_index self.old.bars b ≤ event_limit }
        requires few { flushes ≤ event_limit }
        requires sum { self.old.flushes ≤ event_limit * event_limit }
        requires size { length self.old.bars ≡ 7 }
        ensures { self.new ≡ with_size flushes self.old }
    {
        let bar = bar_of(flushes);
        self.bars[bar] += 1;
        if self.most < flushes {
            self.most = flushes;
        }
        self.flushes += flushes;
    }
}

// The bar of the fence for which so many flushes wait.
fn bar_of(flushes: u64) -> usize
    ensures bar { result ≡ bar_in flushes }
    ensures within { result < 7 }
{
    if flushes <= 2 {
        flushes as usize
    } else if flushes <= 4 {
        3
    } else if flushes <= 8 {
        4
    } else if flushes <= 16 {
        5
    } else {
        6
    }
}

// Notes what the thread has flushed, or that it fences.
pub(crate) fn note(waits: &mut [u64; 256], fences: &mut FenceSizes, thread: u8, op: Op)
    requires table { length waits.old ≡ 256 }
    requires size { length fences.old.bars ≡ 7 }
    requires small { AreSmall waits.old fences.old }
    ensures waits { waits.new ≡ waiting_after thread op waits.old }
    ensures fences { fences.new ≡ sizes_after thread op waits.old fences.old }
{
    match op {
        Op::Clwb(_) | Op::ClflushOpt(_) => waits[thread as usize] += 1,
        Op::Sfence | Op::Mfence => {
            fences.add(waits[thread as usize]);
            waits[thread as usize] = 0;
        }
        Op::Store(_) | Op::Clflush(_) | Op::IsPersist(_) | Op::IsOrderedBefore(_, _) => {}
    }
}
