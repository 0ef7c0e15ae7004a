//! How many workers may make an analysis.
ghost use Rattle.std.specs.Prelude.{◌≡◌};
ghost use Rattle.pmt_analysis.specs.Analysing.{is_worker_count};

/// Whether there may be this many workers.
pub fn are_allowed(workers: usize) -> bool
    ensures { result ≡ is_worker_count workers }
{
    matches!(workers, 1 | 2 | 4 | 8 | 16)
}
