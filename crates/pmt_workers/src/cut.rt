//! Where jobs are cut in two.
ghost use Rattle.std.specs.Prelude.{◌≡◌, ◌<◌, ◌^◌};
ghost use Rattle.pmt_workers.specs.Answering.{steps_of, apart, IsFairCut};

use pmt_lines::LineJob;

// How many of the jobs the first part takes, so that the steps of the two parts are nearest to equal.
pub(crate) fn fair_cut(jobs: &[LineJob]) -> usize
    ensures { IsFairCut jobs.now result }
{
    let total = steps_in(jobs);
    let mut front: u128 = 0;
    let mut best = 0;
    let mut least = total;
    for i in 0..jobs.len() {
        front += jobs[i].steps().len() as u128;
        let gap = gap_between(front, total - front);
        if gap < least {
            best = i + 1;
            least = gap;
        }
    }
    best
}

// How far the numbers are apart.
fn gap_between(m: u128, n: u128) -> u128
    ensures { result ≡ apart m n }
{
    if m < n { n - m } else { m - n }
}

// The steps of all these jobs.
fn steps_in(jobs: &[LineJob]) -> u128
    ensures total { result ≡ steps_of jobs.now }
    ensures few { result < 2 ^ 128 }
{
    let mut steps: u128 = 0;
    for i in 0..jobs.len() {
        steps += jobs[i].steps().len() as u128;
    }
    steps
}
