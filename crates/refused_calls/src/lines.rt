//! The calls that trim and analyse a whole trace, and those of the jobs of single lines.

use crate::shape::Shape;
use crate::stop::{Stop, gave, given};
use pmt_lines::{Jobs, LineJob, run_line, split};
use pmt_model::NoGate;
use pmt_report::report_text;
use pmt_text::{ListSource, SourceError};
use pmt_trim::{line_kept, trim};
use pmt_workers::{AnalyseError, analyse_with};
use std::alloc::{AllocError, Global};
use std::thread::Threads;

/// Trims the trace.
pub fn trimmed(alloc: Global, shape: Shape) -> Result<(), Stop> {
    let trace = shape.trace(alloc)?;
    let (trimmed, selection) = given("trim", trim(alloc, &trace), AllocError)?;
    let is_whole = trimmed.len() as u64 == shape.kept();
    gave("trim", is_whole && shape.has_kept(&selection))
}

/// Takes the trace apart, runs the job of each line, and asks what is kept for it.
pub fn by_line(alloc: Global, shape: Shape) -> Result<(), Stop> {
    let trace = shape.trace(alloc)?;
    let answer = split(alloc, &mut ListSource::new(&trace));
    let jobs = given("split", answer, SourceError::OutOfMemory)?;
    gave("split", is_apart(&jobs, shape))?;
    run_all(alloc, jobs.lines, shape)
}

/// Whether these can be the jobs of the trace, by their numbers.
pub fn is_apart(jobs: &Jobs, shape: Shape) -> bool {
    let flushes_and_fences = jobs.fences.steps().len() as u64;
    jobs.lines.len() as u64 == shape.lines_in_all()
        && flushes_and_fences == shape.flushes_and_fences()
}

// How often fronts are raised, and how many numbers are kept for all lines.
#[derive(Clone, Copy)]
struct Counts {
    raises: u64,
    kept: u64,
}

// A line is raised and kept by a flush and a fence each time.
fn run_all(alloc: Global, jobs: Vec<LineJob>, shape: Shape) -> Result<(), Stop> {
    let mut counts = Counts { raises: 0, kept: 0 };
    for job in jobs {
        run(alloc, job, &mut counts)?;
    }
    gave("run_line", counts.raises == shape.raises())?;
    gave("line_kept", counts.kept == 2 * shape.raises())
}

fn run(alloc: Global, job: LineJob, counts: &mut Counts) -> Result<(), Stop> {
    let found = given("run_line", run_line(alloc, job), AllocError)?;
    let kept = given("line_kept", line_kept(alloc, &found), AllocError)?;
    counts.raises = counts.raises.saturating_add(found.raises().len() as u64);
    counts.kept = counts.kept.saturating_add(kept.len() as u64);
    gave("run_line", found.findings().is_empty())
}

/// The analysis by two workers, and its report.
pub fn analysed<R: Threads + Sync>(rt: &R, alloc: Global, shape: Shape) -> Result<(), Stop> {
    let trace = shape.trace(alloc)?;
    let answer = analyse_with(rt, alloc, &NoGate, &mut ListSource::new(&trace), 2);
    let analysis = given("analyse_with", answer, AnalyseError::OutOfMemory)?;
    gave("analyse_with", shape.has_kept(analysis.selection()))?;
    let wanted = shape.report(alloc)?;
    let text = given("report_text", report_text(alloc, &analysis), AllocError)?;
    gave("report_text", text.as_slice() == wanted.as_bytes())
}
