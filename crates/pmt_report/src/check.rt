//! The run that checks a trace, and what it tells of the analysis.
ghost use Rattle.std.specs.Prelude.{◌≡◌, ◌+◌, ◌-◌, ◌^◌, ◌<◌, ◌||◌, true, not, length, IfOk};
ghost use Rattle.std.specs.List.{list_any};
ghost use Rattle.pmt_text.specs.Coming.{byte_limit};
ghost use Rattle.pmt_text.specs.Counting.{failure_count, inner_device};
ghost use Rattle.pmt_text.specs.ScriptInputs.{ReadsWithin};
ghost use Rattle.pmt_tables.specs.Flags.{marked_from};
ghost use Rattle.pmt_analysis.specs.Analysing.{is_worker_count};
ghost use Rattle.pmt_report.specs.Runs.{WritesReport, coming_from_reader, run_read_faults, tells_workers, write_faults};
ghost use Rattle.pmt_report.specs.Checks.{TellsCheck, has_failed, is_failure, is_loss, report_for, unanswered};
ghost use Rattle.pmt_report.specs.Reports.{report};

use crate::checked::{CheckedTrace, checked};
use crate::fault::RunError;
use crate::report::{report_of, write_report};
use pmt_analysis::Analysis;
use pmt_model::{Finding, OutOfMemory, Verdict};
use pmt_sweep::{Noted, Swept, all_noted};
use pmt_tables::marked_count;
use pmt_text::Counted;
use std::alloc::Global;
use std::io::{Read, Write};
use std::thread::Threads;

/// Writes the report of the trace whose text the reader gives, and tells whether a verdict fails or a store is never persisted: both are
/// of one analysis of that trace, the same for every number of workers. One thread reads and sweeps. The reader is handed back.
///
/// # Errors
/// In this order: `BadWorkers` unless there are 1, 2, 4, 8 or 16, in which case nothing is read; `Text`, `TooMany` and `Read` as
/// the bytes come, `OutOfMemory`; nothing is written then. `Write` where a write or the last flush failed.
pub fn run_check<T: Threads + Sync, R: Read, W: Write>(
    _rt: &T,
    alloc: Global,
    workers: usize,
    reader: Counted<R>,
    writer: &mut Counted<W>,
) -> (Counted<R>, Result<bool, RunError>)
    requires reads { failure_count reader < 2 ^ 64 - 1 }
    requires writes { failure_count writer.old < 2 ^ 64 - 1 }
    ensures workers { tells_workers result.1 ≡ not (is_worker_count workers) }
    ensures unread { tells_workers result.1 ≡ true → result.0 ≡ reader }
    ensures told { TellsCheck (coming_from_reader (R.remaining (inner_device reader))) (W.contents (inner_device writer.old)) (W.contents (inner_device writer.new)) result.1 }
    ensures within { ReadsWithin (byte_limit + 1) (R.remaining (inner_device reader)) (R.remaining (inner_device result.0)) }
    ensures read_failures { failure_count result.0 ≡ failure_count reader + run_read_faults result.1 }
    ensures write_failures { failure_count writer.new ≡ failure_count writer.old + write_faults result.1 }
{
    let (reader, found) = checked(alloc, workers, reader);
    match found {
        Ok(checked) => {
            let done = write_found(alloc, writer, &checked);
            (reader, answered(done, is_failed(&checked.swept)))
        }
        Err(error) => (reader, Err(error)),
    }
}

// Writes the report of what was found.
fn write_found<W: Write>(
    alloc: Global,
    writer: &mut Counted<W>,
    checked: &CheckedTrace,
) -> Result<(), RunError>
    requires writes { failure_count writer.old < 2 ^ 64 - 1 }
    ensures written { WritesReport (W.contents (inner_device writer.old)) (W.contents (inner_device writer.new)) (report checked.now.events checked.now.swept.lines checked.now.swept.findings.items checked.now.swept.verdicts.items (length (marked_from 0 checked.now.swept.kept.items))) result }
    ensures failures { failure_count writer.new ≡ failure_count writer.old + write_faults result }
{
    let swept = &checked.swept;
    write_report(
        alloc,
        writer,
        checked.events,
        swept.lines as u64,
        swept.findings.as_slice(),
        swept.verdicts.as_slice(),
        marked_count(swept.kept.as_slice()) as u64,
    )
}

// Whether a verdict fails or a store is never persisted.
fn is_failed(swept: &Swept) -> bool
    ensures { result ≡ (list_any is_failure swept.now.verdicts.items || list_any is_loss swept.now.findings.items) }
{
    some_fails(swept.verdicts.as_slice()) || some_noted_is_lost(swept.findings.as_slice())
}

// The answer, where all went well.
fn answered(done: Result<(), RunError>, failed: bool) -> Result<bool, RunError>
    ensures same { unanswered result ≡ done }
    ensures answer { IfOk result (λ answer. answer ≡ failed) }
{
    match done {
        Ok(()) => Ok(failed),
        Err(error) => Err(error),
    }
}

/// The report of the analysis: how many events and lines there are, an entry for each finding and each verdict by event number, and
/// how many events are kept.
///
/// # Errors
/// Where memory was refused.
pub fn report_text(alloc: Global, analysis: &Analysis) -> Result<Vec<u8>, OutOfMemory>
    ensures { IfOk result (λ text. text.items ≡ report_for analysis.now) }
{
    let findings = all_noted(alloc, analysis.findings())?;
    report_of(
        alloc,
        analysis.trace().len() as u64,
        analysis.lines() as u64,
        findings.as_slice(),
        analysis.verdicts(),
        analysis.selection().len() as u64,
    )
}

/// Whether a verdict of the analysis fails or a store is never persisted.
pub fn failed(analysis: &Analysis) -> bool
    ensures { result ≡ has_failed analysis.now }
{
    some_fails(analysis.verdicts()) || some_is_lost(analysis.findings())
}

// Whether one of the verdicts fails.
fn some_fails(verdicts: &[Verdict]) -> bool
    ensures { result ≡ list_any is_failure verdicts.now }
{
    verdicts.iter().any(|verdict| !verdict.pass)
}

// Whether one of the findings is a store that is never persisted.
fn some_is_lost(findings: &[Finding]) -> bool
    ensures { result ≡ list_any is_loss findings.now }
{
    findings.iter().any(|finding| is_lost(*finding))
}

// The same, of findings in eight bytes.
fn some_noted_is_lost(findings: &[Noted]) -> bool
    ensures { result ≡ list_any is_loss findings.now }
{
    findings.iter().any(|noted| is_lost(noted.finding()))
}

// Whether the finding is a store that is never persisted.
fn is_lost(finding: Finding) -> bool
    ensures { result ≡ is_loss finding }
{
    match finding {
        Finding::NeverPersisted {
            event: _,
            flushed: _,
        } => true,
        Finding::Overwritten {
            earlier: _,
            later: _,
        } => false,
        Finding::RedundantFlush { event: _ } => false,
        Finding::FenceWithoutFlush { event: _ } => false,
    }
}
