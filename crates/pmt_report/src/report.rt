//! The report of an analysis.
ghost use Rattle.std.specs.Prelude.{◌≡◌, ◌++◌, ◌+◌, ◌-◌, ◌^◌, ◌<◌, ◌≤◌, ℕ, List, Option, length, IfOk, OnOk};
ghost use Rattle.pmt_text.specs.Counting.{inner_device, failure_count};
ghost use Rattle.pmt_report.specs.Runs.{IsPut, PutsOn, WritesReport, write_faults};
ghost use Rattle.pmt_report.specs.Reports.{entries, report};

use crate::chunks::Chunks;
use crate::entry::{spell_end, spell_head, spell_next, spelled};
use crate::fault::RunError;
use pmt_model::{OutOfMemory, Verdict};
use pmt_sweep::Noted;
use pmt_text::Counted;
use pmt_text::line_text::LINE_ROOM;
use std::alloc::Global;
use std::io::Write;

// The report of so many events in so many lines, with these findings and verdicts, where so many events are kept.
pub(crate) fn report_of(
    alloc: Global,
    events: u64,
    lines: u64,
    findings: &[Noted],
    verdicts: &[Verdict],
    kept: u64,
) -> Result<Vec<u8>, OutOfMemory>
    ensures { IfOk result (λ text. text.items ≡ report events lines findings.now verdicts.now kept) }
{
    let mut text = Vec::new(alloc);
    let mut line = [0; LINE_ROOM];
    let start = spell_head(&mut line, events, lines);
    text.extend_from_slice(spelled(&line, start))?;
    push_entries(&mut text, findings, verdicts)?;
    let start = spell_end(&mut line, events, kept);
    text.extend_from_slice(spelled(&line, start))?;
    Ok(text)
}

// Adds the entries, by event number.
fn push_entries(
    text: &mut Vec<u8>,
    findings: &[Noted],
    verdicts: &[Verdict],
) -> Result<(), OutOfMemory>
    ensures { OnOk result (text.new.items ≡ text.old.items ++ entries findings.now verdicts.now) }
{
    let mut line = [0; LINE_ROOM];
    let mut findings = findings;
    let mut verdicts = verdicts;
    while findings.len() > 0 || verdicts.len() > 0 {
        let (start, later_findings, later_verdicts) = spell_next(&mut line, findings, verdicts);
        findings = later_findings;
        verdicts = later_verdicts;
        text.extend_from_slice(spelled(&line, start))?;
    }
    Ok(())
}

// More entries than this have no room in memory.
const MOST_ENTRIES: usize = 1 << 48;

// Writes that report, and flushes once. All the memory that it needs is asked for before the first byte is out.
pub(crate) fn write_report<W: Write>(
    alloc: Global,
    writer: &mut Counted<W>,
    events: u64,
    lines: u64,
    findings: &[Noted],
    verdicts: &[Verdict],
    kept: u64,
) -> Result<(), RunError>
    requires writes { failure_count writer.old < 2 ^ 64 - 1 }
    ensures written { WritesReport (W.contents (inner_device writer.old)) (W.contents (inner_device writer.new)) (report events lines findings.now verdicts.now kept) result }
    ensures failures { failure_count writer.new ≡ failure_count writer.old + write_faults result }
{
    if findings.len() > MOST_ENTRIES || verdicts.len() > MOST_ENTRIES {
        return Err(RunError::OutOfMemory);
    }
    let Ok(mut chunks) = Chunks::new(alloc) else {
        return Err(RunError::OutOfMemory);
    };
    let mut line = [0; LINE_ROOM];
    let start = spell_head(&mut line, events, lines);
    if let Err(fault) = chunks.put(writer, spelled(&line, start)) {
        return Err(fault);
    }
    if let Err(fault) = write_entries(&mut chunks, writer, findings, verdicts) {
        return Err(fault);
    }
    let start = spell_end(&mut line, events, kept);
    if let Err(fault) = chunks.put(writer, spelled(&line, start)) {
        return Err(fault);
    }
    chunks.finish(writer)
}

// Writes the entries, by event number.
fn write_entries<W: Write>(
    chunks: &mut Chunks,
    writer: &mut Counted<W>,
    findings: &[Noted],
    verdicts: &[Verdict],
) -> Result<(), RunError>
    requires writes { failure_count writer.old < 2 ^ 64 - 1 }
    requires some { length findings.now ≤ 2 ^ 48 }
    requires few { length verdicts.now ≤ 2 ^ 48 }
    requires text { (before : Option (List ℕ)) × (text : List ℕ) × IsPut before (W.contents (inner_device writer.old)) text chunks.old × (length text ≤ 128) }
    ensures put { (before : Option (List ℕ)) (text : List ℕ) → length text ≤ 128 → IsPut before (W.contents (inner_device writer.old)) text chunks.old → PutsOn before (W.contents (inner_device writer.new)) (text ++ entries findings.now verdicts.now) result chunks.new }
    ensures bound { OnOk result (length (entries findings.now verdicts.now) ≤ 2 ^ 60) }
    ensures failures { failure_count writer.new ≡ failure_count writer.old + write_faults result }
{
    let mut line = [0; LINE_ROOM];
    let mut findings = findings;
    let mut verdicts = verdicts;
    while findings.len() > 0 || verdicts.len() > 0 {
        let (start, later_findings, later_verdicts) = spell_next(&mut line, findings, verdicts);
        findings = later_findings;
        verdicts = later_verdicts;
        if let Err(fault) = chunks.put(writer, spelled(&line, start)) {
            return Err(fault);
        }
    }
    Ok(())
}
