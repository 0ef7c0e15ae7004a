//! The lines of a report, each spelled from its end to its front.
ghost use Rattle.std.specs.Prelude.{◌≡◌, ◌+◌, ◌-◌, ◌++◌, ◌≤◌, length, drop, codes};
ghost use Rattle.pmt_text.specs.Spelling.{Puts, numeral};
ghost use Rattle.pmt_report.specs.Reports.{entries, finding_entry, finding_line, flushed_word, is_before, assertion_word, verdict_entry, verdict_word, report_end, report_head};

use pmt_model::{Finding, Verdict};
use pmt_sweep::Noted;
use pmt_text::line_text::{LINE_ROOM, put, put_decimal, put_word};

// Spells the first line of a report, and answers where it begins; so do the others.
pub(crate) fn spell_head(line: &mut [u8; LINE_ROOM], events: u64, lines: u64) -> usize
    ensures within { result ≤ 128 }
    ensures told { drop result line.new ≡ report_head events lines }
{
    let at = put(line, LINE_ROOM, b'\n');
    let at = put_decimal(line, at, lines);
    let at = put_word(line, at, b" lines ");
    let at = put_decimal(line, at, events);
    put_word(line, at, b"events ")
}

// Spells the last line of a report.
pub(crate) fn spell_end(line: &mut [u8; LINE_ROOM], events: u64, kept: u64) -> usize
    ensures within { result ≤ 128 }
    ensures told { drop result line.new ≡ report_end events kept }
{
    let dropped = events.saturating_sub(kept);
    let at = put(line, LINE_ROOM, b'\n');
    let at = put_decimal(line, at, dropped);
    let at = put_word(line, at, b" dropped ");
    let at = put_decimal(line, at, kept);
    put_word(line, at, b"kept ")
}

// What was spelled from there on.
#[inline(always)]
pub(crate) fn spelled(line: &[u8; LINE_ROOM], start: usize) -> &[u8]
    requires { start ≤ 128 }
    ensures is { result.now ≡ drop start line.now }
    ensures short { length result.now ≤ 128 }
{
    &line[start..]
}

// Spells the next entry, and answers where it begins, and which findings and verdicts are left. Where none is left it spells nothing.
#[inline(always)]
pub(crate) fn spell_next<'a>(
    line: &mut [u8; LINE_ROOM],
    findings: &'a [Noted],
    verdicts: &'a [Verdict],
) -> (usize, &'a [Noted], &'a [Verdict])
    ensures within { result.0 ≤ 128 }
    ensures told { entries findings.now verdicts.now ≡ drop result.0 line.new ++ entries result.1.now result.2.now }
    ensures left { length result.1.now + length result.2.now ≡ length findings.now + length verdicts.now - 1 }
{
    if let [verdict, others @ ..] = verdicts {
        if is_before(verdict, findings) {
            let at = spell_verdict(line, verdict);
            return (at, findings, others);
        }
    }
    match findings {
        [finding, others @ ..] => {
            let at = spell_finding(line, finding.finding());
            (at, others, verdicts)
        }
        [] => (LINE_ROOM, findings, verdicts),
    }
}

// Whether the verdict stands before all of these findings, which are in report order.
#[inline(always)]
fn is_before(verdict: &Verdict, findings: &[Noted]) -> bool
    ensures { result ≡ is_before verdict.now findings.now }
{
    match findings {
        [first, ..] => verdict.event < first.event(),
        [] => true,
    }
}

// Spells the entry of a verdict.
#[inline(always)]
fn spell_verdict(line: &mut [u8; LINE_ROOM], verdict: &Verdict) -> usize
    ensures { Puts line.old 128 (verdict_entry verdict.now) 34 result line.new }
{
    let at = put(line, LINE_ROOM, b'\n');
    let at = put_word(line, at, word_of_verdict(verdict.pass));
    let at = put_decimal(line, at, verdict.event);
    put_word(line, at, word_of_assertion(verdict.ordered))
}

// Spells the entry of a finding.
#[inline(always)]
fn spell_finding(line: &mut [u8; LINE_ROOM], finding: Finding) -> usize
    ensures { Puts line.old 128 (finding_entry finding) 57 result line.new }
{
    let at = put(line, LINE_ROOM, b'\n');
    match finding {
        Finding::Overwritten { earlier, later } => put_overwritten(line, at, earlier, later),
        Finding::NeverPersisted { event, flushed } => put_lost(line, at, event, flushed),
        Finding::RedundantFlush { event } => put_event(line, at, b"redundant-flush ", event),
        Finding::FenceWithoutFlush { event } => put_event(line, at, b"fence-without-flush ", event),
    }
}

// Puts what is told of a store that is overwritten.
#[inline(always)]
fn put_overwritten(line: &mut [u8; LINE_ROOM], at: usize, earlier: u64, later: u64) -> usize
    requires room { 56 ≤ at }
    requires within { at ≤ 128 }
    ensures { Puts line.old at (finding_line (Finding.Overwritten earlier later)) 56 result line.new }
{
    let at = put_decimal(line, at, later);
    let at = put_word(line, at, b" by ");
    let at = put_decimal(line, at, earlier);
    put_word(line, at, b"overwritten ")
}

// Puts what is told of a store that is never persisted.
#[inline(always)]
fn put_lost(line: &mut [u8; LINE_ROOM], at: usize, event: u64, flushed: bool) -> usize
    requires room { 56 ≤ at }
    requires within { at ≤ 128 }
    ensures { Puts line.old at (finding_line (Finding.NeverPersisted event flushed)) 56 result line.new }
{
    let at = put_word(line, at, word_of_flushed(flushed));
    put_event(line, at, b"never-persisted ", event)
}

// Puts a word of at most 20 bytes, and the number of an event.
#[inline(always)]
fn put_event(line: &mut [u8; LINE_ROOM], at: usize, word: &[u8], event: u64) -> usize
    requires few { length word.now ≤ 20 }
    requires room { 40 ≤ at }
    requires within { at ≤ 128 }
    ensures { Puts line.old at (word.now ++ numeral 10 event) 40 result line.new }
{
    let at = put_decimal(line, at, event);
    put_word(line, at, word)
}

#[inline(always)]
fn word_of_flushed(flushed: bool) -> &'static [u8]
    ensures word { result.now ≡ flushed_word flushed }
    ensures few { length result.now ≤ 8 }
{
    if flushed { b" flushed" } else { b" dirty" }
}

#[inline(always)]
fn word_of_assertion(ordered: bool) -> &'static [u8]
    ensures word { result.now ≡ assertion_word ordered }
    ensures few { length result.now ≤ 8 }
{
    if ordered { b"ordered " } else { b"persist " }
}

#[inline(always)]
fn word_of_verdict(pass: bool) -> &'static [u8]
    ensures word { result.now ≡ verdict_word pass }
    ensures few { length result.now ≤ 5 }
{
    if pass { b" pass" } else { b" fail" }
}
