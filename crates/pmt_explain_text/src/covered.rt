//! What assertions that pass say nothing of.

use pmt_causes::Origin;
use pmt_explanation::Summary;
use pmt_pen::Pen;
use pmt_telling::{Bytes, Made, Telling, push_sites, push_wrapped};
use std::collections::HashMap;

// The columns before further lines.
const FURTHER: u64 = 4;

// Adds what no assertion speaks of, where none fails.
pub(crate) fn push_not_covered(pen: &mut Pen, told: &Telling<'_>, counts: &Summary) -> Made<()> {
    if counts.stores == 0 || counts.failing > 0 || counts.assertions == 0 {
        return Ok(());
    }
    let unwritten = told.explanation.unwritten.as_slice();
    if let Some(first) = unwritten.first() {
        push_such(pen, told, EMPTY, unwritten.len() as u64, first.event);
    }
    push_wide(pen, told);
    push_unnamed(pen, told)
}

const EMPTY: &str = "% assertion~ on bytes that no store has written: a wrong address? First: $.";

const WIDE: &str =
    "% order~ with a second range in several cache lines: a crash can keep a part of it. First: $.";

const UNNAMED: &str = "No assertion names what % of % sites store: ";

// Adds, by this form, how many such assertions there are, and the first of them.
fn push_such(pen: &mut Pen, told: &Telling<'_>, form: &str, count: u64, first: u64) {
    push_wrapped(pen, &told.said(form, &[count, first]), FURTHER);
}

// Adds how many orders have a second range in several cache lines, if some have.
fn push_wide(pen: &mut Pen, told: &Telling<'_>) {
    let verdicts = told.explanation.analysis.verdicts().iter();
    let mut wide = verdicts.filter(|verdict| is_wide(told, verdict.event));
    if let Some(first) = wide.next() {
        let count = (wide.count() as u64).saturating_add(1);
        push_such(pen, told, WIDE, count, first.event);
    }
}

// Whether the event is an order whose second range has bytes of several cache lines.
fn is_wide(told: &Telling<'_>, number: u64) -> bool {
    let size = told.trace.format().line_size();
    let range = told.second_range(number);
    range.is_some_and(|range| range.start / size != range.end.saturating_sub(1) / size)
}

// Adds the sites that store no byte which an assertion names.
fn push_unnamed(pen: &mut Pen, told: &Telling<'_>) -> Made<()> {
    let named = named_sites(told)?;
    let places = told.explanation.places.iter();
    let storing = places.filter(|row| row.stores > 0).map(|row| row.place);
    let storing: Vec<Origin> = storing.collect(told.alloc)?;
    let unnamed = storing.iter().filter(|place| !named.contains_key(*place));
    let sites: Vec<Origin> = unnamed.copied().collect(told.alloc)?;
    if !sites.is_empty() {
        let mut line = told.said(UNNAMED, &[sites.len() as u64, storing.len() as u64]);
        push_sites(&mut line, told, sites.as_slice());
        line.put(".");
        push_wrapped(pen, &line, FURTHER);
    }
    Ok(())
}

// The sites that store a byte which an assertion names.
fn named_sites(told: &Telling<'_>) -> Made<HashMap<Origin, bool>> {
    let spans = named_spans(told)?;
    let mut named: HashMap<Origin, bool> = HashMap::new(told.alloc);
    for number in 1..told.end() {
        if let Some(stored) = told.stored(number) {
            let before = spans.partition_point(|span| span.start < stored.end);
            let span = spans.get(before.saturating_sub(1));
            if before > 0 && span.is_some_and(|span| stored.start < span.end) {
                named.insert(told.origin(number), true)?;
            }
        }
    }
    Ok(named)
}

// The bytes that assertions name, by rising start; each with the end of these or of any before.
fn named_spans(told: &Telling<'_>) -> Made<Vec<Bytes>> {
    let mut spans = Vec::new(told.alloc);
    for verdict in told.explanation.analysis.verdicts() {
        if let Some(range) = told.first_range(verdict.event) {
            spans.push(range)?;
        }
        if let Some(range) = told.second_range(verdict.event) {
            spans.push(range)?;
        }
    }
    spans.sort_unstable_by_key(|span| span.start);
    let mut end = 0u64;
    for span in spans.as_mut_slice() {
        end = end.max(span.end);
        span.end = end;
    }
    Ok(spans)
}
