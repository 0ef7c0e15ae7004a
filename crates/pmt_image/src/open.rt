//! The lines with a store that a crash can lose.
ghost use Rattle.std.specs.Prelude.{◌≡◌, ◌==◌, ℕ, if◌then◌else◌, map, reverse, IfOk, OnOk};
ghost use Rattle.indexmap.specs.IndexMap.{keys};
ghost use Rattle.pmt_model.specs.Traces.{with_line};
ghost use Rattle.pmt_explain.specs.Crashes.{count_in};
ghost use Rattle.pmt_image.specs.Spans.{lines_of_spans, line_by, with_span};

use crate::spans::StoreSpan;
use indexmap::IndexMap;
use pmt_explain::LineCount;
use pmt_model::OutOfMemory;
use std::alloc::{AllocError, Global};

/// Open lines, by line.
type OpenLines = IndexMap<u64, LineCount>;

// The lines of the stores, which are all those at a place that a crash can lose: of each as persisted those before the first of them.
pub(crate) fn open_lines(alloc: Global, stores: &[StoreSpan]) -> Result<Vec<LineCount>, OutOfMemory>
    ensures { IfOk result (λ lines. lines.items ≡ map (line_by (reverse stores.now)) (lines_of_spans (reverse stores.now))) }
{
    let mut lines = IndexMap::new(alloc);
    for index in 0..stores.len() {
        let store = stores[index];
        add_store(&mut lines, store)?;
    }
    let list = listed(alloc, &lines)?;
    Ok(list)
}

// Counts one more store.
fn add_store(lines: &mut OpenLines, store: StoreSpan) -> Result<(), OutOfMemory>
    ensures lines { OnOk result (keys lines.new ≡ with_line store.line (keys lines.old)) }
    ensures each { OnOk result ((l : ℕ) → count_in lines.new l ≡ (if store.line == l then with_span store (count_in lines.old l) else count_in lines.old l)) }
{
    let old = count_of(lines, store.line);
    let persisted = if old.stores == 0 {
        store.rank.saturating_sub(1)
    } else {
        old.persisted
    };
    let new = LineCount {
        line: old.line,
        stores: store.rank,
        persisted,
    };
    match lines.insert(store.line, new) {
        Ok(_) => Ok(()),
        Err(_) => Err(AllocError),
    }
}

// The count of the line.
fn count_of(lines: &OpenLines, line: u64) -> LineCount
    ensures { result ≡ count_in lines.now line }
{
    match lines.get(&line) {
        Some(count) => *count,
        None => LineCount {
            line,
            stores: 0,
            persisted: 0,
        },
    }
}

// The counts in their order.
fn listed(alloc: Global, lines: &OpenLines) -> Result<Vec<LineCount>, OutOfMemory>
    ensures { IfOk result (λ list. list.items ≡ map (λ l. count_in lines.now l) (keys lines.now)) }
{
    lines
        .keys()
        .map(|line| count_of(lines, *line))
        .collect(alloc)
}
