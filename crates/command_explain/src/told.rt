//! What a page tells of the findings: as many of each kind as have room.

use crate::labels::size_on_page;
use command_requests::ExplainWords;
use pmt_asked::Labels;
use pmt_explain::SafePlaces;
use pmt_explain_json::{Lack, json_text};
use pmt_explanation::{Explanation, first};
use pmt_failures::{ShownFailure, shown_failures};
use pmt_model::OutOfMemory;
use pmt_page::explained_text;
use std::alloc::Global;

/// What stands beside the trace.
#[derive(Clone, Copy)]
pub struct Beside<'a> {
    /// The labels of its events.
    pub labels: &'a Labels,
    /// What it lacks.
    pub lacks: &'a [Lack],
}

// How many events the failed assertions of a page may take together: each takes a pass over those before it.
const MOST_PASSED: u64 = 10_000_000;

// So many failed assertions a page has in any case, if they have room.
const LEAST_FAILURES: usize = 10;

/// What is told of the trace in at most so many bytes on the page, as JSON: of each kind as many entries as the words name, or 1,000; where
/// these have no room 1,000, 100, 10 or 1 of each, or else the summary alone. If the words name no number, there are as many failed assertions
/// as have 10,000,000 events before them, counted for each, or ten. The explanation has those entries then, or more.
///
/// # Errors
/// Where memory was refused; what the explanation has then is not said.
pub fn told_within(
    alloc: Global,
    explanation: &mut Explanation,
    beside: Beside<'_>,
    words: &ExplainWords<'_>,
    most: usize,
) -> Result<Vec<u8>, OutOfMemory> {
    explanation.limit = words.page_limit.max(explanation.limit);
    explanation.failures = each_failure(alloc, explanation, words)?;
    let text = text_of(alloc, explanation, beside, words)?;
    if size_on_page(text.as_slice()) <= most {
        return Ok(text);
    }
    with_fewer(alloc, explanation, beside, words, text, most)
}

// The text, which has no room, with fewer entries of each kind.
fn with_fewer(
    alloc: Global,
    explanation: &mut Explanation,
    beside: Beside<'_>,
    words: &ExplainWords<'_>,
    mut text: Vec<u8>,
    most: usize,
) -> Result<Vec<u8>, OutOfMemory> {
    for limit in [1_000, 100, 10, 1, 0] {
        if limit < explanation.limit {
            explanation.limit = limit;
            explanation.failures.truncate(limit);
            text = text_of(alloc, explanation, beside, words)?;
            if size_on_page(text.as_slice()) <= most {
                break;
            }
        }
    }
    Ok(text)
}

// Each failed assertion that is asked for, in the place of the first one of each cause: on the page one goes from each to the next.
fn each_failure(
    alloc: Global,
    explanation: &Explanation,
    words: &ExplainWords<'_>,
) -> Result<Vec<ShownFailure>, OutOfMemory> {
    let safe = SafePlaces::of(alloc, explanation.analysis.trace())?;
    let asked = explanation.asked_failing.as_slice();
    let most = most_failures(explanation, words);
    shown_failures(alloc, &safe, first(asked, most))
}

// How many failed assertions the page has at most.
fn most_failures(explanation: &Explanation, words: &ExplainWords<'_>) -> usize {
    if words.is_limited {
        return explanation.limit;
    }
    let mut passed = 0u64;
    let mut count = 0usize;
    for number in explanation.asked_failing.as_slice() {
        passed = passed.saturating_add(*number);
        if passed > MOST_PASSED {
            break;
        }
        count = count.saturating_add(1);
    }
    explanation.limit.min(count.max(LEAST_FAILURES))
}

// What the explanation tells.
fn text_of(
    alloc: Global,
    explanation: &Explanation,
    beside: Beside<'_>,
    words: &ExplainWords<'_>,
) -> Result<Vec<u8>, OutOfMemory> {
    let lines = json_text(
        alloc,
        explanation,
        beside.labels,
        &words.options.choice,
        beside.lacks,
    )?;
    explained_text(alloc, lines.as_slice())
}
