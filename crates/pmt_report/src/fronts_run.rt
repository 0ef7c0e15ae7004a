//! The run that writes the fronts of a trace at a place.
ghost use Rattle.std.specs.Prelude.{◌≡◌, ◌+◌, ◌-◌, ◌^◌, ◌<◌, ℕ, List, Option, IfOk, IfErr};
ghost use Rattle.pmt_text.specs.Coming.{Coming, byte_limit};
ghost use Rattle.pmt_text.specs.ScriptInputs.{ReadsWithin};
ghost use Rattle.pmt_text.specs.declared.source.SourceState.{SourceState};
ghost use Rattle.pmt_text.specs.Counting.{failure_count, inner_device};
ghost use Rattle.pmt_report.specs.Reports.{TakesLines};
ghost use Rattle.pmt_report.specs.Runs.{CountsRuns, IsComputed, IsFrontsAt, IsFrontsFault, Runs, coming_from_reader, run_read_faults, write_faults};

use crate::fault::{RunError, run_error};
use crate::first_lines::{TraceLines, first_lines, let_go};
use crate::fronts::fronts_of_lines;
use crate::output::write_answer;
use crate::taking::skip_events;
use pmt_taking::TakeError;
use pmt_text::{Counted, EventSource, TextSource};
use std::alloc::Global;
use std::io::{Read, Write};

/// Writes the fronts, at the place, of the trace whose text the reader gives. The reader is handed back.
///
/// # Errors
/// In this order: `Text`, `TooMany` and `Read` as the bytes come, `PastEnd` where the place lies past the events, `OutOfMemory`;
/// nothing is written then. `Write` where a write or the last flush failed.
pub fn run_fronts<R: Read, W: Write>(
    alloc: Global,
    place: u64,
    reader: Counted<R>,
    writer: &mut Counted<W>,
) -> (Counted<R>, Result<(), RunError>)
    requires reads { failure_count reader < 2 ^ 64 - 1 }
    requires writes { failure_count writer.old < 2 ^ 64 - 1 }
    ensures runs { Runs (IsFrontsAt place) (IsFrontsFault place) (coming_from_reader (R.remaining (inner_device reader))) (W.contents (inner_device writer.old)) (W.contents (inner_device writer.new)) result.1 }
    ensures within { ReadsWithin (byte_limit + 1) (R.remaining (inner_device reader)) (R.remaining (inner_device result.0)) }
    ensures read_failures { failure_count result.0 ≡ failure_count reader + run_read_faults result.1 }
    ensures write_failures { failure_count writer.new ≡ failure_count writer.old + write_faults result.1 }
{
    let mut source = TextSource::new(alloc, reader);
    let computed = fronts_of(alloc, place, &mut source);
    let reader = source.into_input();
    match computed {
        Ok(text) => (reader, write_answer(writer, text.as_slice())),
        Err(error) => (reader, Err(error)),
    }
}

// The fronts at the place of the trace that the source gives.
fn fronts_of<S: EventSource>(alloc: Global, place: u64, source: &mut S) -> Result<Vec<u8>, RunError>
    requires { S.state source.old ≡ SourceState.Open }
    ensures ok { IfOk result (λ text. IsComputed (IsFrontsAt place) (S.coming source.old) text.items) }
    ensures err { IfErr result (IsFrontsFault place (S.coming source.old)) }
    ensures within { (first : Option (List ℕ)) → S.within source.old first → S.within source.new first }
    ensures failures { CountsRuns (S.failures source.old) result (S.failures source.new) }
{
    match first_lines(alloc, source, place) {
        Ok(lines) => {
            let answer = fronts_past_first(alloc, place, source, &lines);
            let_go(lines);
            answer
        }
        Err(TakeError::Source(fault)) => Err(run_error(fault)),
        Err(TakeError::OutOfMemory) => Err(RunError::OutOfMemory),
    }
}

// The fronts at the place, where the source gave its first events, whose lines these are.
fn fronts_past_first<S: EventSource>(
    alloc: Global,
    place: u64,
    source: &mut S,
    lines: &TraceLines,
) -> Result<Vec<u8>, RunError>
    requires { (first : Option Coming) × TakesLines place first (S.coming source.old) SourceState.Open (S.state source.old) lines.now }
    ensures ok { (first : Option Coming) → TakesLines place first (S.coming source.old) SourceState.Open (S.state source.old) lines.now → IfOk result (λ text. IsComputed (IsFrontsAt place) first text.items) }
    ensures err { (first : Option Coming) → TakesLines place first (S.coming source.old) SourceState.Open (S.state source.old) lines.now → IfErr result (IsFrontsFault place first) }
    ensures within { (first : Option (List ℕ)) → S.within source.old first → S.within source.new first }
    ensures failures { CountsRuns (S.failures source.old) result (S.failures source.new) }
{
    let events = lines.events;
    if events < place {
        return Err(RunError::PastEnd { events });
    }
    match skip_events(source) {
        Ok(()) => {}
        Err(error) => return Err(run_error(error)),
    }
    match fronts_of_lines(alloc, lines) {
        Ok(text) => Ok(text),
        Err(_) => Err(RunError::OutOfMemory),
    }
}
