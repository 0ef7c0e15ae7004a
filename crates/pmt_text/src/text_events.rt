//! One event, or the header, from a reader of lines.
ghost use Rattle.std.specs.Prelude.{◌≡◌, ◌≢◌, ◌+◌, ◌-◌, ◌^◌, ◌<◌, ◌≤◌, ℕ, List, Option, Some, None, IfOk, IfErr, OnSome};
ghost use Rattle.pmt_model.specs.Traces.{event_limit};
ghost use Rattle.pmt_text.specs.Counting.{failure_count};
ghost use Rattle.pmt_text.specs.Lines.{IsEventAt, IsLineAt, last_line};
ghost use Rattle.pmt_text.specs.Sources.{TakesNext, IsGivenIn, IsOfFirstLine, IsOfLaterLine, Lends, given_after, read_faults};
ghost use Rattle.pmt_text.specs.TextSources.{coming_from, TakesHeader};
ghost use Rattle.pmt_text.specs.Coming.{fault_at};
ghost use Rattle.pmt_text.specs.Within.{HasRead, StaysWithin};

use crate::header::judge_header;
use crate::kind::{SourceError, TextError, TextKind};
use crate::line::judge_line;
use crate::line_reader::{Found, LineReader};
use pmt_model::{Event, Format};
use std::io::Read;

const EVENT_LIMIT: u64 = 1_000_000;

fn fault(line: u64, kind: TextKind) -> SourceError
    ensures { result ≡ fault_at line kind }
{
    SourceError::Text(TextError { line, kind })
}

/// The next event, where so many were given, or None at the end.
#[inline(always)]
pub(crate) fn next_event<R: Read>(
    lines: &mut LineReader<R>,
    format: Format,
    given: u64,
) -> Result<Option<Event>, SourceError>
    requires counted { failure_count lines.old.input < 2 ^ 64 - 1 }
    requires few { given ≤ event_limit }
    ensures taken { TakesNext (coming_from R.remaining (Some format) given lines.old) result (coming_from R.remaining (Some format) (given_after given result) lines.new) }
    ensures in_format { IsGivenIn (Some format) result }
    ensures below { IfOk result (λ o. OnSome o (given < event_limit)) }
    ensures later_line { IfErr result (IsOfLaterLine (Some format)) }
    ensures open { IfErr result (λ e. e ≢ SourceError.Failed) }
    ensures within { (first : Option (List ℕ)) → HasRead R.remaining first lines.old → StaysWithin R.remaining first result lines.new }
    ensures failures { failure_count lines.new.input ≡ failure_count lines.old.input + read_faults result }
    ensures lent { Lends result (last_line lines.new) }
{
    if let Some((event, len)) = lines.plain_event(format) {
        return give_event(lines, len, format, given, event);
    }
    match lines.find_line() {
        Ok(Found::Line(len)) => take_event(lines, len, format, given),
        Ok(Found::End) => {
            if lines.is_empty() {
                Ok(None)
            } else {
                Err(fault(2 + given, TextKind::Truncated))
            }
        }
        Ok(Found::More) => unreachable!(),
        Err(e) => Err(e),
    }
}

// The event of the line that was found.
fn take_event<R: Read>(
    lines: &mut LineReader<R>,
    len: usize,
    format: Format,
    given: u64,
) -> Result<Option<Event>, SourceError>
    requires found { IsLineAt lines.old len }
    requires few { given ≤ event_limit }
    ensures taken { TakesNext (coming_from R.remaining (Some format) given lines.old) result (coming_from R.remaining (Some format) (given_after given result) lines.new) }
    ensures in_format { IsGivenIn (Some format) result }
    ensures below { IfOk result (λ o. OnSome o (given < event_limit)) }
    ensures later_line { IfErr result (IsOfLaterLine (Some format)) }
    ensures open { IfErr result (λ e. e ≢ SourceError.Failed) }
    ensures within { (first : Option (List ℕ)) → HasRead R.remaining first lines.old → StaysWithin R.remaining first result lines.new }
    ensures failures { failure_count lines.new.input ≡ failure_count lines.old.input + read_faults result }
    ensures lent { Lends result (last_line lines.new) }
{
    match judge_line(format, lines.line(len)) {
        Ok(event) => give_event(lines, len, format, given, event),
        Err(kind) => {
            lines.skip_line(len);
            Err(fault(2 + given, kind))
        }
    }
}

// Takes the line, which was judged the event.
#[inline(always)]
fn give_event<R: Read>(
    lines: &mut LineReader<R>,
    len: usize,
    format: Format,
    given: u64,
    event: Event,
) -> Result<Option<Event>, SourceError>
    requires found { IsEventAt format event lines.old len }
    requires few { given ≤ event_limit }
    ensures taken { TakesNext (coming_from R.remaining (Some format) given lines.old) result (coming_from R.remaining (Some format) (given_after given result) lines.new) }
    ensures in_format { IsGivenIn (Some format) result }
    ensures below { IfOk result (λ o. OnSome o (given < event_limit)) }
    ensures later_line { IfErr result (IsOfLaterLine (Some format)) }
    ensures open { IfErr result (λ e. e ≢ SourceError.Failed) }
    ensures within { (first : Option (List ℕ)) → HasRead R.remaining first lines.old → StaysWithin R.remaining first result lines.new }
    ensures failures { failure_count lines.new.input ≡ failure_count lines.old.input + read_faults result }
    ensures lent { Lends result (last_line lines.new) }
{
    lines.skip_line(len);
    if given == EVENT_LIMIT {
        return Err(fault(2 + given, TextKind::TooManyEvents));
    }
    Ok(Some(event))
}

/// The format that the first line tells.
pub(crate) fn read_header<R: Read>(lines: &mut LineReader<R>) -> Result<Format, SourceError>
    requires counted { failure_count lines.old.input < 2 ^ 64 - 1 }
    ensures taken { TakesHeader (coming_from R.remaining None 0 lines.old) result (λ f. coming_from R.remaining (Some f) 0 lines.new) }
    ensures first_line { IfErr result IsOfFirstLine }
    ensures open { IfErr result (λ e. e ≢ SourceError.Failed) }
    ensures within { (first : Option (List ℕ)) → HasRead R.remaining first lines.old → StaysWithin R.remaining first result lines.new }
    ensures failures { failure_count lines.new.input ≡ failure_count lines.old.input + read_faults result }
{
    match lines.find_line() {
        Ok(Found::Line(len)) => take_header(lines, len),
        Ok(Found::End) => Err(fault(1, TextKind::Truncated)),
        Ok(Found::More) => unreachable!(),
        Err(e) => Err(e),
    }
}

// The format of the header that was found.
fn take_header<R: Read>(lines: &mut LineReader<R>, len: usize) -> Result<Format, SourceError>
    requires found { IsLineAt lines.old len }
    ensures taken { TakesHeader (coming_from R.remaining None 0 lines.old) result (λ f. coming_from R.remaining (Some f) 0 lines.new) }
    ensures first_line { IfErr result IsOfFirstLine }
    ensures open { IfErr result (λ e. e ≢ SourceError.Failed) }
    ensures within { (first : Option (List ℕ)) → HasRead R.remaining first lines.old → StaysWithin R.remaining first result lines.new }
    ensures failures { failure_count lines.new.input ≡ failure_count lines.old.input + read_faults result }
{
    let judged = judge_header(lines.line(len));
    lines.skip_line(len);
    match judged {
        Some(format) => Ok(format),
        None => Err(fault(1, TextKind::BadHeader)),
    }
}
