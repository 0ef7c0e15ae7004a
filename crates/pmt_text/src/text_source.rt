//! The events of a reader's text, as a source.
ghost use Rattle.std.specs.Prelude.{◌≡◌, ◌≢◌, ◌+◌, ◌-◌, ◌^◌, ◌<◌, ◌≤◌, ℕ, List, Option, false, true, is_some, option_map, Some, IfErr};
ghost use Rattle.pmt_text.specs.Sources.{TakesNext, TellsNext, IsGivenIn, IsOfLaterLine, LeavesFewer, CountsReads, Lends, given_after};
ghost use Rattle.pmt_model.specs.Traces.{event_limit};
ghost use Rattle.pmt_text.specs.declared.source.SourceState.{SourceState};
ghost use Rattle.pmt_text.specs.declared.source.SourceState.TheVariants as states;
ghost use Rattle.pmt_text.specs.Counting.{failure_count, inner_device};
ghost use Rattle.pmt_text.specs.Coming.{byte_limit, judged_within};
ghost use Rattle.pmt_text.specs.ScriptInputs.{ReadsWithin};

use crate::counted::Counted;
use crate::kind::SourceError;
use crate::line_reader::LineReader;
use crate::source::{EventSource, SourceState};
use crate::text_events::{next_event, read_header};
use pmt_model::{Event, Format, OutOfMemory, Trace};
use std::alloc::Global;
use std::io::Read;

const EVENT_LIMIT: u64 = 1_000_000;

/// The events of the text that a reader gives. It reads pieces of at most 4096 bytes, and judges a complete line before it reads
/// on; bytes past the first 67,108,864 are not judged.
#[derive(Drop)]
pub struct TextSource<R> {
    lines: LineReader<R>,
    format: Option<Format>,
    given: u64,
    state: SourceState,
    ghost few: { given ≤ event_limit },
    ghost fresh: { is_some format ≡ false → given ≡ 0 },
    ghost known_at_end: { state ≡ states.Ended → is_some format ≡ true },
    ghost counted: { state ≡ states.Open → failure_count lines.input < 2 ^ 64 - 1 },
}

impl<R: Read> TextSource<R> {
    ghost use Rattle.pmt_text.specs.TextSources.{text_coming, text_state, text_input, text_format, text_given, text_room, text_failures, text_lent, text_within};

    /// The source of this reader's text.
    pub fn new(alloc: Global, input: Counted<R>) -> Self
        requires { failure_count input < 2 ^ 64 - 1 }
        ensures coming { text_coming R.remaining result ≡ option_map (judged_within byte_limit) (R.remaining (inner_device input)) }
        ensures state { text_state result ≡ states.Open }
        ensures input { text_input result ≡ input }
        ensures within { text_within R.remaining result (R.remaining (inner_device input)) }
    {
        TextSource {
            lines: LineReader::new(alloc, input),
            format: None,
            given: 0,
            state: SourceState::Open,
        }
    }

    /// The reader, with the count of its failed reads. What was read and not given is dropped.
    pub fn into_input(self) -> Counted<R>
        ensures input { result ≡ text_input self }
        ensures within { (first : Option (List ℕ)) → text_within R.remaining self first → ReadsWithin (byte_limit + 1) first (R.remaining (inner_device result)) }
    {
        let TextSource {
            lines,
            format: _,
            given: _,
            state: _,
        } = self;
        lines.into_input()
    }

    // The next event, where the format is known.
    #[inline(always)]
    fn next_in(&mut self, format: Format) -> Result<Option<Event>, SourceError>
        requires open { text_state self.old ≡ states.Open }
        requires known { text_format self.old ≡ Some format }
        ensures told { TellsNext states.Open result (text_state self.new) }
        ensures taken { TakesNext (text_coming R.remaining self.old) result (text_coming R.remaining self.new) }
        ensures in_format { IsGivenIn (Some format) result }
        ensures kept { text_format self.new ≡ Some format }
        ensures later_line { IfErr result (IsOfLaterLine (Some format)) }
        ensures given { text_given self.new ≡ given_after (text_given self.old) result }
        ensures room { LeavesFewer (text_room self.old) result (text_room self.new) }
        ensures within { (first : Option (List ℕ)) → text_within R.remaining self.old first → text_within R.remaining self.new first }
        ensures failures { CountsReads (text_failures self.old) result (text_failures self.new) }
        ensures lent { Lends result (text_lent self.new) }
    {
        match next_event(&mut self.lines, format, self.given) {
            Ok(Some(event)) => {
                self.given += 1;
                Ok(Some(event))
            }
            Ok(None) => {
                self.state = SourceState::Ended;
                Ok(None)
            }
            Err(e) => {
                self.state = SourceState::Failed(e);
                Err(e)
            }
        }
    }
}

impl<R: Read> EventSource for TextSource<R> {
    ghost use Rattle.pmt_text.specs.TextSources.{text_coming, text_state, text_format, text_given, text_room, text_failures, text_lent, text_within, text_few};
    ghost use Rattle.pmt_text.specs.TextSources.{text_listed, text_same_format, text_of_format};

    ghost coming = { text_coming R.remaining };

    ghost state = { text_state };

    ghost known_format = { text_format };

    ghost given = { text_given };

    ghost room = { text_room };

    ghost failures = { text_failures };

    ghost within = { text_within R.remaining };

    ghost lent = { text_lent };

    ghost few = { text_few };

    ghost listed = { text_listed R.remaining };

    ghost same_format = { text_same_format R.remaining };

    ghost of_format = { text_of_format R.remaining };

    fn format(&mut self) -> Result<Format, SourceError> {
        if let SourceState::Failed(_) = self.state {
            return Err(SourceError::Failed);
        }
        if let Some(format) = self.format {
            return Ok(format);
        }
        match read_header(&mut self.lines) {
            Ok(format) => {
                self.format = Some(format);
                Ok(format)
            }
            Err(e) => {
                self.state = SourceState::Failed(e);
                Err(e)
            }
        }
    }

    #[inline(always)]
    fn next(&mut self) -> Result<Option<Event>, SourceError> {
        match self.state {
            SourceState::Open => {}
            SourceState::Ended => return Ok(None),
            SourceState::Failed(_) => return Err(SourceError::Failed),
        }
        let format = match self.format {
            Some(format) => format,
            None => self.format()?,
        };
        self.next_in(format)
    }

    fn take_ready(&mut self, trace: &mut Trace, most: usize) -> Result<(), OutOfMemory> {
        match self.state {
            SourceState::Open => {}
            SourceState::Ended | SourceState::Failed(_) => return Ok(()),
        }
        let before = trace.len();
        let room = (EVENT_LIMIT - self.given) as usize;
        self.lines.take_plain(most.min(before + room), trace)?;
        self.given += (trace.len() - before) as u64;
        Ok(())
    }

    fn last_line(&self) -> Option<&[u8]> {
        self.lines.last_line()
    }
}
