//! The events of a trace in memory, as a source.
ghost use Rattle.std.specs.Prelude.{◌≡◌, ◌≤◌, true, length, Some};
ghost use Rattle.std.specs.List.{AllByRecursion};
ghost use Rattle.pmt_model.specs.Traces.{event_limit, IsEventIn};
ghost use Rattle.pmt_text.specs.JudgedEvents.{are_of_format_prop};

use crate::kind::SourceError;
use crate::source::EventSource;
use pmt_model::{Event, Format, Trace};

/// The events of a trace. It never fails.
#[derive(Drop)]
pub struct ListSource<'a> {
    trace: &'a Trace,
    given: usize,
    ended: bool,
    ghost few: { length trace.now.events ≤ event_limit },
    ghost of_format: { AllByRecursion (IsEventIn trace.now.format) trace.now.events } by { are_of_format_prop trace.now },
    ghost within: { given ≤ length trace.now.events },
    ghost at_end: { ended ≡ true → length trace.now.events ≤ given },
}

impl<'a> ListSource<'a> {
    ghost use Rattle.pmt_text.specs.declared.source.SourceState.{SourceState};
    ghost use Rattle.pmt_text.specs.Sources.{list_coming, list_state, rest_of_trace};

    /// The trace's events, from the first on.
    pub fn new(trace: &'a Trace) -> Self
        ensures coming { list_coming result ≡ Some (rest_of_trace trace.now 0) }
        ensures state { list_state result ≡ SourceState.Open }
    {
        let _few = trace.len();
        ListSource {
            trace,
            given: 0,
            ended: false,
        }
    }
}

impl EventSource for ListSource<'_> {
    ghost use Rattle.pmt_text.specs.Sources.{list_coming, list_state, list_format, list_given, list_room, list_few, list_listed, list_same_format, list_of_format};

    ghost coming = { list_coming };

    ghost state = { list_state };

    ghost known_format = { list_format };

    ghost given = { list_given };

    ghost room = { list_room };

    ghost few = { list_few };

    ghost listed = { list_listed };

    ghost same_format = { list_same_format };

    ghost of_format = { list_of_format };

    fn format(&mut self) -> Result<Format, SourceError> {
        Ok(self.trace.format())
    }

    fn next(&mut self) -> Result<Option<Event>, SourceError> {
        if self.given < self.trace.len() {
            self.given += 1;
            Ok(self.trace.get(self.given as u64))
        } else {
            self.ended = true;
            Ok(None)
        }
    }
}
