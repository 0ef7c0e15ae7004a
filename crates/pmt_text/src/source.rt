//! Sources of events.
ghost use Rattle.std.specs.Prelude.{◌≡◌, ℕ, ◌+◌, ◌≤◌, List, Option, Some, None, IfOk, OnOk, OnErr, IfErr, IfSome, length};
ghost use Rattle.pmt_model.specs.Values.{Layout};
ghost use Rattle.pmt_model.specs.Traces.{event_limit};
ghost use Rattle.pmt_text.specs.Coming.{Coming};
ghost use Rattle.pmt_text.specs.Sources.{AreOf, TakesNext, TakesFormat, TellsNext, TellsFormat, KeepsFormat, IsGivenIn, IsOfFirstLine, IsOfLaterLine, LeavesFewer, LeavesUnknown, CountsReads, Lends, TakesReady, given_after};
ghost use Rattle.pmt_text.specs.declared.source.SourceState.{SourceState};

use crate::kind::SourceError;
use pmt_model::{Event, Format, OutOfMemory, Trace};

/// What a source has told.
#[derive(Clone, Copy, Debug, PartialEq, Eq)]
pub enum SourceState {
    /// Neither its end nor a fault.
    Open,
    /// Its end.
    Ended,
    /// This fault.
    Failed(SourceError),
}

/// A list of at most 1,000,000 events of one format, followed by an end or by one fault. A fault takes no event. After the end
/// `next` answers `None`; after a fault every call answers `Failed`.
pub trait EventSource {
    // What comes if no read fails and memory is found; None where that is not known.
    ghost coming: { Self → Option Coming };

    // What it told.
    ghost state: { Self → SourceState };

    // Its format, once it is known.
    ghost known_format: { Self → Option Layout };

    // How many events it gave.
    ghost given: { Self → ℕ };

    // At most so many events are still to come.
    ghost room: { Self → ℕ };

    // How many reads failed, where that is counted.
    ghost failures: { Self → Option ℕ } = { λ _. None };

    // That it has read no more of these bytes, which its reader gave at first, than it may, where it has a reader.
    ghost within: { Self → Option (List ℕ) → Type 0 } = { λ _ _. Unit {0} };

    // The line that it lends of the event given last; None where it lends none.
    ghost lent: { Self → Option (List ℕ) } = { λ _. None };

    /// The format of all its events. It takes none of them.
    ///
    /// # Errors
    /// A fault of line 1, `Read` where a read failed, `OutOfMemory`; `Failed` where it told a fault before.
    fn format(&mut self) -> Result<Format, SourceError>
        ensures told { TellsFormat (state self.old) result (state self.new) }
        ensures taken { TakesFormat (coming self.old) result (coming self.new) }
        ensures known { IfOk result (λ f. known_format self.new ≡ Some f) }
        ensures kept { KeepsFormat (known_format self.old) (known_format self.new) }
        ensures unknown { IfErr result (LeavesUnknown (known_format self.new)) }
        ensures first_line { IfErr result IsOfFirstLine }
        ensures given { given self.new ≡ given self.old }
        ensures room { room self.new ≡ room self.old }
        ensures within { (first : Option (List ℕ)) → within self.old first → within self.new first }
        ensures failures { CountsReads (failures self.old) result (failures self.new) };

    /// The next event, or None at the end.
    ///
    /// # Errors
    /// The fault that comes after its events, `Read` where a read failed, `OutOfMemory`; `Failed` where it told a fault before.
    fn next(&mut self) -> Result<Option<Event>, SourceError>
        ensures told { TellsNext (state self.old) result (state self.new) }
        ensures taken { TakesNext (coming self.old) result (coming self.new) }
        ensures in_format { IsGivenIn (known_format self.new) result }
        ensures kept { KeepsFormat (known_format self.old) (known_format self.new) }
        ensures later_line { IfErr result (IsOfLaterLine (known_format self.old)) }
        ensures given { given self.new ≡ given_after (given self.old) result }
        ensures room { LeavesFewer (room self.old) result (room self.new) }
        ensures within { (first : Option (List ℕ)) → within self.old first → within self.new first }
        ensures failures { CountsReads (failures self.old) result (failures self.new) }
        ensures lent { Lends result (lent self.new) };

    /// Puts events that come next at the end of the trace, as `next` would give them one by one, until it has `most`: those that need no read
    /// and are judged at once. A source may take none.
    ///
    /// # Errors
    /// Where memory was refused to the trace. The source stands as it did then.
    fn take_ready(&mut self, trace: &mut Trace, most: usize) -> Result<(), OutOfMemory>
        requires known { known_format self.old ≡ Some trace.old.format }
        requires roomy { length trace.old.events + room self.old ≤ event_limit }
        ensures taken { OnOk result (TakesReady (coming self.old) (coming self.new) (lent self.new) trace.old trace.new) }
        ensures few { OnOk result (length trace.old.events ≤ most → length trace.new.events ≤ most) }
        ensures given { OnOk result (given self.new + length trace.old.events ≡ given self.old + length trace.new.events) }
        ensures room { OnOk result (room self.new + length trace.new.events ≤ room self.old + length trace.old.events) }
        ensures state { state self.new ≡ state self.old }
        ensures format { known_format self.new ≡ known_format self.old }
        ensures within { (first : Option (List ℕ)) → within self.old first → within self.new first }
        ensures failures { failures self.new ≡ failures self.old }
        ensures refused { OnErr result (coming self.new ≡ coming self.old) }
        ensures refused_room { OnErr result (room self.new ≡ room self.old) }
    {
        Ok(())
    }

    /// The line of the event that `next` gave last, with its LF, or those of all events that `take_ready` put last, where the source has
    /// them at hand: each the one spelling of its event. A source may lend none. What it answers before the first event, after the end,
    /// after a fault or where `take_ready` put none is the line of no event.
    fn last_line(&self) -> Option<&[u8]>
        ensures { IfSome result (λ line. lent self.now ≡ Some line.now) }
    {
        None
    }

    // There is room for no more than a million.
    ghost few: { (s : Self) → room s ≤ event_limit };

    // What comes has that room.
    ghost listed: { (s : Self) → IfSome (coming s) (λ c. length c.events ≤ room s) };

    // What comes has the format that is known.
    ghost same_format: { (s : Self) → IfSome (coming s) (λ c. IfSome (known_format s) (λ f. c.format ≡ Some f)) };

    // All events that come are of the format that comes.
    ghost of_format: { (s : Self) → IfSome (coming s) (λ c. AreOf c.format c.events) };
}
