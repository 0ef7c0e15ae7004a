//! Events taken from a source.
ghost use Rattle.std.specs.Prelude.{◌≡◌, ℕ, List, Option, IfErr, OnOk};
ghost use Rattle.pmt_model.specs.declared.event.Event.{Event as EventValue};
ghost use Rattle.pmt_text.specs.declared.source.SourceState.{SourceState};
ghost use Rattle.pmt_text.specs.Sources.{CountsReads};
ghost use Rattle.pmt_report.specs.Checks.{EndsAfter, IsTakingFault};

use pmt_text::{EventSource, SourceError};

// Takes all other events of the source, and drops them.
pub(crate) fn skip_events<S: EventSource>(source: &mut S) -> Result<(), SourceError>
    requires { S.state source.old ≡ SourceState.Open }
    ensures taken { OnOk result ((es : List EventValue) × EndsAfter (S.coming source.old) es) }
    ensures fault { IfErr result (IsTakingFault (S.coming source.old)) }
    ensures within { (first : Option (List ℕ)) → S.within source.old first → S.within source.new first }
    ensures failures { CountsReads (S.failures source.old) result (S.failures source.new) }
{
    'skip: loop {
        match source.next()? {
            Some(_) => {}
            None => return Ok(()),
        }
    }
}
