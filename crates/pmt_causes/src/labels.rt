//! The labels of events.

ghost use Rattle.std.specs.Prelude.{◌≡◌};
ghost use Rattle.pmt_causes.specs.Groups.{label_of as label_in};

// The number of the event's label, if it has one.
pub(crate) fn label_of(labels: &[Option<u64>], event: u64) -> Option<u64>
    ensures { result ≡ label_in labels.now event }
{
    let index = event.checked_sub(1)?;
    labels.get(index as usize).copied()?
}
