//! Labels of events.
ghost use Rattle.std.specs.Prelude.{◌≡◌, ◌≢◌, ℕ, true, OnOk, OnErr, None, Some, option_map, string_bytes};
ghost use Rattle.pmt_asked.specs.Choosing.{label_of};

use crate::event_texts::EventTexts;
use pmt_model::OutOfMemory;
use std::alloc::Global;

/// What a recorder says of events, as `list.c:57 insert`, by the numbers of the events. Each text is kept once, and 4 bytes of each event up
/// to the last one that has a label.
#[derive(Drop)]
pub struct Labels {
    texts: EventTexts,
}

impl Labels {
    /// No labels.
    pub fn new(alloc: Global) -> Self
        ensures { (event : ℕ) → label_of result event ≡ None }
    {
        Labels {
            texts: EventTexts::new(alloc),
        }
    }

    /// Whether no event has a label.
    pub fn is_empty(&self) -> bool
        ensures { result ≡ true → (event : ℕ) → label_of self.now event ≡ None }
    {
        self.texts.is_empty()
    }

    /// Labels the event, in the place of a label that it has.
    ///
    /// # Errors
    /// `OutOfMemory`, also where there are 4,294,967,295 texts: the labels are unchanged then.
    pub fn insert(&mut self, alloc: Global, event: u64, text: &str) -> Result<(), OutOfMemory>
        ensures ok { OnOk result (label_of self.new event ≡ Some text.now) }
        ensures others { OnOk result ((other : ℕ) → other ≢ event → label_of self.new other ≡ label_of self.old other) }
        ensures err { OnErr result ((other : ℕ) → label_of self.new other ≡ label_of self.old other) }
    {
        self.texts.insert(alloc, event, text)
    }

    /// The label of the event.
    pub fn get(&self, event: u64) -> Option<&String>
        ensures { option_map (λ text. string_bytes text.now) result ≡ label_of self.now event }
    {
        self.texts.get(event)
    }
}
