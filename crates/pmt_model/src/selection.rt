//! Selections of events.
ghost use Rattle.std.specs.Prelude.{◌≡◌, ◌==◌, length, Some, None, MatchResult};
ghost use Rattle.pmt_model.specs.Selections.{first_fall, IsRising};

use crate::fault::SelectionError;
use std::marker::Model;

/// Rising event numbers, from 1.
#[derive(Drop)]
pub struct Selection {
    numbers: Vec<u64>,
}

impl Model for Selection {
    ghost use Rattle.std.specs.Prelude.{ℕ, List};
    ghost use Rattle.pmt_model.specs.Selections.{IsRising};

    ghost Value = { List ℕ };

    ghost view = { λ s. s.numbers.items };

    ghost invariant = { λ s. IsRising 0 s.numbers.items };
}

impl Selection {
    /// A selection of these numbers.
    ///
    /// # Errors
    /// `SelectionError` at the first position, from 0, whose number is not greater than the one before it, the first being
    /// compared with 0. It hands the list back.
    pub fn from_numbers(numbers: Vec<u64>) -> Result<Self, SelectionError>
        ensures taken { MatchResult result (λ s. s ≡ numbers.items) (λ e. e.numbers.items ≡ numbers.items) }
        ensures judged { MatchResult result (λ s. first_fall 0 numbers.items ≡ None) (λ e. first_fall 0 numbers.items ≡ Some e.position) }
    {
        let mut low = 0;
        for position in 0..numbers.len() {
            if numbers[position] <= low {
                return Err(SelectionError { position, numbers });
            }
            low = numbers[position];
        }
        Ok(Selection { numbers })
    }

    /// How many numbers.
    pub fn len(&self) -> usize
        ensures { result ≡ length self.now }
    {
        self.numbers.len()
    }

    /// Whether there are none.
    pub fn is_empty(&self) -> bool
        ensures { result ≡ (length self.now == 0) }
    {
        self.numbers.is_empty()
    }

    /// The numbers, rising.
    pub fn numbers(&self) -> &[u64]
        ensures value { result.now ≡ self.now }
        ensures rising { IsRising 0 self.now }
    {
        self.numbers.as_slice()
    }
}
