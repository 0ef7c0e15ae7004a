//! What is left of what is known once a trace has ended.
ghost use Rattle.std.specs.Prelude.{ℕ};
ghost use Rattle.pmt_model.specs.Traces.{Recording};
ghost use Rattle.pmt_sweep.specs.Entries.{AreEndsOf};
ghost use Rattle.pmt_sweep.specs.Known.{IsKnownOf};

use crate::known::Known;
use pmt_rows::Rows;

/// Of each line of a trace its row, and of each event an entry, by its number, as those of `Links`.
#[derive(Drop)]
pub struct Ends {
    pub rows: Rows,
    pub entries: Vec<u32>,
}

impl Known {
    /// No more events come: the rows and the entries are handed out, and all else is let go.
    pub fn into_ends(self) -> Ends
        ensures { (T : Recording) (n : ℕ) → IsKnownOf T n self → AreEndsOf T n result.rows result.entries.items }
    {
        let Known {
            format: _,
            words_of_line: _,
            rows,
            words,
            links,
            flushed,
            waiting,
        } = self;
        drop(words);
        drop(flushed);
        drop(waiting);
        let entries = links.into_entries();
        Ends { rows, entries }
    }
}
