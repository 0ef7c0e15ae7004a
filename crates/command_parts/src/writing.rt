//! What takes the parts: it writes the files of each.
ghost use Rattle.std.specs.Prelude.{[]};
ghost use Rattle.command_parts.specs.Counting.{IsCounted};

use crate::carried::check_carried;
use crate::files::{Turn, Written, write_part};
use crate::labels::PartLabels;
use command_inputs::{Fault, Opener};
use command_requests::PartsWords;
use pmt_asked::Cut;
use pmt_parts::{Part, PartTaker};
use std::alloc::Global;
use std::io::Read;

/// What stands beside the whole trace.
#[derive(Drop)]
pub(crate) struct Beside<'a, R> {
    /// Its labels.
    pub(crate) labels: PartLabels<'a, R>,
    /// Where and why it was cut; none where it was not.
    pub(crate) cut: Option<Cut>,
    /// The text of what it lacks besides; none where that is nothing.
    pub(crate) missing: Option<Vec<u8>>,
}

/// The files of the parts.
#[derive(Drop)]
pub(crate) struct PartFiles<'a, O, R> {
    words: &'a PartsWords<'a>,
    files: &'a O,
    beside: Beside<'a, R>,
    /// What was written by now.
    pub(crate) written: Written,
}

impl<'a, O: Opener, R: Read + Drop> PartFiles<'a, O, R> {
    /// None is written yet.
    pub(crate) fn new(words: &'a PartsWords<'a>, files: &'a O, beside: Beside<'a, R>) -> Self
        ensures { IsCounted [] result.written }
    {
        PartFiles {
            words,
            files,
            beside,
            written: Written::default(),
        }
    }
}

impl<O: Opener, R: Read + Drop> PartTaker for PartFiles<'_, O, R> {
    ghost took = { λ parts is_last s. IsCounted parts s.written };

    type Fault = Fault;

    fn take(&mut self, alloc: Global, part: &Part, is_last: bool) -> Result<(), Fault> {
        let number = self.written.parts.saturating_add(1);
        let turn = Turn { number, is_last };
        self.beside.labels.read_to(alloc, part.end)?;
        self.written = write_part(
            alloc,
            self.words,
            self.files,
            &self.beside,
            part,
            &turn,
            self.written,
        )?;
        Ok(())
    }

    // It carries no more than half of the most events.
    fn begin(&mut self, alloc: Global, next: &Part) -> Result<(), Fault> {
        check_carried(alloc, self.words, next)?;
        self.beside.labels.keep(alloc, next.numbers.as_slice())?;
        Ok(())
    }
}
