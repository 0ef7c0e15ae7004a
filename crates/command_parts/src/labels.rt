//! The labels of a trace of any length, read beside it.

use crate::reading::piece_error;
use command_inputs::{Fault, Opener, label_of, opened};
use pmt_parts::Pieces;
use std::alloc::{AllocError, Global};
use std::collections::BTreeMap;
use std::io::Read;

// Labels by the numbers that their events have in the whole.
type Labels = BTreeMap<u64, String>;

/// The labels of the events of a part, and the file that has those of later ones.
#[derive(Drop)]
pub(crate) struct PartLabels<'a, R> {
    held: Labels,
    // none where no file is named
    file: Option<LabelFile<'a, R>>,
}

/// A labels file.
#[derive(Drop)]
struct LabelFile<'a, R> {
    name: &'a str,
    lines: Pieces<R>,
    // how many lines were read
    number: u64,
    // the event of the line that was read last
    event: u64,
    // that line, with its LF
    line: Vec<u8>,
}

impl<'a, R: Read + Drop> PartLabels<'a, R> {
    /// No labels yet, of the named file, or of none.
    ///
    /// # Errors
    /// The fault of the file; `OutOfMemory`.
    pub(crate) fn open<O: Opener<Reader = R>>(
        alloc: Global,
        files: &O,
        name: Option<&'a str>,
    ) -> Result<Self, Fault> {
        let file = match name {
            Some(name) => Some(LabelFile {
                name,
                lines: Pieces::new(opened(alloc, files, name)?),
                number: 0,
                event: 0,
                line: Vec::new(alloc),
            }),
            None => None,
        };
        Ok(PartLabels {
            held: Labels::new(alloc),
            file,
        })
    }

    /// Whether a labels file is named.
    pub(crate) fn is_named(&self) -> bool {
        self.file.is_some()
    }

    /// Reads the labels of the events up to this one.
    ///
    /// # Errors
    /// The fault of the read, or of the first line that is refused; `OutOfMemory`.
    pub(crate) fn read_to(&mut self, alloc: Global, end: u64) -> Result<(), Fault> {
        let Some(file) = &mut self.file else {
            return Ok(());
        };
        file.read_to(alloc, &mut self.held, end)
    }

    /// Keeps the labels of these events alone.
    ///
    /// # Errors
    /// `OutOfMemory`.
    pub(crate) fn keep(&mut self, alloc: Global, numbers: &[u64]) -> Result<(), AllocError> {
        let mut kept = Labels::new(alloc);
        for number in numbers {
            if let Some(text) = self.held.get(number) {
                kept.insert(*number, text.clone()?)?;
            }
        }
        self.held = kept;
        Ok(())
    }

    /// The labels file of the part whose events have these numbers in the whole.
    ///
    /// # Errors
    /// `OutOfMemory`.
    pub(crate) fn text(&self, alloc: Global, numbers: &[u64]) -> Result<Vec<u8>, AllocError> {
        let mut text = Vec::new(alloc);
        for (index, number) in numbers.iter().enumerate() {
            if let Some(label) = self.held.get(number) {
                let (own, label) = (index as u64 + 1, label.as_str());
                let line = format!(in alloc; "{own} {label}\n")?;
                text.extend_from_slice(line.as_bytes())?;
            }
        }
        Ok(text)
    }
}

impl<R: Read> LabelFile<'_, R> {
    // Adds the labels of the events up to this one. The line of a later one waits.
    fn read_to(&mut self, alloc: Global, held: &mut Labels, end: u64) -> Result<(), Fault> {
        for _ in 0..u64::MAX {
            if self.line.is_empty() && !self.read_line(alloc)? {
                return Ok(());
            }
            if !self.take_line(alloc, held, end)? {
                return Ok(());
            }
        }
        Ok(())
    }

    // Reads the next line. False where there is none.
    fn read_line(&mut self, alloc: Global) -> Result<bool, Fault> {
        match self.lines.add_to(&mut self.line, 1) {
            Ok(()) => {
                self.number = self.number.saturating_add(1);
                Ok(!self.line.is_empty())
            }
            Err(error) => Err(piece_error(alloc, self.name, error)),
        }
    }

    // Adds the label of the line that was read, if its event comes by this one.
    fn take_line(&mut self, alloc: Global, held: &mut Labels, end: u64) -> Result<bool, Fault> {
        let line = self.line.as_slice();
        let (event, text) = label_of(alloc, self.name, self.number, line, self.event)?;
        if event > end {
            return Ok(false);
        }
        held.insert(event, String::from_str(alloc, text)?)?;
        self.event = event;
        self.line.clear();
        Ok(true)
    }
}
