//! What the words ask for.

use crate::drawing::Drawing;
use crate::explaining::ExplainWords;
use crate::imaging::{ImageWords, ListWords};
use crate::measuring::StatWords;
use crate::parting::PartsWords;
use crate::slicing::SliceWords;
use std::alloc::{AllocError, Global};

/// What the words ask for.
#[derive(Drop)]
pub enum Request<'a> {
    /// This text: help, or the version.
    Show(String),
    /// A run over a trace, whose answer is fixed.
    Run(RunWords<'a>),
    /// What is wrong in a trace, why, and what to do.
    Explain(ExplainWords<'a>),
    /// The picture of a trace.
    Draw(Drawing<'a>),
    /// The pool's file as a crash leaves it.
    Image(ImageWords<'a>),
    /// The crashes near some places.
    ImageList(ListWords<'a>),
    /// The events that show a failed assertion.
    Slice(SliceWords<'a>),
    /// The figures of a trace.
    Stat(StatWords<'a>),
    /// The parts of a trace of any length.
    Parts(PartsWords<'a>),
    /// The trace that some scripts record.
    Record(RecordWords<'a>),
}

/// A run over a trace, by its answer.
#[derive(Clone, Copy)]
pub enum Run {
    /// The report.
    Check,
    /// The trimmed trace.
    Trim,
    /// The same, written while the trace is read.
    Stream,
    /// The fronts after so many events.
    Fronts(u64),
}

/// Which run is made, over which trace.
#[derive(Clone, Copy)]
pub struct RunWords<'a> {
    /// The run.
    pub run: Run,
    /// How many threads there may be.
    pub workers: usize,
    /// The trace; standard input, if none is given.
    pub file: Option<&'a str>,
    /// The file that is written; none for standard output.
    pub out: Option<&'a str>,
    /// Whether the reason stands below a fault's line.
    pub verbose: bool,
}

/// Which scripts are recorded.
#[derive(Drop)]
pub struct RecordWords<'a> {
    /// Their files, a thread each.
    pub scripts: Vec<&'a str>,
    /// The file that is written; none for standard output.
    pub out: Option<&'a str>,
    /// Whether the reason stands below a fault's line.
    pub verbose: bool,
}

impl<'a> Request<'a> {
    /// The file that is to be written in place of standard output, of a command that does not write one by itself.
    pub fn out(&self) -> Option<&'a str> {
        match self {
            Request::Run(words) => words.out,
            Request::Record(words) => words.out,
            _ => None,
        }
    }

    /// The files that such a command reads, where they are named.
    ///
    /// # Errors
    /// `AllocError` if memory was refused.
    pub fn inputs(&self, alloc: Global) -> Result<Vec<Option<&'a str>>, AllocError> {
        let mut names = Vec::new(alloc);
        match self {
            Request::Run(words) => names.push(words.file)?,
            Request::Record(words) => {
                for script in &words.scripts {
                    names.push(Some(*script))?;
                }
            }
            _ => {}
        }
        Ok(names)
    }

    /// The trace beside which its labels are taken, if a file stands there: where none is named, and it is not to go without.
    pub fn labels_beside(&self) -> Option<&'a str> {
        let (labels, no_labels, file) = match self {
            Request::Explain(words) => (words.labels, words.no_labels, words.file),
            Request::Draw(drawing) => (drawing.labels, drawing.no_labels, drawing.file),
            Request::Slice(words) if words.out.is_some() => (
                words.labels,
                words.no_labels,
                words.file,
            ),
            Request::Stat(words) => (words.labels, words.no_labels, words.file),
            _ => return None,
        };
        if labels.is_some() || no_labels {
            None
        } else {
            file
        }
    }

    /// Takes the labels of the file with this name.
    pub fn take_labels(&mut self, name: &'a str) {
        match self {
            Request::Explain(words) => words.labels = Some(name),
            Request::Draw(drawing) => drawing.labels = Some(name),
            Request::Slice(words) => words.labels = Some(name),
            Request::Stat(words) => words.labels = Some(name),
            _ => {}
        }
    }

    /// Whether standard input is read for it.
    pub fn reads_input(&self) -> bool {
        match self {
            Request::Run(words) => words.file.is_none(),
            Request::Explain(words) => words.file.is_none(),
            Request::Draw(drawing) => drawing.file.is_none(),
            Request::Image(words) => words.file.is_none(),
            Request::ImageList(words) => words.file.is_none(),
            Request::Slice(words) => words.file.is_none(),
            Request::Stat(words) => words.file.is_none(),
            Request::Parts(words) => words.file.is_none(),
            Request::Show(_) | Request::Record(_) => false,
        }
    }

    /// Whether the reason is to stand below the line of a fault that is fixed.
    pub fn is_verbose(&self) -> bool {
        match self {
            Request::Run(words) => words.verbose,
            Request::Record(words) => words.verbose,
            _ => false,
        }
    }
}
