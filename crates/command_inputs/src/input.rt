//! The input of a command.

/// What a person calls the input that has no name.
pub const STANDARD_INPUT: &str = "standard input";

/// The input of a command: the words that have it read, and its file.
#[derive(Clone, Copy)]
pub struct Input<'a> {
    /// The words after `pmtrim` that have a trace read from standard input, as `check`.
    pub words: &'a str,
    /// The file; none for standard input.
    pub file: Option<&'a str>,
}

impl<'a> Input<'a> {
    /// The file, or standard input where none is named, for these words.
    pub fn new(words: &'a str, file: Option<&'a str>) -> Self {
        Input { words, file }
    }

    /// What a person calls it.
    pub fn name(self) -> &'a str {
        self.file.unwrap_or(STANDARD_INPUT)
    }
}
