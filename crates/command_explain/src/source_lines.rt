//! The lines of a source file round those that labels name.

use crate::labels::size_quoted;
use command_inputs::{shown_source, split_line};
use std::alloc::{AllocError, Global};

// How many bytes the LF of a line has on a page.
const LF_SIZE: usize = 6;

/// The most bytes that a file, or lines that follow each other, have on a page besides their text.
pub const PART_SIZE: usize = 60;

// How many lines are shown before and behind one that is named.
const AROUND: u64 = 5;

/// Lines of a source file that follow each other.
#[derive(Drop)]
pub struct LinesPart {
    /// The place of the file among the files, from 0.
    pub file: u64,
    /// The number of the first line, from 1.
    pub first: u64,
    /// The lines, with LF between them.
    pub lines: String,
    // The number of the line behind the last one.
    next: u64,
}

/// Lines of source files, and how many more bytes of them there may be.
#[derive(Drop)]
pub struct Lines {
    /// The lines.
    pub parts: Vec<LinesPart>,
    // How many bytes names and lines may still have.
    room: usize,
    /// Whether all that was to be taken had room.
    pub is_all: bool,
}

impl Lines {
    /// No lines, with room for so many bytes.
    pub fn new(alloc: Global, room: usize) -> Self {
        Lines {
            parts: Vec::new(alloc),
            room,
            is_all: true,
        }
    }

    /// Takes so many bytes of the room. Says whether they were there; if not, none is left.
    pub fn take_room(&mut self, bytes: usize) -> bool {
        if bytes <= self.room {
            self.room -= bytes;
            return true;
        }
        self.room = 0;
        self.is_all = false;
        false
    }

    /// Takes the lines round those with these rising numbers out of the text of a file.
    ///
    /// # Errors
    /// Where memory was refused.
    pub fn take_file(
        &mut self,
        alloc: Global,
        file: u64,
        wanted: &[u64],
        text: &[u8],
    ) -> Result<(), AllocError> {
        let mut rest = text;
        let mut at = 0;
        for number in 1..=u64::MAX {
            if has_passed(wanted, at, number) {
                at = at.saturating_add(1);
            }
            let Some(line) = wanted.get(at).copied() else {
                return Ok(());
            };
            if rest.is_empty() {
                return Ok(());
            }
            let (text, later) = match split_line(rest) {
                Some(found) => found,
                None => (rest, b"".as_slice()),
            };
            if line <= number.saturating_add(AROUND)
                && !self.take_line(alloc, file, number, text)?
            {
                return Ok(());
            }
            rest = later;
        }
        Ok(())
    }

    // Takes a line. Says whether there was room for it.
    fn take_line(
        &mut self,
        alloc: Global,
        file: u64,
        number: u64,
        line: &[u8],
    ) -> Result<bool, AllocError> {
        let shown = shown_source(alloc, line)?;
        let size = size_quoted(shown.as_bytes());
        let follows = match self.parts.last() {
            Some(last) => last.file == file && last.next == number,
            None => false,
        };
        let more = if follows { LF_SIZE } else { PART_SIZE };
        if !self.take_room(size.saturating_add(more)) {
            return Ok(false);
        }
        if let Some(last) = self.parts.last_mut() {
            if follows {
                last.lines.push_str("\n")?;
                last.lines.push_str(shown.as_str())?;
                last.next = number.saturating_add(1);
                return Ok(true);
            }
        }
        self.parts.push(LinesPart {
            file,
            first: number,
            lines: shown,
            next: number.saturating_add(1),
        })?;
        Ok(true)
    }
}

// Whether the named line at this place stands too far before the line with this number.
fn has_passed(wanted: &[u64], at: usize, number: u64) -> bool {
    match wanted.get(at) {
        Some(line) => line.saturating_add(AROUND) < number,
        None => false,
    }
}
