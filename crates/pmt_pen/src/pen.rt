//! A text that is being written, which remembers that memory was refused to it: only its end has to be asked.
use pmt_model::OutOfMemory;
use std::alloc::{AllocError, Global};

/// A text that is written from its start to its end. Once memory was refused to it, it stays as it is.
#[derive(Drop)]
pub struct Pen {
    alloc: Global,
    text: String,
    refused: bool,
}

impl Pen {
    /// An empty text.
    pub fn new(alloc: Global) -> Self {
        Pen {
            alloc,
            text: String::new(alloc),
            refused: false,
        }
    }

    /// Where its memory comes from.
    pub fn alloc(&self) -> Global {
        self.alloc
    }

    /// What is written so far.
    pub fn as_str(&self) -> &str {
        self.text.as_str()
    }

    /// How many bytes are written so far.
    pub fn len(&self) -> u64 {
        self.text.len() as u64
    }

    /// Adds the words.
    pub fn put(&mut self, words: &str) {
        if !self.refused {
            self.refused = self.text.push_str(words).is_err();
        }
    }

    /// Adds the letter.
    pub fn letter(&mut self, letter: char) {
        if !self.refused {
            self.refused = self.text.push(letter).is_err();
        }
    }

    /// Adds the number in decimal.
    pub fn number(&mut self, number: u64) {
        if !self.refused {
            self.refused = write!(self.text, "{number}").is_err();
        }
    }

    /// Adds the address in hexadecimal, after '0x'.
    pub fn address(&mut self, address: u64) {
        if !self.refused {
            self.refused = write!(self.text, "{address:#x}").is_err();
        }
    }

    /// Adds the bytes, each as two hexadecimal digits.
    pub fn bytes(&mut self, bytes: &[u8]) {
        for byte in bytes {
            if !self.refused {
                self.refused = write!(self.text, "{byte:02x}").is_err();
            }
        }
    }

    /// Adds the form, with the next of the numbers in place of each '#', and the next as an address in place of each '@'.
    pub fn fill(&mut self, form: &str, numbers: &[u64]) {
        let mut left = numbers.iter();
        for letter in form.chars() {
            match letter {
                '#' => self.number(left.next().copied().unwrap_or(0)),
                '@' => self.address(left.next().copied().unwrap_or(0)),
                _ => self.letter(letter),
            }
        }
    }

    /// Notes that memory was refused to what is written.
    pub fn refuse(&mut self) {
        self.refused = true;
    }

    /// Notes that memory was refused to the other text, where it was.
    pub fn share(&mut self, other: &Pen) {
        self.refused = self.refused || other.refused;
    }

    /// The whole text.
    ///
    /// # Errors
    /// Where memory was refused to it.
    pub fn finish(self) -> Result<String, OutOfMemory> {
        let Pen {
            alloc: _,
            text,
            refused,
        } = self;
        if refused {
            return Err(AllocError);
        }
        Ok(text)
    }
}
