//! Source files below a folder, as labels name them: which are read, and why others are not.

use crate::fault::Fault;
use crate::opener::{OpenError, Opener};
use crate::outputs::written_fault;
use crate::reading::{reason, system_fault};
use pmt_sources::SourcePlace;
use std::alloc::{AllocError, Global};
use std::collections::BTreeSet;
use std::io::Read;

// The most bytes of a file that is read.
const MOST_READ: u64 = 16_777_216;

// Why a file is not read.
const OUTSIDE: &str = "it is not below the folder of --source";

const NO_FILE: &str = "it is no regular file";

const TOO_LARGE: &str = "it has more than 16777216 bytes";

const BINARY: &str = "it has a zero byte, so it is no text";

/// A folder of source files.
#[derive(Drop)]
pub struct SourceFolder {
    // As the words name it.
    given: String,
    // Its real name.
    real: String,
    // The real name of the file that is to be written, if it is there.
    written: Option<String>,
}

/// A file that labels name, with the numbers of the lines, rising.
#[derive(Drop)]
pub struct Wanted<'a> {
    /// The file.
    pub name: &'a str,
    /// The lines.
    pub lines: Vec<u64>,
}

/// The bytes of a file, or why they are not read.
#[derive(Drop)]
pub enum SourceText {
    /// The file's bytes.
    Bytes(Vec<u8>),
    /// Why it is not read.
    Refused(String),
}

/// Places of source files, each once.
#[derive(Drop)]
pub struct Places<'a> {
    found: BTreeSet<(&'a str, u64)>,
}

impl<'a> Places<'a> {
    /// No places.
    pub fn new(alloc: Global) -> Self {
        Places {
            found: BTreeSet::new(alloc),
        }
    }

    /// How many there are.
    pub fn len(&self) -> usize {
        self.found.len()
    }

    /// Adds the place.
    ///
    /// # Errors
    /// Where memory was refused.
    pub fn insert(&mut self, place: SourcePlace<'a>) -> Result<(), AllocError> {
        match self.found.insert((place.file, place.line)) {
            Ok(_) => Ok(()),
            Err(_) => Err(AllocError),
        }
    }

    /// The files, by their names.
    ///
    /// # Errors
    /// Where memory was refused.
    pub fn files(&self, alloc: Global) -> Result<Vec<Wanted<'a>>, AllocError> {
        let mut wanted: Vec<Wanted<'a>> = Vec::new(alloc);
        for (name, line) in self.found.iter() {
            match wanted.last_mut() {
                Some(last) if last.name == *name => last.lines.push(*line)?,
                _ => {
                    let mut lines = Vec::new(alloc);
                    lines.push(*line)?;
                    wanted.push(Wanted { name: *name, lines })?;
                }
            }
        }
        Ok(wanted)
    }
}

impl SourceFolder {
    /// The folder with this name, where the file that is to be written, if one is named, must not be read.
    ///
    /// # Errors
    /// The fault of the folder, where it has no real name; `OutOfMemory`.
    pub fn open<O: Opener>(
        alloc: Global,
        files: &O,
        given: &str,
        written: Option<&str>,
    ) -> Result<Self, Fault> {
        let written = match written {
            Some(name) => Some(String::from_str(alloc, name)?),
            None => None,
        };
        match files.real_name(alloc, given) {
            Ok(real) => Ok(SourceFolder {
                given: String::from_str(alloc, given)?,
                real,
                written,
            }),
            Err(OpenError::System(error)) => Err(system_fault(alloc, "cannot open", given, error)),
            Err(OpenError::OutOfMemory) => Err(Fault::OutOfMemory),
        }
    }

    // Its name as the words have it, without a slash at the end.
    fn given(&self) -> &str {
        self.given.as_str().trim_end_matches('/')
    }

    // Its real name, without a slash at the end.
    fn real(&self) -> &str {
        self.real.as_str().trim_end_matches('/')
    }

    /// What is read of the file with this name below the folder.
    ///
    /// # Errors
    /// A usage fault where it is the file that is to be written; `OutOfMemory`.
    pub fn read<O: Opener>(
        &self,
        alloc: Global,
        files: &O,
        name: &str,
    ) -> Result<SourceText, Fault> {
        let Some(inner) = self.inner_name(name) else {
            return refused(alloc, OUTSIDE);
        };
        let top = self.real();
        let joined = format!(in alloc; "{top}/{inner}")?;
        let real = match files.real_name(alloc, joined.as_str()) {
            Ok(real) => real,
            Err(error) => return unreadable(alloc, error),
        };
        if below(top, real.as_str()).is_none() {
            return refused(alloc, OUTSIDE);
        }
        if self.is_written(files, real.as_str()) {
            return Err(written_fault(alloc, name));
        }
        read_real(alloc, files, real.as_str())
    }

    // Whether it is the file that is to be written.
    fn is_written<O: Opener>(&self, files: &O, real: &str) -> bool {
        match &self.written {
            Some(written) => files.is_same(real, written.as_str()),
            None => false,
        }
    }

    // The name from the folder on; none, where it leads out of it.
    fn inner_name<'a>(&self, name: &'a str) -> Option<&'a str> {
        let inner = if name.starts_with('/') {
            below(self.real(), name).or(below(self.given(), name))?
        } else {
            name
        };
        for part in inner.split('/') {
            if part == ".." {
                return None;
            }
        }
        Some(inner)
    }
}

// What is read of the file with this real name.
fn read_real<O: Opener>(alloc: Global, files: &O, real: &str) -> Result<SourceText, Fault> {
    match files.size(real) {
        Ok(Some(size)) if size <= MOST_READ => {}
        Ok(Some(_)) => return refused(alloc, TOO_LARGE),
        Ok(None) => return refused(alloc, NO_FILE),
        Err(error) => return unreadable(alloc, error),
    }
    match files.open(real) {
        Ok(reader) => read_text(alloc, reader),
        Err(error) => unreadable(alloc, error),
    }
}

// The bytes of a text.
fn read_text<R: Read + Drop>(alloc: Global, reader: R) -> Result<SourceText, Fault> {
    let mut bytes = Vec::new(alloc);
    if let Err(error) = reader.take(MOST_READ + 1).read_to_end(&mut bytes) {
        return unreadable(alloc, OpenError::System(error));
    }
    if bytes.len() as u64 > MOST_READ {
        return refused(alloc, TOO_LARGE);
    }
    if bytes.contains(&0) {
        return refused(alloc, BINARY);
    }
    Ok(SourceText::Bytes(bytes))
}

// What follows the folder and a slash in a name.
fn below<'a>(folder: &str, name: &'a str) -> Option<&'a str> {
    name.strip_prefix(folder)?.strip_prefix('/')
}

fn refused(alloc: Global, why: &str) -> Result<SourceText, Fault> {
    Ok(SourceText::Refused(String::from_str(alloc, why)?))
}

fn unreadable(alloc: Global, error: OpenError) -> Result<SourceText, Fault> {
    match error {
        OpenError::System(error) => Ok(SourceText::Refused(reason(alloc, error)?)),
        OpenError::OutOfMemory => Err(Fault::OutOfMemory),
    }
}
