//! Opening named files.
use std::alloc::Global;
use std::fs;
use std::io::{self, ErrorKind, Read, Write};
use std::os::unix::fs::MetadataExt;
use std::rt::Files;

/// Why a named file was not opened.
#[derive(Clone, Copy)]
pub enum OpenError {
    /// There is no such file, or it can't be opened: the system's reason.
    System(io::Error),
    /// A growth was refused.
    OutOfMemory,
}

/// Gives the readers of named files. Tests hand in texts in memory.
pub trait Opener {
    /// What reads a file.
    type Reader: Read + Drop;

    /// The reader of the file with this name.
    ///
    /// # Errors
    /// `System` where it can't be opened, `OutOfMemory`.
    fn open(&self, name: &str) -> Result<Self::Reader, OpenError>;

    /// What writes a file.
    type Writer: Write + Drop;

    /// How many bytes the file has; none of what is no file, as a folder or a device.
    ///
    /// # Errors
    /// `System` where it can't be asked, `OutOfMemory`.
    fn size(&self, name: &str) -> Result<Option<u64>, OpenError>;

    /// The absolute name of what has this name, with no symbolic link in it.
    ///
    /// # Errors
    /// `System` where there is nothing with this name, or it can't be asked; `OutOfMemory`.
    fn real_name(&self, alloc: Global, name: &str) -> Result<String, OpenError>;

    /// Whether both names are of one thing that is there, as of a file and of a link to it.
    fn is_same(&self, name: &str, other: &str) -> bool;

    /// The writer of the file with this name, which is empty then.
    ///
    /// # Errors
    /// `System` where it can't be created, or is the same as the other file; `OutOfMemory`.
    fn create(&self, name: &str, other: &str) -> Result<Self::Writer, OpenError>;

    /// Removes the file with this name, if it is one that can be removed. A device stays.
    fn remove(&self, name: &str);
}

/// The files of the system.
#[derive(Drop)]
pub struct SystemFiles<'a, R> {
    rt: &'a R,
}

impl<'a, R: Files> SystemFiles<'a, R> {
    /// The files that this runtime reaches.
    pub fn new(rt: &'a R) -> Self {
        SystemFiles { rt }
    }
}

impl<R: Files> Opener for SystemFiles<'_, R> {
    type Reader = R::File;

    fn open(&self, name: &str) -> Result<R::File, OpenError> {
        match fs::open(self.rt, name) {
            Ok(file) => Ok(file),
            Err(e) => Err(open_error(e)),
        }
    }

    type Writer = R::File;

    fn size(&self, name: &str) -> Result<Option<u64>, OpenError> {
        match fs::metadata(self.rt, name) {
            Ok(found) if found.is_file() => Ok(Some(found.len())),
            Ok(_) => Ok(None),
            Err(e) => Err(open_error(e)),
        }
    }

    fn real_name(&self, alloc: Global, name: &str) -> Result<String, OpenError> {
        match self.rt.canonicalize(alloc, name) {
            Ok(path) => Ok(path.into_string()),
            Err(e) => Err(open_error(e)),
        }
    }

    fn is_same(&self, name: &str, other: &str) -> bool {
        match (fs::metadata(self.rt, name), fs::metadata(self.rt, other)) {
            (Ok(one), Ok(two)) => one.dev() == two.dev() && one.ino() == two.ino(),
            _ => false,
        }
    }

    fn create(&self, name: &str, other: &str) -> Result<R::File, OpenError> {
        if self.is_same(name, other) {
            return Err(OpenError::System(io::Error::from(ErrorKind::AlreadyExists)));
        }
        match fs::create(self.rt, name) {
            Ok(file) => Ok(file),
            Err(e) => Err(open_error(e)),
        }
    }

    fn remove(&self, name: &str) {
        if let Ok(Some(_)) = self.size(name) {
            let _removed = fs::remove_file(self.rt, name);
        }
    }
}

fn open_error(error: io::Error) -> OpenError {
    if error.kind() == ErrorKind::OutOfMemory {
        OpenError::OutOfMemory
    } else {
        OpenError::System(error)
    }
}
