//! Reading a file whole, so that a refused line of it can be shown.

use crate::fault::Fault;
use std::alloc::{AllocError, Global};
use std::io::{self, ErrorKind, Read};

// The most bytes of a file that is read whole.
const BYTE_LIMIT: u64 = 67_108_864;

/// The bytes that the reader of this file gives.
///
/// # Errors
/// A fault that names the file, where a read failed, with the system's reason, or where it has more bytes than are read; `OutOfMemory`.
pub(crate) fn read_whole<R: Read + Drop>(
    alloc: Global,
    name: &str,
    reader: R,
) -> Result<Vec<u8>, Fault> {
    let mut bytes = Vec::new(alloc);
    match reader.take(BYTE_LIMIT + 1).read_to_end(&mut bytes) {
        Ok(count) if count as u64 > BYTE_LIMIT => Err(too_long(alloc, name)),
        Ok(_) => Ok(bytes),
        Err(error) => Err(system_fault(alloc, "cannot read", name, error)),
    }
}

// The fault of a file with more bytes than are read.
fn too_long(alloc: Global, name: &str) -> Fault {
    Fault::refused(format!(in alloc;
        "{name}: the file is too long: it has more than {BYTE_LIMIT} bytes\n"
    ))
}

/// The fault that says what could not be done with what, and the system's reason; `OutOfMemory` where that is the reason, or memory is
/// refused to it.
pub fn system_fault(alloc: Global, action: &str, what: &str, error: io::Error) -> Fault {
    try_system_fault(alloc, action, what, error).unwrap_or(Fault::OutOfMemory)
}

/// The same.
///
/// # Errors
/// Where memory is refused to it.
pub(crate) fn try_system_fault(
    alloc: Global,
    action: &str,
    what: &str,
    error: io::Error,
) -> Result<Fault, AllocError> {
    if error.kind() == ErrorKind::OutOfMemory {
        return Ok(Fault::OutOfMemory);
    }
    let reason = reason(alloc, error)?;
    let reason = reason.as_str();
    let line = format!(in alloc; "{action} {what}: {reason}\n")?;
    Ok(Fault::System(line))
}

/// The system's reason.
///
/// # Errors
/// `AllocError`, also where that is the reason.
pub fn reason(alloc: Global, error: io::Error) -> Result<String, AllocError> {
    if error.kind() == ErrorKind::OutOfMemory {
        return Err(AllocError);
    }
    let whole = format!(in alloc; "{error}")?;
    String::from_str(alloc, reason_of(whole.as_str()))
}

// The system's reason without its number.
fn reason_of(text: &str) -> &str {
    match text.split_once(" (os error ") {
        Some((reason, _)) => reason,
        None => text,
    }
}
