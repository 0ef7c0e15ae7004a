//! `image`: the pool's file as a crash leaves it.
ghost use Rattle.std.specs.Prelude.{◌≡◌, ◌+◌, ◌<◌, ◌^◌, IfOk};

use command_inputs::{
    Fault, Input, Opener, Recalling, Recalls, no_failure, open_fault, opened, read_file,
    read_origin, system_fault, trace_of, write_file,
};
use command_requests::{AddressStores, AskedCrash, ImageWords};
use pmt_explain::failure;
use pmt_image::{
    CountFault, Crash, ImageFault, LineStores, Pool, Stop, crash_at, crash_of_failure, write_image,
};
use pmt_model::{Format, Trace, line_of};
use pmt_report::RunError;
use pmt_text::{Counted, line_address};
use std::alloc::Global;
use std::io::{self, ErrorKind, Read, Write};

// The pool that is read: where it lies, and its file.
#[derive(Drop)]
struct Base {
    pool: Pool,
    name: String,
}

/// Writes the pool of the trace of the file or of `input` as the crash leaves it, to the file that is named or to `out`. The status is 0.
///
/// # Errors
/// The fault of the words, of the origin, of the trace, of the pool or of the write. A file that was written in part is removed.
pub fn run_image<O: Opener, I: Read, W: Write>(
    alloc: Global,
    words: &ImageWords<'_>,
    files: &O,
    input: &mut I,
    out: &mut W,
) -> Result<u8, Fault>
    ensures { IfOk result (λ status. status ≡ 0) }
{
    let base = base_of(alloc, words, files)?;
    let trace = trace_of(alloc, Input::new("image", words.file), files, input)?;
    let crash = crash_of(alloc, &trace, &words.crash)?;
    write_pool(alloc, words, files, &trace, &crash, &base, out)?;
    Ok(0)
}

// The crash that is asked for.
fn crash_of(alloc: Global, trace: &Trace, asked: &AskedCrash) -> Result<Crash, Fault> {
    match asked {
        AskedCrash::Failure(number) => failure_crash(alloc, trace, *number),
        AskedCrash::At { place, all, lines } => {
            let counts = by_line(alloc, trace.format(), lines.as_slice())?;
            match crash_at(alloc, trace, *place, *all, counts.as_slice()) {
                Ok(crash) => Ok(crash),
                Err(fault) => Err(count_fault(alloc, trace.format(), fault)?),
            }
        }
    }
}

// Writes the pool after the crash to the named file, once nothing is left that could be refused, or to `out` where none is
// named.
fn write_pool<O: Opener, W: Write>(
    alloc: Global,
    words: &ImageWords<'_>,
    files: &O,
    trace: &Trace,
    crash: &Crash,
    base: &Base,
    out: &mut W,
) -> Result<(), Fault> {
    match words.out {
        Some(name) => {
            check(alloc, trace, crash, base)?;
            write_file(alloc, files, name, base.name.as_str(), |file| {
                write_to(alloc, files, trace, crash, base, name, file)
            })
        }
        None => write_to(alloc, files, trace, crash, base, "the answer", out),
    }
}

// The pool that is named, or the one beside the trace.
fn base_of<O: Opener>(alloc: Global, words: &ImageWords<'_>, files: &O) -> Result<Base, Fault> {
    let trace = words.file.unwrap_or("");
    let name = match words.pool {
        Some(name) => String::from_str(alloc, name)?,
        None => format!(in alloc; "{trace}.base")?,
    };
    let origin = match words.origin {
        Some(origin) => origin,
        None => origin_beside(alloc, files, trace)?,
    };
    let size = size_of_pool(alloc, files, name.as_str())?;
    Ok(Base {
        pool: Pool { origin, size },
        name,
    })
}

// The origin in the file that stands beside the trace: an address on a line of its own.
fn origin_beside<O: Opener>(alloc: Global, files: &O, trace: &str) -> Result<u64, Fault> {
    let name = format!(in alloc; "{trace}.origin")?;
    let name = name.as_str();
    let bytes = read_file(alloc, files, name)?;
    let line = match bytes.as_slice() {
        [line @ .., b'\n'] => line,
        whole => whole,
    };
    match read_origin(line) {
        Some(origin) => Ok(origin),
        None => Err(Fault::refused(format!(in alloc;
            "{name}: no address of a pool: it has to be one line, as 0x10000000\n"
        ))),
    }
}

// How many bytes the pool's file has.
fn size_of_pool<O: Opener>(alloc: Global, files: &O, name: &str) -> Result<u64, Fault> {
    match files.size(name) {
        Ok(Some(size)) => Ok(size),
        Ok(None) => Err(no_pool(alloc, name)),
        Err(error) => Err(open_fault(alloc, name, error)),
    }
}

fn no_pool(alloc: Global, name: &str) -> Fault {
    Fault::refused(format!(in alloc; "{name}: no file of a pool\n"))
}

// The pool, whose addresses are numbers that the machine has.
fn pool_of(alloc: Global, base: &Base) -> Result<Pool, Fault>
    ensures { IfOk result (λ pool. pool.origin + pool.size < 2 ^ 63) }
{
    let Pool { origin, size } = base.pool;
    if origin < 1 << 62 && size < 1 << 62 {
        Ok(Pool { origin, size })
    } else {
        Err(no_pool(alloc, base.name.as_str()))
    }
}

// The crash of the failed assertion of this event.
fn failure_crash(alloc: Global, trace: &Trace, number: u64) -> Result<Crash, Fault> {
    match failure(alloc, trace, number)? {
        Some(found) => Ok(crash_of_failure(alloc, trace, &found)?),
        None => Err(no_failure(alloc, number)),
    }
}

// The numbers asked, by line.
fn by_line(
    alloc: Global,
    format: Format,
    lines: &[AddressStores],
) -> Result<Vec<LineStores>, Fault> {
    let mut counts = Vec::with_capacity(alloc, lines.len())?;
    for line in lines {
        counts.push(LineStores {
            line: line_of(format, line.address),
            stores: line.stores,
        })?;
    }
    Ok(counts)
}

// What is told where there is no such crash.
fn count_fault(alloc: Global, format: Format, fault: CountFault) -> Result<Fault, Fault> {
    match fault {
        CountFault::PastEnd { events } => Ok(Fault::Run(RunError::PastEnd { events })),
        CountFault::OutOfMemory => Ok(Fault::OutOfMemory),
        CountFault::Outside {
            asked,
            least,
            greatest,
        } => {
            let address = line_address(format, asked.line);
            let stores = asked.stores;
            let line = format!(in alloc;
                "line {address:#x}: {stores} stores asked, a crash leaves at least {least} and at most {greatest}\n"
            )?;
            Ok(Fault::Absent(line))
        }
    }
}

// Writes the pool to `out`, which a person calls so.
fn write_to<O: Opener, W: Write>(
    alloc: Global,
    files: &O,
    trace: &Trace,
    crash: &Crash,
    base: &Base,
    output: &str,
    out: &mut W,
) -> Result<(), Fault> {
    let pool = pool_of(alloc, base)?;
    let name = base.name.as_str();
    let reader = opened(alloc, files, name)?;
    let mut reader = Counted::new(Recalling::new(alloc, reader, Recalls::Errors));
    let mut writer = Counted::new(Recalling::new(alloc, out, Recalls::Errors));
    let done = write_image(alloc, trace, crash, pool, &mut reader, &mut writer);
    match done {
        Ok(()) => Ok(()),
        Err(ImageFault::Copy(fault)) => {
            let read = reader.into_inner().error();
            let written = writer.into_inner().error();
            copy_fault(alloc, output, name, fault.stop, read, written)
        }
        Err(fault) => Err(image_fault(alloc, base, fault)),
    }
}

// What comes of a copy that stopped: the fault of the pool with this name or of what was written, whose last errors these
// are, but a pipe whose reader has gone wants no more.
fn copy_fault(
    alloc: Global,
    output: &str,
    name: &str,
    stop: Stop,
    read: Option<io::Error>,
    written: Option<io::Error>,
) -> Result<(), Fault> {
    match (stop, read, written) {
        (Stop::Write, _, Some(error)) if error.kind() == ErrorKind::BrokenPipe => Ok(()),
        (Stop::Write, _, Some(error)) => Err(system_fault(alloc, "cannot write", output, error)),
        (Stop::Read, Some(error), _) => Err(system_fault(alloc, "cannot read", name, error)),
        (Stop::Short, _, _) => {
            let line = format!(in alloc; "{name}: fewer bytes came than the file had\n")?;
            Err(Fault::System(line))
        }
        _ => Err(Fault::File),
    }
}

// Refuses a store outside of the pool.
fn check(alloc: Global, trace: &Trace, crash: &Crash, base: &Base) -> Result<(), Fault> {
    let pool = pool_of(alloc, base)?;
    match pmt_image::check_pool(alloc, trace, crash, pool) {
        Ok(()) => Ok(()),
        Err(fault) => Err(image_fault(alloc, base, fault)),
    }
}

// What is told where the pool was not written.
fn image_fault(alloc: Global, base: &Base, fault: ImageFault) -> Fault {
    match fault {
        ImageFault::OutOfMemory => Fault::OutOfMemory,
        ImageFault::Outside { event, address } => {
            let Pool { origin, size } = base.pool;
            Fault::refused(format!(in alloc;
                "event {event} stores to {address:#x}, which lies outside of the pool: {size} bytes from {origin:#x} on\n"
            ))
        }
        ImageFault::Copy(_) => Fault::File,
    }
}
