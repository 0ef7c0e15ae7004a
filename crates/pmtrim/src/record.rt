//! Recording scripts: each is run in a thread of its own, and the trace that they record is written.
ghost use Rattle.std.specs.Prelude.{◌≡◌, length, map, IfOk};
ghost use Rattle.pmt_model.specs.Values.{first_version};
ghost use Rattle.pmt_recorder.specs.Scripts.{IsRecorded};
ghost use Rattle.pmtrim.specs.Commands.{IsTextOfRecorded, Records};

use command_inputs::{Fault, Input, Opener, Recalls, counted, open_input, reasoned, write_output};
use pmt_model::{NoGate, Op, Trace};
use pmt_recorder::{RecordError, record_scripts};
use pmt_report::RecordFault;
use pmt_text::{SourceError, read_script_from, write_trace};
use std::alloc::Global;
use std::io::Write;
use std::sync::Wait;
use std::thread::Threads;

/// Reads the scripts with these names, records them, and writes the trace. One script after another is opened, read whole and
/// judged, in the order of the names. Nothing is written unless the trace is there. The status is 0.
///
/// # Errors
/// The first script's that can't be opened, whose read fails, or which is refused; then that of the recording; then that of the
/// write, each with the reason below its line if one is asked for; `OutOfMemory`.
pub fn record<T: AllocGlobal + Threads + Wait + Sync, O: Opener, W: Write>(
    rt: &T,
    files: &O,
    names: &[&str],
    out: &mut W,
    recalls: Recalls,
) -> Result<u8, Fault>
    ensures done { IfOk result (λ status. status ≡ 0) }
    ensures written { Records (length names.now) (W.contents out.old) (W.contents out.new) result }
{
    let text = text_of(rt, files, names, recalls)?;
    match write_output(rt.alloc(), out, text.as_slice(), recalls) {
        Ok(()) => Ok(0),
        Err(fault) => Err(fault),
    }
}

// The text of the trace that the scripts with these names record.
fn text_of<T: AllocGlobal + Threads + Wait + Sync, O: Opener>(
    rt: &T,
    files: &O,
    names: &[&str],
    recalls: Recalls,
) -> Result<Vec<u8>, Fault>
    ensures { IfOk result (λ text. IsTextOfRecorded (length names.now) text.items) }
{
    let alloc = rt.alloc();
    let scripts = scripts_of(alloc, files, names, recalls)?;
    let trace = recorded(rt, scripts)?;
    Ok(write_trace(alloc, &trace)?)
}

// The scripts with these names.
fn scripts_of<O: Opener>(
    alloc: Global,
    files: &O,
    names: &[&str],
    recalls: Recalls,
) -> Result<Vec<Vec<Op>>, Fault>
    ensures { IfOk result (λ scripts. length scripts.items ≡ length names.now) }
{
    let mut scripts = Vec::new(alloc);
    for (place, name) in names.iter().enumerate() {
        let script = read_one(alloc, files, place as u64 + 1, name, recalls)?;
        if scripts.push(script).is_err() {
            return Err(Fault::OutOfMemory);
        }
    }
    Ok(scripts)
}

// The script with this number and name.
fn read_one<O: Opener>(
    alloc: Global,
    files: &O,
    script: u64,
    name: &str,
    recalls: Recalls,
) -> Result<Vec<Op>, Fault> {
    let reader = open_input(alloc, files, name, recalls)?;
    let mut reader = counted(alloc, reader, recalls.whole());
    match read_script_from(alloc, &mut reader) {
        Ok(ops) => Ok(ops),
        Err(error) => {
            let reader = reader.into_inner();
            let fault = script_fault(script, error);
            let input = Input::new("record /dev/stdin", Some(name));
            Err(reasoned(alloc, fault, input, reader.memory(), None))
        }
    }
}

// What is told of the script with this number, where this fault came. A script that is read once never answers that it failed before.
fn script_fault(script: u64, error: SourceError) -> Fault {
    match error {
        SourceError::Text(error) => Fault::Record(RecordFault::Line { script, error }),
        SourceError::TooMany => Fault::Record(RecordFault::TooLong { script }),
        SourceError::Read | SourceError::Failed => Fault::File,
        SourceError::OutOfMemory => Fault::OutOfMemory,
    }
}

// The trace that the scripts record.
fn recorded<T: AllocGlobal + Threads + Wait + Sync>(
    rt: &T,
    scripts: Vec<Vec<Op>>,
) -> Result<Trace, Fault>
    ensures { IfOk result (IsRecorded first_version (map (λ script. script.items) scripts.items)) }
{
    let alloc = rt.alloc();
    match record_scripts(rt, alloc, &NoGate, scripts) {
        Ok(trace) => Ok(trace),
        Err(error) => Err(record_fault(alloc, error)),
    }
}

// What is told where the recording ended with this.
fn record_fault(alloc: Global, error: RecordError) -> Fault {
    match error {
        RecordError::BadCount => Fault::usage(alloc, "1 to 256 scripts are recorded"),
        RecordError::NotInFormat { .. } | RecordError::Full { .. } => {
            Fault::Record(RecordFault::Full)
        }
        RecordError::OutOfMemory => Fault::OutOfMemory,
        RecordError::Torn { recorder } => Fault::Record(RecordFault::Torn { recorder }),
    }
}
