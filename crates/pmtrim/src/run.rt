//! Doing what the words ask for.
ghost use Rattle.std.specs.Prelude.{◌≤◌, IfOk};
ghost use Rattle.pmtrim.specs.Commands.{Answers};

use crate::gathering::Gathered;
use crate::record::record;
use crate::terminals::Terminals;
use crate::tips::with_tip;
use crate::trace_run::run_trace;
use command_crash::{run_image, run_list, run_slice};
use command_explain::{draw, run_explain};
use command_inputs::{
    Fault, Opener, Recalls, lacking_of, standing_labels, write_answer, write_named,
};
use command_parts::run_parts;
use command_requests::{Request, Run};
use command_stat::run_stat;
use command_words::request_of;
use std::alloc::Global;
use std::convert::AsStr;
use std::io::{Read, Write};
use std::sync::Wait;
use std::thread::Threads;

const TERMINAL: &[u8] =
    b"pmtrim: reading a trace from the terminal; Ctrl-D on a line of its own ends it\n";

/// Does what the words ask for, which stand after the program's name, and gives the exit status. A named file is read through
/// `files`; where none is named, `input` is read. The answer is written to `out`, and what is wrong to `faults`. No stream is taken
/// for a terminal.
pub fn run_words<T, S, O, I, W, F>(
    rt: &T,
    words: &[S],
    files: &O,
    input: I,
    out: &mut W,
    faults: &mut F,
) -> u8
where
    T: AllocGlobal + Threads + Wait + Sync,
    S: AsStr,
    O: Opener,
    I: Read + Drop,
    W: Write,
    F: Write,
    ensures { result ≤ 6 }
{
    run_at(rt, words, files, input, out, faults, Terminals::NONE)
}

/// Does as `run_words` where these streams are terminals: below the fixed line of a fault stands the reason then, if faults go to one, a
/// text has colors, if answers do, and it is said what is waited for, if the trace comes from one.
pub(crate) fn run_at<T, S, O, I, W, F>(
    rt: &T,
    words: &[S],
    files: &O,
    input: I,
    out: &mut W,
    faults: &mut F,
    terminals: Terminals,
) -> u8
where
    T: AllocGlobal + Threads + Wait + Sync,
    S: AsStr,
    O: Opener,
    I: Read + Drop,
    W: Write,
    F: Write,
    ensures { result ≤ 6 }
{
    let alloc = rt.alloc();
    let mut input = input;
    let done = match request_of(alloc, words) {
        Ok(request) => {
            tell_terminal(&request, faults, terminals);
            match tell_lacking(alloc, &request, files, faults) {
                Ok(()) => answer(rt, words, request, files, &mut input, out, terminals),
                Err(fault) => Err(fault),
            }
        }
        Err(fault) => Err(with_tip(alloc, files, words, fault)),
    };
    match done {
        Ok(status) => status,
        Err(fault) => fault.tell(alloc, faults),
    }
}

// Says what a person at a terminal has to do, where a trace is read from there.
fn tell_terminal<F: Write>(request: &Request<'_>, faults: &mut F, terminals: Terminals) {
    if terminals.input && request.reads_input() {
        let _told = faults.write_all(TERMINAL);
    }
}

// Tells what a trace lacks whose report has no room for that.
fn tell_lacking<O: Opener, F: Write>(
    alloc: Global,
    request: &Request<'_>,
    files: &O,
    faults: &mut F,
) -> Result<(), Fault> {
    let Request::Run(words) = request else {
        return Ok(());
    };
    if matches!(words.run, Run::Check) {
        let lacking = lacking_of(alloc, files, words.file)?;
        let _told = faults.write_all(lacking.told.as_bytes());
    }
    Ok(())
}

// Answers with the labels that stand beside the trace, if they are wanted.
fn answer<T, S, O, I, W>(
    rt: &T,
    words: &[S],
    request: Request<'_>,
    files: &O,
    input: &mut I,
    out: &mut W,
    terminals: Terminals,
) -> Result<u8, Fault>
where
    T: AllocGlobal + Threads + Wait + Sync,
    S: AsStr,
    O: Opener,
    I: Read,
    W: Write,
    ensures { IfOk result (λ status. status ≤ 1) }
{
    let alloc = rt.alloc();
    match standing_labels(alloc, files, request.labels_beside())? {
        None => {
            let mut request = request;
            answer_request(rt, &mut request, files, input, out, terminals)
        }
        Some(name) => {
            let mut request = labelled(alloc, words, name.as_str())?;
            answer_request(rt, &mut request, files, input, out, terminals)
        }
    }
}

// What these words ask for, with the labels of the file with this name. They are read again, since a request lives as long as its words.
fn labelled<'a, S: AsStr>(
    alloc: Global,
    words: &'a [S],
    name: &'a str,
) -> Result<Request<'a>, Fault> {
    let mut request = request_of(alloc, words)?;
    request.take_labels(name);
    Ok(request)
}

// Answers to the file that is to be written, or to `out`.
fn answer_request<T: AllocGlobal + Threads + Wait + Sync, O: Opener, I: Read, W: Write>(
    rt: &T,
    request: &mut Request<'_>,
    files: &O,
    input: &mut I,
    out: &mut W,
    terminals: Terminals,
) -> Result<u8, Fault>
    ensures { IfOk result (λ status. status ≤ 1) }
{
    let name = request.out();
    if name.is_none() {
        return answer_to(rt, request, files, input, out, terminals);
    }
    let alloc = rt.alloc();
    let read = request.inputs(alloc)?;
    let mut gathered = Gathered::new(alloc);
    match answer_to(rt, request, files, input, &mut gathered, terminals) {
        Ok(status) => {
            let text = gathered.into_text();
            write_named(alloc, files, name, read.as_slice(), text, out)?;
            Ok(status)
        }
        Err(fault) => Err(gathered.fault(fault)),
    }
}

// Answers to `out`.
fn answer_to<T: AllocGlobal + Threads + Wait + Sync, O: Opener, I: Read, W: Write>(
    rt: &T,
    request: &mut Request<'_>,
    files: &O,
    input: &mut I,
    out: &mut W,
    terminals: Terminals,
) -> Result<u8, Fault>
    ensures few { IfOk result (λ status. status ≤ 1) }
    ensures ends { Answers request.old (I.remaining input.old) (W.contents out.old) (W.contents out.new) result }
{
    let alloc = rt.alloc();
    let recalls = match terminals.faults || request.is_verbose() {
        true => Recalls::LastLines,
        false => Recalls::Nothing,
    };
    match request {
        Request::Show(text) => {
            write_answer(alloc, text.as_bytes(), out)?;
            Ok(0)
        }
        Request::Run(words) => run_trace(rt, *words, files, input, out, recalls),
        Request::Explain(words) => {
            let (status, _) = run_explain(rt, alloc, words, files, input, out, terminals.colors)?;
            Ok(status)
        }
        Request::Draw(drawing) => draw(rt, alloc, drawing, files, input, out),
        Request::Image(words) => run_image(alloc, words, files, input, out),
        Request::ImageList(words) => run_list(alloc, words, files, input, out),
        Request::Slice(words) => run_slice(alloc, words, files, input, out),
        Request::Stat(words) => run_stat(rt, alloc, words, files, input, out),
        Request::Parts(words) => run_parts(alloc, words, files, input, out),
        Request::Record(words) => record(rt, files, words.scripts.as_slice(), out, recalls),
    }
}
