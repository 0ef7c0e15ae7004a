//! Calls that are made again after memory was refused to them: what stands after the refusal, and what the second call gives.
//! A verdict on each call is printed, the same whatever is refused, and a line for the call that was refused. `tests/test_refusals.py`
//! refuses each request of the program in turn. With a word, the calls on whole traces are made on one of 100,004 events.
#![tactic(auto)]

mod lines;
mod recording;
mod scripts;
mod shape;
mod shard;
mod stop;
mod values;

use crate::shape::Shape;
use crate::stop::Stop;
use std::alloc::Global;
use std::process::ExitCode;
use std::sync::Wait;
use std::thread::Threads;
use std::{env, io};

// The calls, as a reader calls them.
const CALLS: [&str; 22] = [
    "split_store",
    "Trace::push",
    "LineState::on_flush",
    "EventSource::next",
    "Book::push_event",
    "read_trace",
    "trim",
    "split",
    "run_line",
    "line_kept",
    "run_shard",
    "liveness",
    "run_fences",
    "findings",
    "Tables::merge",
    "verdicts",
    "analyse_with",
    "report_text",
    "Session::start",
    "Session::append",
    "Session::snapshot",
    "record_scripts",
];

// Forty lines as in the worked row, and a few rounds.
const SMALL: Shape = Shape {
    rounds: 3,
    lines: 40,
};

const LARGE: Shape = Shape {
    rounds: 20_000,
    lines: 20_000,
};

// All calls, up to the first to which memory is refused. Those that start threads are last: how many requests they make may change from
// run to run.
fn call_all<R: Threads + Wait + Sync>(rt: &R, alloc: Global, shape: Shape) -> Result<(), Stop> {
    values::split(alloc)?;
    values::push(alloc)?;
    values::flush(alloc)?;
    values::next(alloc)?;
    recording::push_events(alloc)?;
    lines::trimmed(alloc, shape)?;
    lines::by_line(alloc, shape)?;
    shard::by_shard(rt, alloc, shape)?;
    lines::analysed(rt, alloc, shape)?;
    recording::session(rt, alloc)?;
    scripts::record(rt, alloc)
}

// How the calls went: to which one memory was refused first, and how they ended then.
#[derive(Clone, Copy)]
struct Called {
    refused: Option<&'static str>,
    ended: Result<(), Stop>,
}

// All calls, and all of them again where memory was refused.
fn call_again<R: Threads + Wait + Sync>(rt: &R, alloc: Global, shape: Shape) -> Called {
    let first = call_all(rt, alloc, shape);
    let refused = match first {
        Err(Stop::Refused(call)) => Some(call),
        Err(Stop::Unready) => None,
        ended => return Called {
            refused: None,
            ended,
        },
    };
    let ended = call_all(rt, alloc, shape);
    Called { refused, ended }
}

// Tells the call to which memory was refused, and the verdicts.
fn tell(rt: &HostRuntime, called: Called) -> io::Result<()> {
    if let Some(call) = called.refused {
        println!(rt; "refused: {call}")?;
    }
    match called.ended {
        Ok(()) => tell_right(rt),
        Err(Stop::Wrong(call)) => println!(rt; "{call}: wrong"),
        Err(_) => println!(rt; "memory was refused twice"),
    }
}

fn tell_right(rt: &HostRuntime) -> io::Result<()> {
    for call in CALLS {
        println!(rt; "{call}: right")?;
    }
    Ok(())
}

// What the word behind the program's name asks for. Want of memory is no word.
fn asked(rt: &HostRuntime) -> Shape {
    match env::args(rt) {
        Ok(mut words) => { if words.nth(1).is_some() { LARGE } else { SMALL } }
        Err(_) => SMALL,
    }
}

fn main(rt: HostRuntime) -> ExitCode {
    let called = call_again(&rt, rt.alloc(), asked(&rt));
    match tell(&rt, called) {
        Ok(()) => ExitCode::from(0),
        Err(_) => ExitCode::from(1),
    }
}
