//! The words of `check`, `trim`, `fronts` and `record`.
use crate::described::WordKind::{Flag, ManyLone, NeededLone, OneOf};
use crate::described::{CommandText, OUT_FILE, TRACE_FILE, VERBOSE, Word};

// How many threads there may be.
const WORKERS: &[&str] = &["1", "2", "4", "8", "16"];

/// The command `check`.
pub static CHECK: CommandText<'static> = CommandText {
    name: "check",
    usage: "pmtrim check [--workers N] [--out FILE] [FILE]",
    about: "Judges the assertions of a trace, and reports findings.",
    after: "Writes the number of events and lines, an entry for each finding and each assertion, and how many{n}events trim keeps.{n}Statuses: 0 done; 1 an assertion fails or a store is never persisted; 2 wrong words; 3 trace{n}refused; 4 file fault; 5 out of memory{n}Example: pmtrim check --workers 4 run.trace",
    words: &[
        Word(
            "workers",
            OneOf("N", WORKERS),
            "Accepted, and changes nothing: check{n}is one pass in one thread",
        ),
        OUT_FILE,
        VERBOSE,
        TRACE_FILE,
    ],
};

/// The command `trim`.
pub static TRIM: CommandText<'static> = CommandText {
    name: "trim",
    usage: "pmtrim trim [--workers N] [--stream | --out FILE] [FILE]",
    about: "Writes the trace without the flushes and fences that no crash can show.",
    after: "Statuses: 0 done; 2 wrong words; 3 trace refused; 4 file fault; 5 out of memory{n}Example: pmtrim trim --out trimmed.trace run.trace",
    words: &[
        Word(
            "workers",
            OneOf("N", WORKERS),
            "Accepted as check has it, and changes nothing:{n}trim is one pass in one thread",
        ),
        Word("stream", Flag, "Write the trace as it is read"),
        OUT_FILE,
        VERBOSE,
        TRACE_FILE,
    ],
};

/// The command `fronts`.
pub static FRONTS: CommandText<'static> = CommandText {
    name: "fronts",
    usage: "pmtrim fronts [--out FILE] FILE PLACE",
    about: "Tells how many stores of each cache line are safe at a place.",
    after: "Statuses: 0 done; 2 wrong words, or the place lies past the end; 3 trace refused; 4 file fault; 5{n}out of memory{n}Example: pmtrim fronts run.trace 12",
    words: &[
        OUT_FILE,
        VERBOSE,
        Word("FILE", NeededLone, "The trace"),
        Word(
            "PLACE",
            NeededLone,
            "After how many events, a decimal number",
        ),
    ],
};

/// The command `record`.
pub static RECORD: CommandText<'static> = CommandText {
    name: "record",
    usage: "pmtrim record [--out FILE] SCRIPT..",
    about: "Runs each script in a thread of its own, and writes the trace that they record.",
    after: "Statuses: 0 done; 2 wrong words; 3 a script refused, or the trace is full; 4 file fault; 5 out of{n}memory; 6 torn recorder{n}Example: pmtrim record --out run.trace first.script second.script",
    words: &[
        OUT_FILE,
        VERBOSE,
        Word(
            "SCRIPT",
            ManyLone,
            "The events of a thread, one a line; 1 to 256 scripts",
        ),
    ],
};
