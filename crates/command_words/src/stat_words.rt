//! The words of `stat`.
use crate::arguments::{out_name, trace_name};
use crate::described::{CommandText, LABELS_BESIDE, NO_LABELS, OUT_FILE, TRACE_FILE};
use clap::ArgMatches;
use command_requests::StatWords;

/// The command `stat`.
pub static STAT: CommandText<'static> = CommandText {
    name: "stat",
    usage: "pmtrim stat [--labels FILE | --no-labels] [--out FILE] [FILE]",
    about: "Counts events, how full fences are, and what each place pays for flushes and fences.",
    after: "A place is the innermost frame of a label, as 'leaves.c:141 split', or of events without label their{n}thread.{n}Statuses: 0 done; 2 wrong words; 3 trace or labels refused; 4 file fault; 5 out of memory{n}Example: pmtrim stat run.trace",
    words: &[LABELS_BESIDE, NO_LABELS, OUT_FILE, TRACE_FILE],
};

/// What these words ask for.
pub fn stat_words<'a>(given: &ArgMatches<'a>) -> StatWords<'a> {
    StatWords {
        labels: given.get_str("labels"),
        no_labels: given.get_flag("no-labels"),
        out: out_name(given),
        file: trace_name(given),
    }
}
