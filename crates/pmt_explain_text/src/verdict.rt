//! The verdict in a sentence.

use pmt_entries::{Verdict, Weight, weight_of_site};
use pmt_explanation::{Summary, per_cent, summary_of};
use pmt_pen::Pen;
use pmt_telling::{Telling, Told, pen_of, push_text, push_wrapped};

// The columns before the further lines of the verdict.
const FURTHER: u64 = 4;

const NOT_CHECKED: &str = "; no assertions: order unchecked";

// Adds the verdict on the trace, with its first entry.
pub(crate) fn push_verdict(pen: &mut Pen, told: &Telling<'_>, first: Option<&Told<'_>>) {
    let counts = &summary_of(told.explanation);
    let verdict = told.explanation.entries.verdict;
    let mut line = pen_of(told.alloc, word_of(told, verdict));
    match verdict {
        Verdict::Nothing => line.put("the trace stores nothing"),
        Verdict::Fail => push_broken(&mut line, told, counts),
        Verdict::Lost | Verdict::Suspect | Verdict::Check => {
            push_found(&mut line, told, counts, first);
        }
        Verdict::ProbablyOk | Verdict::Ok | Verdict::OkSoFar => {
            push_fine(&mut line, told, counts);
            if counts.assertions == 0 {
                line.put(NOT_CHECKED);
            }
        }
    }
    let ignored = counts.ignored_never_persisted;
    if ignored > 0 {
        line.fill("; # never saved, as ignored", &[ignored]);
    }
    if !told.screen.knows_verdicts {
        line.put(", as far as the trace tells");
    }
    line.put(".");
    push_wrapped(pen, &line, FURTHER);
}

// The word that the verdict begins with.
fn word_of(told: &Telling<'_>, verdict: Verdict) -> &'static str {
    match verdict {
        Verdict::Nothing => "Nothing to judge: ",
        Verdict::Fail => "FAIL: ",
        Verdict::Lost if told.screen.knows_losses => "LOST: ",
        Verdict::Suspect => "SUSPECT: ",
        Verdict::Lost | Verdict::Check => "CHECK: ",
        Verdict::ProbablyOk => "PROBABLY OK: ",
        Verdict::Ok => "OK: ",
        Verdict::OkSoFar => "OK so far: ",
    }
}

const MANY: &str = ", many in fields that may be volatile (below); others first at ";

// Adds how many assertions a crash can break, and the first of them.
fn push_broken(pen: &mut Pen, told: &Telling<'_>, counts: &Summary) {
    let first = told.explanation.failing.first().copied().unwrap_or(0);
    if counts.assertions == 1 {
        told.say(pen, "a crash can break the assertion, $", &[first]);
    } else {
        let form = "a crash can break % of % assertions, first at $";
        told.say(pen, form, &[counts.failing, counts.assertions, first]);
    }
}

// Adds what weighs most and where the first of it is, that the assertions hold, and what is never saved.
fn push_found(pen: &mut Pen, told: &Telling<'_>, counts: &Summary, first: Option<&Told<'_>>) {
    let verdict = told.explanation.entries.verdict;
    let is_lost = verdict == Verdict::Lost;
    let lost = lost_of(told);
    if is_lost {
        push_never_saved(pen, told, counts, lost);
    }
    pen.put(match first {
        Some(_) if is_lost && !told.volatile.is_empty() => MANY,
        Some(_) if is_lost => ", first at ",
        Some(_) => "look at ",
        None if is_lost => ", in fields that may be volatile (below)",
        None => "what is saved late may be volatile (below)",
    });
    if let Some(entry) = first {
        push_text(pen, &entry.site);
        if !is_lost {
            pen.put(" (");
            push_text(pen, &entry.gist);
            pen.put(")");
        }
    }
    match counts.assertions {
        0 => pen.put(NOT_CHECKED),
        1 => pen.put("; the assertion holds"),
        count => pen.fill("; all # assertions hold", &[count]),
    }
    let others = counts.never_persisted.saturating_sub(lost);
    if is_lost && others > 0 {
        pen.fill("; # more may be meant", &[others]);
    }
}

// How many stores are never saved at sites that do not stand apart.
fn lost_of(told: &Telling<'_>) -> u64 {
    let sites = told.explanation.entries.sites.iter();
    let sites = sites.filter(|site| weight_of_site(*site) == Weight::Lost);
    sites.fold(0u64, |sum, site| sum.saturating_add(site.row.lost))
}

// Adds that so many stores are never saved.
fn push_never_saved(pen: &mut Pen, told: &Telling<'_>, counts: &Summary, lost: u64) {
    if counts.stores == 1 {
        pen.put("the store");
    } else {
        told.say(pen, "% of % stores", &[lost, counts.stores]);
    }
    if !told.volatile.is_empty() {
        pen.fill(" (# %)", &[per_cent(lost, counts.stores)]);
    }
    pen.put(if lost == 1 { " is" } else { " are" });
    pen.put(" never saved");
}

// Adds that no crash breaks an assertion, and that the stores are saved.
fn push_fine(pen: &mut Pen, told: &Telling<'_>, counts: &Summary) {
    match counts.assertions {
        0 => {}
        1 => pen.put("no crash can break the assertion; "),
        count => pen.fill("no crash can break any of the # assertions; ", &[count]),
    }
    let places = told.explanation.places.iter();
    let late = places.fold(0u64, |sum, row| sum.saturating_add(row.late));
    let form = match counts.stores {
        _ if counts.never_persisted > 0 || late > 0 =>
            "all stores but those below are saved in time",
        1 => "the store is saved in time",
        _ => "all % stores are saved in time",
    };
    told.say(pen, form, &[counts.stores]);
}
