//! What does no harm, or is too rare to tell alone, in one sentence.

use pmt_entries::Verdict;
use pmt_explanation::Summary;
use pmt_fates::LEAST_EVENTS;
use pmt_hints::{Hint, HintKind};
use pmt_pen::Pen;
use pmt_telling::{
    Made, Telling, pen_of, push_comma, push_more, push_spot, push_wrapped, site_frame,
};

// The most sites that are named.
const NAMED: usize = 3;

// Adds the small things, if there are some, but where the trace has worse.
pub(crate) fn push_small(pen: &mut Pen, told: &Telling<'_>, counts: &Summary) -> Made<()> {
    let verdict = told.explanation.entries.verdict;
    if matches!(verdict, Verdict::Fail | Verdict::Lost | Verdict::Suspect) {
        return Ok(());
    }
    let mut line = pen_of(told.alloc, "Small things: ");
    let start = line.len();
    push_hints(&mut line, told, HintKind::OpenAtStore)?;
    push_hints(&mut line, told, HintKind::SplitWord)?;
    push_useless(&mut line, told, counts);
    pen.share(&line);
    if line.len() > start {
        line.put(".");
        push_wrapped(pen, &line, 4);
    }
    Ok(())
}

const SPLIT: &str = "a word in two cache lines, of which a crash can keep one half, at ";

// Adds where the hints of this kind are that have fewer events than an entry, if there are some.
fn push_hints(pen: &mut Pen, told: &Telling<'_>, kind: HintKind) -> Made<()> {
    let (what, enough) = match kind {
        HintKind::OpenAtStore => ("a flush unfenced at the next store, at ", LEAST_EVENTS),
        _ => (SPLIT, u64::MAX),
    };
    let hints = told.explanation.hints.iter();
    let hints = hints.filter(|hint| hint.kind == kind && hint.count < enough);
    let found: Vec<Hint> = hints.copied().collect(told.alloc)?;
    if found.is_empty() {
        return Ok(());
    }
    push_break(pen, what);
    for (index, hint) in found.iter().take(NAMED).enumerate() {
        push_comma(pen, index, found.len());
        push_spot(pen, told, hint.place);
        told.say(pen, " (*)", &[hint.count]);
    }
    push_more(pen, NAMED, found.len());
    Ok(())
}

const BOTH: &str = "% of % flush~ and % of % fence~";

// Adds how many flushes and fences do nothing, and where most.
fn push_useless(pen: &mut Pen, told: &Telling<'_>, counts: &Summary) {
    let (form, numbers) = match (counts.flushes_dropped, counts.fences_dropped) {
        (0, 0) => return,
        (flushes, 0) => ("% of % flush~", [flushes, counts.flushes, 0, 0]),
        (0, fences) => ("% of % fence~", [fences, counts.fences, 0, 0]),
        (flushes, fences) => (BOTH, [flushes, counts.flushes, fences, counts.fences]),
    };
    push_break(pen, "useless: ");
    told.say(pen, form, &numbers);
    let (mut most, mut site) = (0u64, None);
    for row in told.explanation.places.iter() {
        let idle = row.idle_flushes.saturating_add(row.idle_fences);
        if most < idle {
            most = idle;
            site = site_frame(told, row.place);
        }
    }
    if let Some(frame) = site {
        pen.put(", most at ");
        pen.put(frame);
    }
}

// Adds the next small thing's first words.
fn push_break(pen: &mut Pen, what: &str) {
    if !pen.as_str().ends_with(": ") {
        pen.put("; ");
    }
    pen.put(what);
}
