//! Losses and delays that may be meant, each with the question that decides.

use crate::commands::{push_trace, push_word};
use pmt_entries::Site;
use pmt_pen::Pen;
use pmt_telling::{
    Crashes, Made, Telling, Told, late_in, lost_in, push_all, push_lines, site_frame,
};

// The most sites that options are named for.
const FEW: usize = 3;

const AGAIN: &str =
    "): stored again and again, % time~ not saved in time. Does recovery read it? If it does, this is a bug.";

const CLAIMED: &str = ": % store~ saved late, before an assertion first claims them.";

// The loss of these sites, as a question with the command that answers it or leaves the loss out.
pub(crate) fn meant_entry<'a>(told: &Telling<'a>, sites: Vec<Site>) -> Made<Told<'a>> {
    let mut entry = Told::new(told.alloc);
    let Some(first) = sites.first() else {
        return Ok(entry);
    };
    entry.call = site_frame(told, first.row.place);
    push_all(&mut entry.what, told, sites.as_slice())?;
    if first.is_scratch || told.volatile.contains(&first.row.place) {
        push_scratch(&mut entry.what, told, sites.as_slice())?;
    } else {
        push_claimed(&mut entry.what, told, first, sites.as_slice());
    }
    Ok(entry)
}

// Adds that the stores are never saved, and what leaves them out.
fn push_scratch(pen: &mut Pen, told: &Telling<'_>, sites: &[Site]) -> Made<()> {
    let lines = sites.iter().map(|site| told.line(site.first).unwrap_or(0));
    let mut lines: Vec<u64> = lines.collect(told.alloc)?;
    lines.sort_unstable();
    lines.dedup();
    pen.put(" (");
    push_lines(pen, told, lines.as_slice());
    told.say(pen, AGAIN, &[lost_in(sites).saturating_add(late_in(sites))]);
    pen.put(if lost_in(sites) > 0 { " If not:" } else { "" });
    let by_line = sites.len() > FEW && lines.len() == 1 && told.volatile.is_empty();
    let most = if by_line { 1 } else { FEW };
    for site in sites.iter().filter(|site| site.row.lost > 0).take(most) {
        push_ignored(pen, told, site, by_line);
    }
    Ok(())
}

// Adds the option that leaves out the site: by its name, or by the cache line, as of a thread.
pub(crate) fn push_ignored(pen: &mut Pen, told: &Telling<'_>, site: &Site, by_line: bool) {
    match site_frame(told, site.row.place) {
        Some(frame) if !by_line && !frame.starts_with("-") => {
            pen.put(" --ignore-label ");
            push_word(pen, frame);
        }
        _ => {
            let size = told.trace.format().line_size();
            pen.fill(" --ignore @:#", &[told.line_start(site.first), size]);
        }
    }
}

// Adds that the stores are saved late, though before they are claimed, and what shows whether that is soon enough.
fn push_claimed(pen: &mut Pen, told: &Telling<'_>, first: &Site, sites: &[Site]) {
    told.say(pen, CLAIMED, &[late_in(sites)]);
    pen.put(" May a crash lose them until then? If not, this is a bug: ");
    let from = first.first;
    let to = first.fence.min(told.end().saturating_sub(1));
    push_replay(pen, told, &[Crashes { from, to }]);
}

// Adds the command that runs recovery on crashes: on these, by rising events, if some are named. Those that meet are one range.
pub(crate) fn push_replay(pen: &mut Pen, told: &Telling<'_>, crashes: &[Crashes]) {
    pen.put("pmtrim-replay");
    let mut end: Option<u64> = None;
    for Crashes { from, to } in crashes {
        match end {
            None => pen.fill(" --at #", &[*from]),
            Some(end) if end.saturating_add(1) < *from => pen.fill("-#,#", &[end, *from]),
            Some(_) => {}
        }
        end = Some(end.unwrap_or(0).max(*to));
    }
    if let Some(end) = end {
        pen.fill("-#", &[end]);
    }
    push_trace(pen, told);
    pen.put(" -- YOUR_CHECKER {}");
}
