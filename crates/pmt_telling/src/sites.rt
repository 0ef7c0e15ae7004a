//! Sites, calls and paths by their names.

use crate::telling::Telling;
use crate::words::{push_comma, push_more};
use pmt_asked::frame_of;
use pmt_causes::Origin;
use pmt_pen::Pen;

// The most sites that are named.
const NAMED: usize = 9;

// What stands between two frames of a label.
const CALLED_BY: &str = " < ";

/// The innermost frame of the site's label; none of a thread.
pub fn site_frame<'a>(told: &Telling<'a>, site: Origin) -> Option<&'a str> {
    match site {
        Origin::Label(number) => Some(frame_of(told.label(number)?)),
        Origin::Thread(_) => None,
    }
}

/// Adds what the site is called: the innermost frame of its label, or its thread.
pub fn push_site(pen: &mut Pen, told: &Telling<'_>, site: Origin) {
    match site {
        Origin::Label(_) => pen.put(site_frame(told, site).unwrap_or("")),
        Origin::Thread(thread) => pen.fill("thread #", &[thread as u64]),
    }
}

/// The file and the line of the frame, in either order of these and the function; else its first word.
pub fn spot_of(frame: &str) -> &str {
    let spot = frame.split(' ').find(|word| word.contains(":"));
    spot.or(frame.split(' ').next()).unwrap_or(frame)
}

/// Adds the file and the line of the site, or its thread.
pub fn push_spot(pen: &mut Pen, told: &Telling<'_>, site: Origin) {
    match site_frame(told, site) {
        Some(frame) => pen.put(spot_of(frame)),
        None => push_site(pen, told, site),
    }
}

/// Adds the sites: one by its name, of several the file and the line, each file once.
pub fn push_sites(pen: &mut Pen, told: &Telling<'_>, sites: &[Origin]) {
    if let [site] = sites {
        push_site(pen, told, *site);
        return;
    }
    let mut before = None;
    for (index, site) in sites.iter().take(NAMED).enumerate() {
        push_comma(pen, index, sites.len());
        let (file, line) = parts_of(told, Some(*site));
        let (last_file, _) = parts_of(told, before);
        if !file.is_empty() && file == last_file {
            pen.put(line);
        } else {
            push_spot(pen, told, *site);
        }
        before = Some(*site);
    }
    push_more(pen, NAMED, sites.len());
}

// The file and the line of the site, if it has them.
fn parts_of<'a>(told: &Telling<'a>, site: Option<Origin>) -> (&'a str, &'a str) {
    match site.and_then(|site| site_frame(told, site)) {
        Some(frame) => spot_of(frame).rsplit_once(':').unwrap_or(("", "")),
        None => ("", ""),
    }
}

// Adds the frame with its function first, as `put tree.c:225`.
pub(crate) fn push_call(pen: &mut Pen, frame: &str) {
    match frame.split_once(' ') {
        Some((spot, function)) if spot.contains(":") => {
            pen.put(function);
            pen.put(" ");
            pen.put(spot);
        }
        _ => pen.put(frame),
    }
}

// The first so many frames of the label, the innermost first; all of it where it has fewer.
pub(crate) fn frames_up_to(label: &str, depth: usize) -> &str {
    let mut end = 0usize;
    for (index, frame) in label.split(CALLED_BY).take(depth).enumerate() {
        if index > 0 {
            end = end.saturating_add(CALLED_BY.len());
        }
        end = end.saturating_add(frame.len());
    }
    label.get(..end).unwrap_or(label)
}

// The frame at this depth of the label, the innermost first from 0.
pub(crate) fn frame_at(label: &str, depth: usize) -> Option<&str> {
    label.split(CALLED_BY).nth(depth)
}
