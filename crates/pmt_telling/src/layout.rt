//! An entry as lines: in full, and in one.

use crate::rows::{WIDTH, push_line, push_wrapped, width_of};
use crate::sites::spot_of;
use crate::story::{push_frame_source, push_story};
use crate::telling::{Made, Telling};
use crate::told::Told;
use crate::words::{pen_of, push_text};
use pmt_pen::Pen;

// The columns before the parts of an entry, and before their further lines.
const INSIDE: u64 = 4;

const FURTHER: u64 = 8;

/// Adds the entry as lines, behind its rank.
///
/// # Errors
/// Where memory was refused.
pub fn push_full(pen: &mut Pen, told: &Telling<'_>, rank: &str, entry: &Told<'_>) -> Made<()> {
    push_wrapped(pen, &head_of(rank, entry, true), INSIDE);
    for aside in entry.asides.iter() {
        push_part(pen, "", aside);
    }
    if let Some(call) = entry.call {
        push_frame_source(pen, told, call);
    }
    push_story(pen, told, entry)?;
    pen.share(&entry.fix);
    if entry.fix.len() > 0 {
        push_part(pen, "fix: ", &entry.fix);
    }
    Ok(())
}

/// Adds the entry as one line, behind its rank: without why it is so if there is no room for that, and then with the site before what names none.
pub fn push_brief(pen: &mut Pen, rank: &str, entry: &Told<'_>) {
    let line = head_of(rank, entry, true);
    if width_of(line.as_str()) <= WIDTH {
        return push_line(pen, &line);
    }
    let mut start = pen_of(pen.alloc(), rank);
    let spot = spot_of(entry.site.as_str());
    if !entry.what.as_str().contains(spot) {
        start.put(spot);
        start.put(": ");
    }
    push_line(pen, &head_of(start.as_str(), entry, false));
}

// What the entry begins with, with the reason or without.
fn head_of(rank: &str, entry: &Told<'_>, with_why: bool) -> Pen {
    let mut line = Pen::new(entry.what.alloc());
    line.put(rank);
    push_text(&mut line, &entry.what);
    if with_why && entry.why.len() > 0 {
        line.put(": ");
        line.put(entry.why.as_str());
    }
    line.share(&entry.why);
    line
}

// Adds a part of an entry, after its name.
fn push_part(pen: &mut Pen, name: &str, part: &Pen) {
    let mut line = pen_of(pen.alloc(), "    ");
    line.put(name);
    push_text(&mut line, part);
    push_wrapped(pen, &line, FURTHER);
}
