//! Entries of hints.

use crate::failures::push_flush_when;
use crate::partners::{flushed_store, mark_of, partner_of};
use crate::sites::{push_call, push_site};
use crate::{Crashes, Telling, Told};
use pmt_fates::LEAST_EVENTS;
use pmt_hints::{Contrast, Hint, HintKind};
use pmt_pen::Pen;

// The most stores of a story that come after the one that publishes.
const AFTER: usize = 3;

/// What is told of the hint with this index.
pub fn hint_entry<'a>(told: &Telling<'a>, index: u64) -> Told<'a> {
    let mut entry = Told::new(told.alloc);
    let Some(hint) = told.explanation.hints.get(index as usize).copied() else {
        return entry;
    };
    push_head(&mut entry.what, told, &hint);
    push_site(&mut entry.site, told, hint.place);
    entry.gist.put(gist_of(hint.kind));
    entry.edited = Some(hint.first);
    let fence = told.next_fence(hint.first);
    let from = hint.first;
    entry.crashes = fence.map(|to| Crashes { from, to });
    match hint.kind {
        HintKind::OpenAtStore => {
            let contrast = told.explanation.entries.contrasts.get(index as usize);
            tell_open(&mut entry, told, &hint, contrast.copied());
            entry.row(fence, "safe only here");
        }
        HintKind::StoredAfterFlush => tell_late_store(&mut entry, told, &hint, fence),
        HintKind::OneLineShort => tell_short(&mut entry, told, &hint, fence),
        HintKind::SplitWord => entry.row(Some(hint.first), "the second part"),
        HintKind::StoredAfterMark => tell_mark(&mut entry, told, &hint, fence),
    }
    entry
}

/// Adds what the hint tells, where, and how often.
pub fn push_head(pen: &mut Pen, told: &Telling<'_>, hint: &Hint) {
    let form = match hint.kind {
        HintKind::OpenAtStore => "% flush~ with no fence before the next store, at ",
        HintKind::StoredAfterFlush => "a store comes after the flush of its cache line (*), at ",
        HintKind::OneLineShort => "the flush ends one cache line short (*), at ",
        HintKind::SplitWord =>
            "a word lies in two cache lines, of which a crash can keep one (*), at ",
        HintKind::StoredAfterMark => "% word~ stored after the one that publishes, at ",
    };
    told.say(pen, form, &[hint.count]);
    push_site(pen, told, hint.place);
    if let Some(path) = hint.path {
        push_caller(pen, told, path);
    }
}

// What the hint tells in a few words.
fn gist_of(kind: HintKind) -> &'static str {
    match kind {
        HintKind::OpenAtStore => "no fence before the next store",
        HintKind::StoredAfterFlush => "stored after its flush",
        HintKind::OneLineShort => "flush one line short",
        HintKind::SplitWord => "a word in two cache lines",
        HintKind::StoredAfterMark => "words stored after the one that publishes",
    }
}

// Adds the frame that calls the innermost one of the event's label, if there is one.
pub(crate) fn push_caller(pen: &mut Pen, told: &Telling<'_>, event: u64) {
    if let Some(call) = told.caller(event) {
        pen.put(" by ");
        push_call(pen, call);
    }
}

// Tells of a flush that its thread has not fenced when it stores elsewhere: what a crash between keeps and loses.
fn tell_open<'a>(entry: &mut Told<'a>, told: &Telling<'a>, hint: &Hint, counts: Option<Contrast>) {
    let flush = hint.first;
    entry.row(flushed_store(told, flush), "a crash can lose it");
    entry.row(Some(flush), "flushed, not yet fenced");
    let Some(store) = partner_of(told, hint) else {
        return;
    };
    entry.row(Some(store), "a crash can keep it");
    let mut aside = Pen::new(told.alloc);
    if let Some(call) = told.caller(store) {
        aside.fill("event # is stored by way of ", &[store]);
        push_call(&mut aside, call);
        entry.call = Some(call);
    }
    push_contrast(&mut aside, told, store, counts);
    entry.aside(aside);
    let form = "fence between events # and #, if the second must not be saved without the first";
    entry.fix.fill(form, &[flush, store]);
}

const HABIT: &str = ": a habit, fine if recovery trusts no such store before the next fence";

// Adds how many stores to the same address come while a flush waits for its fence, if there are others; so many without exception are a habit.
fn push_contrast(pen: &mut Pen, told: &Telling<'_>, store: u64, contrast: Option<Contrast>) {
    let Some(Contrast { clear, all }) = contrast.filter(|contrast| contrast.all > 1) else {
        return;
    };
    pen.put(if pen.len() > 0 { "; " } else { "" });
    let open = all.saturating_sub(clear);
    let form = "% of the % stores there to @ come with a flush unfenced";
    told.say(pen, form, &[open, all, told.address(store).unwrap_or(0)]);
    let is_habit = clear == 0 && all >= LEAST_EVENTS;
    pen.put(if is_habit { HABIT } else { "" });
}

// Tells of a store that comes after the flush of its line.
fn tell_late_store(entry: &mut Told<'_>, told: &Telling<'_>, hint: &Hint, fence: Option<u64>) {
    let store = hint.first;
    entry.row(partner_of(told, hint), "flushes the line");
    entry.row(Some(store), "too late for the flush");
    entry.row(fence, "does not save it");
    entry.fix.fill("flush line @", &[told.line_start(store)]);
    push_flush_when(&mut entry.fix, told, store, None);
}

// Tells of a flush of a run of lines that ends one line short.
fn tell_short(entry: &mut Told<'_>, told: &Telling<'_>, hint: &Hint, fence: Option<u64>) {
    let flush = hint.first;
    entry.row(partner_of(told, hint), "its cache line is not flushed");
    entry.row(Some(flush), "the last line flushed");
    entry.row(fence, "does not save all");
    let next = told.line(flush).unwrap_or(0).saturating_add(1);
    let address = told.line_address(next);
    entry.fix.fill("also flush the next line, @,", &[address]);
    push_flush_when(&mut entry.fix, told, flush, None);
}

const UNCLAIMED: &str =
    "isOrderedBefore, $, says nothing of them: a crash can keep what publishes and lose them";

// Tells of stores after the one that publishes them.
fn tell_mark(entry: &mut Told<'_>, told: &Telling<'_>, hint: &Hint, fence: Option<u64>) {
    let Some(mark) = mark_of(told, hint) else {
        entry.row(Some(hint.first), "a crash can lose it");
        return;
    };
    entry.aside(told.said(UNCLAIMED, &[mark.claim]));
    let from = mark.store;
    entry.crashes = fence.map(|to| Crashes { from, to });
    entry.row(Some(mark.store), "publishes: a crash can keep it");
    let end = fence.unwrap_or(hint.first.saturating_add(1));
    let thread = told.thread(hint.first);
    let is_after = |number: &u64| {
        told.stored(*number).is_some()
            && told.thread(*number) == thread
            && told.origin(*number) == hint.place
            && told.address(*number) != told.address(mark.store)
    };
    let mut is_one_line = true;
    for store in (hint.first..end).filter(is_after).take(AFTER) {
        entry.row(Some(store), "a crash can lose it");
        is_one_line = is_one_line && told.line(store) == told.line(mark.store);
    }
    entry.row(fence, "safe only here");
    entry.fix.put(if is_one_line {
        "store what publishes last: stores to one cache line are saved in their order"
    } else {
        "store what publishes last, after a flush and a fence of the others"
    });
}
