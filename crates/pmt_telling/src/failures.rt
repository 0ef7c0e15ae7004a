//! Entries of failed assertions.

use crate::contrast::{add_failing_call, push_share};
use crate::losses::sign_of;
use crate::partners::{IN_VAIN, Saving, early_flush, flush_after, is_stray, saving_of};
use crate::sites::{push_site, push_spot, site_frame};
use crate::telling::{Made, NEAR, Telling};
use crate::told::Told;
use crate::words::{named_of, pen_of, push_comma, push_more};
use pmt_causes::{AssertionKind, FailureKey, Group, Origin};
use pmt_entries::Site;
use pmt_failures::ShownFailure;
use pmt_hints::HintKind;
use pmt_pen::Pen;
use pmt_reasons::{Cause, Mend};

/// What is told of so many causes of failed assertions from the one with this index on; nothing where it is not known in full.
/// With its whole story it takes a look at all assertions, and at the events after the lost store.
///
/// # Errors
/// Where memory was refused.
pub fn failure_entry<'a>(told: &Telling<'a>, at: u64, count: usize, whole: bool) -> Made<Told<'a>> {
    let mut entry = Told::new(told.alloc);
    let Some(shown) = told.explanation.failures.get(at as usize).copied() else {
        return Ok(entry);
    };
    let saving = saving_of(told, shown.failure.lost.store, whole)?;
    let early = early_for(told, &shown, saving);
    push_what(&mut entry.what, told, &shown, early.is_some());
    push_claims(&mut entry.why, told, at, count);
    push_site(&mut entry.site, told, told.origin(shown.event));
    entry.gist.put("a crash can lose it");
    if whole {
        add_failing_call(&mut entry, told, shown.event);
    }
    add_story(&mut entry, told, &shown, saving);
    add_missed(&mut entry, told, shown.failure.lost.store);
    match early {
        Some(saves) => tell_publishing(&mut entry, told, &shown, saves),
        None => tell_fix(&mut entry, told, shown.mend),
    }
    Ok(entry)
}

// What makes the lost store safe after another thread has claimed it, by the store's own thread: then the fault is that the other one went on.
fn early_for(told: &Telling<'_>, shown: &ShownFailure, saving: Saving) -> Option<u64> {
    let thread = told.thread(shown.failure.lost.store);
    let is_claimed = !matches!(shown.cause, Cause::Later) && thread != told.thread(shown.event);
    let saves = saving.saves.filter(|saves| shown.event < *saves);
    saves.filter(|saves| is_claimed && thread == told.thread(*saves))
}

// Adds what a crash does.
fn push_what(pen: &mut Pen, told: &Telling<'_>, shown: &ShownFailure, is_early: bool) {
    let form = if is_early {
        "published too early: thread # goes on with what thread # has stored, but not saved yet"
    } else if shown.failure.kept.is_some() {
        "a crash can keep the second range and lose the first"
    } else {
        "a crash can lose what is claimed to be saved"
    };
    let other = told.thread(shown.event) as u64;
    let own = told.thread(shown.failure.lost.store) as u64;
    pen.fill(form, &[other, own]);
}

// Adds the assertions of the causes that are told together.
fn push_claims(pen: &mut Pen, told: &Telling<'_>, index: u64, count: usize) {
    let named = named_of(count);
    let causes = told.explanation.causes.iter().skip(index as usize);
    for (place, cause) in causes.take(named).enumerate() {
        push_comma(pen, place, count);
        push_claim(pen, told, cause);
    }
    push_more(pen, named, count);
}

/// Adds the assertions of the cause, where they are made, and how many they are.
pub fn push_claim(pen: &mut Pen, told: &Telling<'_>, cause: &Group<FailureKey>) {
    pen.put(match cause.key.kind {
        AssertionKind::Persist => "isPersist",
        AssertionKind::Ordered => "isOrderedBefore",
    });
    match cause.key.origin {
        Origin::Label(_) => {
            pen.put(" at ");
            push_spot(pen, told, cause.key.origin);
        }
        Origin::Thread(thread) => push_thread(pen, told, thread),
    }
    told.say(pen, " (*)", &[cause.members.len() as u64]);
}

// Adds by which thread it is, if there are several.
fn push_thread(pen: &mut Pen, told: &Telling<'_>, thread: u8) {
    if told.has_threads {
        pen.fill(" by thread #", &[thread as u64]);
    }
}

// Adds how many stores of the store's line of source are lost or late, if it has several.
fn add_missed(entry: &mut Told<'_>, told: &Telling<'_>, store: u64) {
    let place = told.origin(store);
    let mut sites = told.explanation.entries.sites.iter();
    let site = sites.find(|site| site.row.place == place && site.row.stores > 1);
    if let Some(site) = site.filter(|_| site_frame(told, place).is_some()) {
        let mut line = pen_of(told.alloc, "lost or late: ");
        push_share(&mut line, told, &site.row, 2);
        entry.aside(line);
    }
}

/// Whether an assertion told in full loses a store of this site, and says what the site's sign says, if it has one.
pub fn tells_loss(told: &Telling<'_>, site: &Site) -> bool {
    let sign = sign_of(told, site).map(|hint| hint.kind);
    let mut failures = told.explanation.failures.iter();
    failures.any(|shown| told.origin(shown.failure.lost.store) == site.row.place
        && match sign {
            None => true,
            Some(HintKind::StoredAfterFlush) => early_for_lost(told, shown).is_some(),
            Some(_) => false,
        })
}

const STORED_AFTER: &str = "the lost store comes after the flush of its cache line";

// The flush of the lost store's cache line that comes too early for it, where none follows by the crash.
fn early_for_lost(told: &Telling<'_>, shown: &ShownFailure) -> Option<u64> {
    let flush = early_flush(told, shown.failure.lost.store);
    flush.filter(|_| matches!(shown.cause, Cause::Unflushed))
}

const LAST_LINE: &str = "the range's last cache line is lost: does the flush end one line short?";

// Whether the assertion loses the last of several cache lines of its range, which its thread does not flush by its next fence.
fn loses_last_line(told: &Telling<'_>, shown: &ShownFailure) -> bool {
    let Some(range) = told.first_range(shown.event) else {
        return false;
    };
    let size = told.trace.format().line_size();
    let last = range.end.saturating_sub(1) / size;
    let lost = shown.failure.lost;
    range.start / size < last && lost.byte / size == last && flush_after(told, lost.store).is_none()
}

// Adds the events that tell why the store is lost, and what may be wrong with a flush: where it stands, its length, or its address.
fn add_story(entry: &mut Told<'_>, told: &Telling<'_>, shown: &ShownFailure, saving: Saving) {
    let kept = shown.failure.kept.map(|kept| kept.store);
    let claim = match kept {
        Some(_) => "claims the order",
        None => "claims it is saved",
    };
    entry.row(Some(shown.failure.lost.store), "a crash can lose it");
    entry.row(kept, "a crash can keep it");
    entry.row(Some(shown.event), claim);
    match shown.cause {
        Cause::Later => return,
        Cause::Unflushed => {
            let lost = shown.failure.lost.store;
            let early = early_flush(told, lost);
            entry.row(early, "before the store: too early");
            if early.is_some() {
                entry.aside(pen_of(told.alloc, STORED_AFTER));
            } else if loses_last_line(told, shown) {
                entry.aside(pen_of(told.alloc, LAST_LINE));
            }
            let mut near = lost..shown.event.min(lost.saturating_add(NEAR));
            let stray = near.find(|number| is_stray(told, lost, *number));
            entry.row(stray.filter(|_| early.is_none()), IN_VAIN);
            let flush = saving.flush.filter(|flush| saving.saves != Some(*flush));
            entry.row(flush, "flushed only here");
        }
        Cause::Unfenced { flush, other, .. } => {
            entry.row(Some(flush), "flushed, not yet fenced");
            entry.row(other, "of another thread: does not help");
        }
    }
    entry.row(saving.saves, "safe only here");
}

// Tells after what the other thread may go on.
fn tell_publishing(entry: &mut Told<'_>, told: &Telling<'_>, shown: &ShownFailure, saves: u64) {
    let form = "publish to thread # only after thread # has made $";
    let other = told.thread(shown.event) as u64;
    let own = told.thread(saves) as u64;
    told.say(&mut entry.fix, form, &[other, own, saves]);
    entry.edited = Some(shown.event);
}

// Tells what mends it.
fn tell_fix(entry: &mut Told<'_>, told: &Telling<'_>, mend: Mend) {
    let fix = &mut entry.fix;
    entry.edited = match mend {
        Mend::Fence {
            thread,
            after,
            before,
        } => {
            fix.put("fence");
            push_thread(fix, told, thread);
            push_between(fix, told, after, before);
            Some(after)
        }
        Mend::FlushAndFence {
            line,
            after,
            before,
        } => {
            fix.fill("flush line @", &[told.line_address(line)]);
            push_flush_when(fix, told, after, before);
            Some(after)
        }
        Mend::StoreFirst {
            store,
            before,
            same_line,
        } => {
            let events = [store, before.unwrap_or(0)];
            told.say(fix, "make the store of $ first, before $", &events);
            if !same_line {
                fix.put(", and flush and fence between");
            }
            Some(store)
        }
    };
}

// Adds the two events between which it belongs.
fn push_between(pen: &mut Pen, told: &Telling<'_>, after: u64, before: Option<u64>) {
    told.say(pen, " after $", &[after]);
    if let Some(before) = before {
        told.say(pen, " and before $", &[before]);
    }
}

// Adds when to flush, and to fence if the thread does not do so in time.
pub(crate) fn push_flush_when(pen: &mut Pen, told: &Telling<'_>, after: u64, before: Option<u64>) {
    let fence = told.next_fence(after).unwrap_or(u64::MAX);
    if fence < before.unwrap_or(u64::MAX) {
        told.say(pen, " after $, before the next fence", &[after]);
        push_thread(pen, told, told.thread(after));
    } else {
        pen.put(" and fence,");
        push_between(pen, told, after, before);
    }
}
