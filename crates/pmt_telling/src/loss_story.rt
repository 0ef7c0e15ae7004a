//! Why a store is never saved, or late: the reason, the few events that tell it, and the fix.

use crate::losses::{late_in, sign_of};
use crate::partners::{IN_VAIN, early_flush, is_stray};
use crate::sites::{push_call, push_site};
use crate::telling::NEAR;
use crate::{Crashes, Made, Telling, Told, push_lines};
use pmt_entries::Site;
use pmt_hints::HintKind;
use pmt_pen::Pen;
use pmt_slices::{StorePart, StoreStory, store_story_of};

// Why a store is lost or late.
#[derive(Clone, Copy, PartialEq, Eq)]
enum Why {
    // It comes after this flush of its line.
    AfterFlush(Option<u64>),
    // This flush is the last one, and the store is to the next line.
    Short(u64),
    NeverFlushed,
    // It is flushed only after the next fence of its thread.
    FlushedLate,
    // This flush is never fenced, or not in time.
    NeverFenced(u64),
    FencedLate(u64),
}

// A store that is lost or late, and what is known of it.
#[derive(Drop)]
struct Shown {
    store: u64,
    // The next fence of its thread; a number behind the last event where there is none.
    fence: u64,
    story: StoreStory,
    why: Why,
    // The lines of the stores that the same call misses, and the last of these stores.
    lines: Vec<u64>,
    last: u64,
}

// Adds the reason, the story and the fix of a store of the main site of these.
pub(crate) fn add_story(
    told: &Telling<'_>,
    main: &Site,
    sites: &[Site],
    entry: &mut Told<'_>,
) -> Made<()> {
    let Some(story) = store_story_of(told.alloc, told.trace, main.first)? else {
        return Ok(());
    };
    let mut shown = Shown {
        store: main.first,
        fence: main.fence,
        why: why_of(told, main, &story),
        story,
        lines: Vec::new(told.alloc),
        last: main.first,
    };
    add_call(told, sites, &mut shown)?;
    entry.why.put(match shown.why {
        Why::NeverFlushed if late_in(sites) > 0 => words_of(Why::FlushedLate),
        why => words_of(why),
    });
    if let Why::Short(flush) = shown.why {
        entry.site = Pen::new(told.alloc);
        push_site(&mut entry.site, told, told.origin(flush));
    }
    add_rows(told, &shown, entry);
    tell_fix(entry, told, &shown);
    entry.row(entry.edited, "the last of them");
    entry.crashes = crashes_of(told, &shown);
    Ok(())
}

// The crashes that can lose the store: until it is safe; of one that is never safe, until its thread's next fence.
fn crashes_of(told: &Telling<'_>, shown: &Shown) -> Option<Crashes> {
    let from = shown.store;
    let last = shown.story.numbers().last().copied()?;
    let is_safe = shown.story.is_safe();
    let to = if is_safe { last } else { shown.fence };
    Some(Crashes { from, to }).filter(|_| to < told.end())
}

// Why the main site's first missed store is so.
fn why_of(told: &Telling<'_>, main: &Site, story: &StoreStory) -> Why {
    if let Some(hint) = sign_of(told, main) {
        match hint.kind {
            HintKind::StoredAfterFlush => {
                return Why::AfterFlush(early_flush(told, main.first));
            }
            HintKind::OneLineShort => return Why::Short(hint.first),
            HintKind::SplitWord | HintKind::OpenAtStore | HintKind::StoredAfterMark => {}
        }
    }
    match story.flush() {
        None => Why::NeverFlushed,
        Some(flush) if flush > main.fence => Why::FlushedLate,
        Some(flush) if story.is_safe() => Why::FencedLate(flush),
        Some(flush) => Why::NeverFenced(flush),
    }
}

// Why it is so, in words.
fn words_of(why: Why) -> &'static str {
    match why {
        Why::AfterFlush(_) => "stored after the flush of the cache line",
        Why::Short(_) => "the flush ends one cache line short",
        Why::NeverFlushed => "no flush of the cache line follows",
        Why::FlushedLate => "the cache line is not flushed before the next fence",
        Why::NeverFenced(_) => "flushed, and never fenced by the thread that flushes",
        Why::FencedLate(_) => "flushed, and not fenced in time",
    }
}

// Notes what the same call misses at these sites: what its thread stores before its next fence.
fn add_call(told: &Telling<'_>, sites: &[Site], shown: &mut Shown) -> Made<()> {
    let thread = told.thread(shown.store);
    let loses = told.is_lost(shown.store);
    for number in shown.store..shown.fence.min(shown.store.saturating_add(NEAR)) {
        let place = told.origin(number);
        let is_late = !loses && told.waited(number) >= 2;
        let is_missed = is_late || loses && told.is_lost(number);
        let is_here = sites.iter().any(|site| site.row.place == place);
        if is_missed && told.thread(number) == thread && is_here {
            shown.lines.push(told.line(number).unwrap_or(0))?;
            shown.last = number;
        }
    }
    shown.lines.sort_unstable();
    shown.lines.dedup();
    Ok(())
}

// Adds the events that tell why, with what each is to the store.
fn add_rows(told: &Telling<'_>, shown: &Shown, entry: &mut Told<'_>) {
    match shown.why {
        Why::Short(flush) => entry.row(Some(flush), "the last line flushed"),
        Why::AfterFlush(flush) => entry.row(flush, "flushes the line, too early"),
        Why::NeverFenced(_) | Why::FencedLate(_) => {}
        Why::NeverFlushed | Why::FlushedLate => {
            let end = told.next_fence(shown.fence).unwrap_or(shown.fence);
            let store = shown.store;
            let mut near = store..end.min(store.saturating_add(NEAR));
            let stray = near.find(|number| is_stray(told, store, *number));
            entry.row(stray, IN_VAIN);
            let thread = told.thread(store);
            let mut near = store..shown.fence.min(store.saturating_add(NEAR));
            let other = near.find(|number| told.is_flush(*number)
                && told.thread(*number) == thread);
            entry.row(other.filter(|_| stray.is_none()), "flushes another line");
        }
    }
    for number in shown.story.numbers() {
        let part = shown.story.part(*number);
        if part != StorePart::Other {
            entry.noted(*number, note_of(told, shown, *number, part));
        }
    }
    let mut numbers = shown.story.numbers().iter().rev();
    let saver = numbers.find(|number| told.is_flush(**number)
        && shown.story.part(**number) != StorePart::Other);
    let caller = saver.and_then(|flush| told.caller(*flush));
    if let Some(caller) = caller.filter(|_| shown.story.is_safe()) {
        let mut line = told.said("flushed at last by way of ", &[]);
        push_call(&mut line, caller);
        entry.aside(line);
    }
}

// What the event is to the store.
fn note_of(told: &Telling<'_>, shown: &Shown, number: u64, part: StorePart) -> Pen {
    let is_safe = shown.story.is_safe();
    let is_own = told.thread(number) == told.thread(shown.store);
    let form = match part {
        StorePart::Store if is_safe => "late by % fence~",
        StorePart::Store => "never saved",
        StorePart::Other => "flushes another line",
        StorePart::OwnFence => "does not save it",
        StorePart::Flush if is_safe => "the first flush after the store",
        StorePart::Flush => "its flush, never fenced",
        StorePart::Cover => "the flush that saves it",
        StorePart::Fence if is_own => "does not save it",
        StorePart::Fence => "of another thread: does not help",
        StorePart::Saves => "safe only here",
    };
    told.said(form, &[told.waited(number)])
}

// Tells what saves the store in time, and at which event: the flush that does not, or the last store that is missed.
fn tell_fix(entry: &mut Told<'_>, told: &Telling<'_>, shown: &Shown) {
    let lines = shown.lines.as_slice();
    let pen = &mut entry.fix;
    entry.edited = match shown.why {
        Why::NeverFenced(flush) | Why::FencedLate(flush) => {
            let numbers = [told.thread(flush) as u64, flush];
            told.say(pen, "fence by thread # after $", &numbers);
            entry.edited = Some(flush);
            return;
        }
        Why::Short(flush) => {
            push_site(pen, told, told.origin(flush));
            pen.put(" must flush all that is stored: also ");
            push_lines(pen, told, lines);
            Some(flush)
        }
        Why::AfterFlush(_) | Why::NeverFlushed | Why::FlushedLate => {
            pen.put("flush ");
            push_lines(pen, told, lines);
            told.say(pen, " after $", &[shown.last]);
            Some(shown.last)
        }
    };
    if shown.fence < told.end() {
        pen.fill(", before event #", &[shown.fence]);
    } else {
        pen.put(", and fence");
    }
}
