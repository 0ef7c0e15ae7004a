//! The figures of a trace as a text for people.

use crate::measured::Measured;
use pmt_asked::Cut;
use pmt_explanation::{Summary, per_cent};
use pmt_fates::{Cost, Counts, Figures, PlaceCost};
use pmt_model::OutOfMemory;
use std::alloc::{AllocError, Global};

const PLACES_HEAD: &str = "
places: flushes and fences of each, and how many of them do nothing (idle), those with most first:
  flushes     idle   fences     idle  idle %  place
";

const FENCES_HEAD: &str = "
fences: how many wait for so many flushes (clwb, clflushopt) of their thread since its last fence:
        0        1        2      3-4      5-8     9-16      17+
";

const EVENTS_HEAD: &str = "
events of each kind, and the bytes that are stored:
  events  stores    bytes    clwb clflushopt clflush  sfence mfence isPersist isOrdered
";

// The figures, what matters first.
pub(crate) fn people_text(alloc: Global, own: &Measured) -> Result<Vec<u8>, OutOfMemory> {
    let mut text = Vec::new(alloc);
    if let Some(cut) = &own.cut {
        add(&mut text, cut_told(alloc, cut))?;
    }
    add(&mut text, head(alloc, own))?;
    push_places(alloc, &mut text, own.places.as_slice())?;
    push_fences(alloc, &mut text, &own.figures, own.summary.fences)?;
    push_events(alloc, &mut text, &own.figures)?;
    Ok(text)
}

// Adds the words.
fn add(text: &mut Vec<u8>, words: Result<String, AllocError>) -> Result<(), AllocError> {
    let words = words?;
    text.extend_from_slice(words.as_bytes())
}

// That the trace was cut.
fn cut_told(alloc: Global, cut: &Cut) -> Result<String, AllocError> {
    let after = match cut.event {
        Some(event) => format!(in alloc; " after event {event}")?,
        None => String::new(alloc),
    };
    let (after, why) = (after.as_str(), cut.why.as_str());
    let colon = if why.is_empty() { "" } else { ": " };
    format!(in alloc;
        "This trace was cut{after}{colon}{why}\nIts figures are of what was recorded, not of the whole run.\n\n"
    )
}

// How much there is, and how much of it does nothing.
fn head(alloc: Global, own: &Measured) -> Result<String, AllocError> {
    let Summary {
        events,
        threads,
        cache_lines,
        flushes,
        flushes_dropped,
        fences,
        fences_dropped,
        ..
    } = &own.summary;
    let (size, bytes) = (own.line_size, own.figures.all.bytes);
    let idle_flushes = per_cent(*flushes_dropped, *flushes);
    let idle_fences = per_cent(*fences_dropped, *fences);
    format!(in alloc;
        "events {events}, threads {threads}, cache lines {cache_lines} of {size} bytes, bytes stored {bytes}\n  flushes that do nothing: {flushes_dropped} of {flushes} ({idle_flushes}%)\n  fences that do nothing: {fences_dropped} of {fences} ({idle_fences}%)\n"
    )
}

// Adds what places pay.
fn push_places(alloc: Global, text: &mut Vec<u8>, places: &[PlaceCost]) -> Result<(), AllocError> {
    if places.is_empty() {
        return Ok(());
    }
    text.extend_from_slice(PLACES_HEAD.as_bytes())?;
    for place in places {
        add(text, place_row(alloc, place))?;
    }
    Ok(())
}

fn place_row(alloc: Global, place: &PlaceCost) -> Result<String, AllocError> {
    let Cost {
        flushes,
        idle_flushes,
        fences,
        idle_fences,
    } = place.cost;
    let all = flushes.saturating_add(fences);
    let idle = per_cent(idle_flushes.saturating_add(idle_fences), all);
    let name = place.name.as_str();
    format!(in alloc; "{flushes:>9}{idle_flushes:>9}{fences:>9}{idle_fences:>9}{idle:>8}  {name}\n")
}

// Adds how full fences are, of which there are so many.
fn push_fences(
    alloc: Global,
    text: &mut Vec<u8>,
    figures: &Figures,
    count: u64,
) -> Result<(), AllocError> {
    if count == 0 {
        return Ok(());
    }
    let Figures { all, fences, .. } = figures;
    text.extend_from_slice(FENCES_HEAD.as_bytes())?;
    for bar in fences.bars.iter() {
        add(text, format!(in alloc; "{bar:>9}"))?;
    }
    let tenths = fences.flushes.saturating_mul(10) / count;
    let (whole, tenth) = (tenths / 10, tenths % 10);
    let most = fences.most;
    let unfenced = all
        .clwbs
        .saturating_add(all.clflushopts)
        .saturating_sub(fences.flushes);
    let last = format!(in alloc;
        "\n  on average {whole}.{tenth}, at most {most}; flushes that no fence of their thread follows: {unfenced}\n"
    );
    add(text, last)
}

// Adds the events of each kind, of all threads and of each.
fn push_events(alloc: Global, text: &mut Vec<u8>, figures: &Figures) -> Result<(), AllocError> {
    text.extend_from_slice(EVENTS_HEAD.as_bytes())?;
    add(text, counts_row(alloc, &figures.all, "all"))?;
    if figures.threads.len() < 2 {
        return Ok(());
    }
    for row in &figures.threads {
        let thread = row.thread;
        let name = format!(in alloc; "thread {thread}")?;
        add(text, counts_row(alloc, &row.counts, name.as_str()))?;
    }
    Ok(())
}

fn counts_row(alloc: Global, counts: &Counts, whose: &str) -> Result<String, AllocError> {
    let Counts {
        events,
        stores,
        clwbs,
        clflushopts,
        clflushes,
        sfences,
        mfences,
        persists,
        orders,
        bytes,
    } = counts;
    format!(in alloc;
        "{events:>8}{stores:>8}{bytes:>9}{clwbs:>8}{clflushopts:>11}{clflushes:>8}{sfences:>8}{mfences:>7}{persists:>10}{orders:>10}  {whose}\n"
    )
}
