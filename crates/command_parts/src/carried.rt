//! A carry that passes half a part.

use crate::reading::input_of;
use command_inputs::Fault;
use command_requests::PartsWords;
use indexmap::IndexMap;
use pmt_model::{Op, OutOfMemory, Trace, line_of};
use pmt_parts::{Part, place_in};
use std::alloc::{AllocError, Global};

/// Refuses a part that begins with more carried events than half of its most events.
///
/// # Errors
/// A fault that says how many there are, names the line to which most stores are carried, and says how to leave them out; `OutOfMemory`.
pub(crate) fn check_carried(
    alloc: Global,
    words: &PartsWords<'_>,
    part: &Part,
) -> Result<(), Fault> {
    let carried = place_in(part.numbers.as_slice(), part.place);
    if carried <= words.events / 2 {
        return Ok(());
    }
    let (name, place, events) = (input_of(words).name(), part.place, words.events);
    let hint = hint_of(alloc, &part.trace, carried)?;
    let hint = hint.as_str();
    Err(Fault::refused(format!(in alloc;
        "{name}: {carried} events are carried over event {place}: more than half of a part's {events}\n{hint}\n"
    )))
}

// What is carried, and how to leave it out.
fn hint_of(alloc: Global, trace: &Trace, carried: u64) -> Result<String, AllocError> {
    let Some((line, stores)) = fullest_line(alloc, trace, carried)? else {
        return String::from_str(alloc, "they are flushes whose threads do not fence");
    };
    let size = trace.format().line_size();
    let addr = line.saturating_mul(size);
    format!(in alloc;
        "stores to line {addr:#x} among them: {stores}, with no complete flush after them; --ignore {addr:#x}:{size} leaves them out"
    )
}

// A line to which the most of the carried stores go, and how many do; none where no store is carried.
fn fullest_line(
    alloc: Global,
    trace: &Trace,
    carried: u64,
) -> Result<Option<(u64, u64)>, OutOfMemory> {
    let mut counts: IndexMap<u64, u64> = IndexMap::new(alloc);
    let mut fullest = None;
    let mut most = 0;
    for number in 1..=carried {
        let Some(line) = stored_line(trace, number) else {
            continue;
        };
        let stores = counts.get(&line).copied().unwrap_or(0).saturating_add(1);
        counts.insert(line, stores)?;
        if stores > most {
            most = stores;
            fullest = Some((line, stores));
        }
    }
    Ok(fullest)
}

// The line to which the event with this number stores; none where it is no store.
fn stored_line(trace: &Trace, number: u64) -> Option<u64> {
    let op = trace.get(number)?.op;
    match op {
        Op::Store(store) => Some(line_of(trace.format(), store.addr())),
        _ => None,
    }
}
