//! What is measured of a trace.

use command_inputs::{Fault, Input, Opener, cut_of, labels_of, trace_of};
use command_requests::{StatWords, options_for};
use pmt_asked::{Cut, Kind, Labels, frame_of};
use pmt_causes::Origin;
use pmt_explain_run::explain;
use pmt_explanation::{Summary, summary_of};
use pmt_fates::{Cost, Figures, PlaceCost, PlaceRow, cost_of, figures_of, sort_places};
use pmt_model::OutOfMemory;
use pmt_text::ListSource;
use std::alloc::Global;
use std::collections::BTreeMap;
use std::io::Read;
use std::thread::Threads;

// What is measured of a trace.
#[derive(Drop)]
pub(crate) struct Measured {
    // The counts that an explanation begins with.
    pub(crate) summary: Summary,
    // How many bytes a line has.
    pub(crate) line_size: u64,
    // The figures of events and fences.
    pub(crate) figures: Figures,
    // What each place pays that flushes or fences, in the order in which places are told.
    pub(crate) places: Vec<PlaceCost>,
    // Where and why the trace was cut, if it was.
    pub(crate) cut: Option<Cut>,
}

// What is measured of the trace of the file or of `input`, with the labels of the file.
pub(crate) fn measured_of<T: Threads + Sync, O: Opener, I: Read>(
    rt: &T,
    alloc: Global,
    words: &StatWords<'_>,
    files: &O,
    input: &mut I,
) -> Result<Measured, Fault> {
    let labels = labels_of(alloc, files, words.labels)?;
    let trace = trace_of(alloc, Input::new("stat", words.file), files, input)?;
    // Nothing is asked of the explanation but what each place has.
    let options = options_for(alloc, Some(Kind::Unwritten));
    let mut source = ListSource::new(&trace);
    let Ok(explanation) = explain(rt, alloc, &mut source, &labels, &options) else {
        return Err(Fault::OutOfMemory);
    };
    Ok(Measured {
        summary: summary_of(&explanation),
        line_size: trace.format().line_size(),
        figures: figures_of(alloc, &trace)?,
        places: places_of(alloc, explanation.places.as_slice(), &labels)?,
        cut: cut_of(alloc, files, words.file)?,
    })
}

// What each place pays that flushes or fences. Places of one name are one.
fn places_of(
    alloc: Global,
    rows: &[PlaceRow],
    labels: &Labels,
) -> Result<Vec<PlaceCost>, OutOfMemory> {
    let mut costs = BTreeMap::new(alloc);
    for row in rows {
        add_row(alloc, &mut costs, row, labels)?;
    }
    let mut places = Vec::new(alloc);
    for (name, cost) in costs.iter() {
        places.push(PlaceCost {
            name: name.clone()?,
            cost: *cost,
        })?;
    }
    sort_places(&mut places)?;
    Ok(places)
}

// What places pay, by their names.
type Costs = BTreeMap<String, Cost>;

// Adds what the place of the row pays, if it pays.
fn add_row(
    alloc: Global,
    costs: &mut Costs,
    row: &PlaceRow,
    labels: &Labels,
) -> Result<(), OutOfMemory> {
    if row.flushes == 0 && row.fences == 0 {
        return Ok(());
    }
    let name = name_of(alloc, row.place, labels)?;
    let cost = match costs.get(name.as_str()) {
        Some(before) => sum_of(before, row),
        None => cost_of(row),
    };
    costs.insert(name, cost)?;
    Ok(())
}

// The cost, and what the place of the row pays.
fn sum_of(cost: &Cost, row: &PlaceRow) -> Cost {
    Cost {
        flushes: cost.flushes.saturating_add(row.flushes),
        idle_flushes: cost.idle_flushes.saturating_add(row.idle_flushes),
        fences: cost.fences.saturating_add(row.fences),
        idle_fences: cost.idle_fences.saturating_add(row.idle_fences),
    }
}

// What the place is called: the innermost frame of its label, or the label where that is empty; or its thread.
fn name_of(alloc: Global, place: Origin, labels: &Labels) -> Result<String, OutOfMemory> {
    match place {
        Origin::Label(number) => match labels.get(number) {
            Some(label) => String::from_str(alloc, named_part(label.as_str())),
            None => Ok(String::new(alloc)),
        },
        Origin::Thread(thread) => format!(in alloc; "thread {thread}"),
    }
}

// The part of the label that names a place.
fn named_part(label: &str) -> &str {
    let frame = frame_of(label);
    if frame.is_empty() { label } else { frame }
}
