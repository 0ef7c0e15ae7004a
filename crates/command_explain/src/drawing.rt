//! Drawing a trace.
ghost use Rattle.std.specs.Prelude.{◌≡◌, IfOk};

use crate::first_told::first_subject;
use command_inputs::{
    Fault, Input, Opener, Recalls, counted_reader, labels_of, opened, untaken, write_named,
};
use command_requests::{AskedEvents, Drawing, options_for};
use pmt_asked::{Kind, Labels};
use pmt_draw::svg_text;
use pmt_explain_run::explain;
use pmt_explanation::Explanation;
use pmt_picture::{DrawnSubject, KnownTrace, NotDrawn, about_of, picture_of, refusal_of};
use pmt_text::TextSource;
use std::alloc::Global;
use std::io::{Read, Write};
use std::thread::Threads;

/// Draws the trace of the file, or that of `input` where none is named, into the file that is named or to `out`. The status is 0.
///
/// # Errors
/// The fault of the labels, of the trace or of the write; `OutOfMemory`.
pub fn draw<T: Threads + Sync, O: Opener, I: Read, W: Write>(
    rt: &T,
    alloc: Global,
    drawing: &Drawing<'_>,
    files: &O,
    input: &mut I,
    out: &mut W,
) -> Result<u8, Fault>
    ensures { IfOk result (λ status. status ≡ 0) }
{
    let labels = labels_of(alloc, files, drawing.labels)?;
    let explanation = match drawing.file {
        Some(name) => {
            let reader = opened(alloc, files, name)?;
            explained(rt, alloc, drawing, &labels, reader)?
        }
        None => explained(rt, alloc, drawing, &labels, input)?,
    };
    let text = svg_of(alloc, &explanation, drawing.events, &labels)?;
    let read = [drawing.file, drawing.labels];
    write_named(alloc, files, drawing.out, &read, text.into_bytes(), out)?;
    Ok(0)
}

// The explanation of the trace that the reader gives, with what the picture that is asked for needs.
fn explained<T: Threads + Sync, R: Read + Drop>(
    rt: &T,
    alloc: Global,
    drawing: &Drawing<'_>,
    labels: &Labels,
    reader: R,
) -> Result<Explanation, Fault> {
    let options = options_for(alloc, needed_by(drawing.events));
    let reader = counted_reader(alloc, reader, Recalls::LastLines)?;
    let mut source = TextSource::new(alloc, reader);
    match explain(rt, alloc, &mut source, labels, &options) {
        Ok(explanation) => Ok(explanation),
        Err(error) => Err(untaken(alloc, Input::new("draw", drawing.file), error, source)),
    }
}

// The kind of findings that a picture of these events needs: to draw what is told first all of them, and else those of the signs.
fn needed_by(asked: AskedEvents) -> Option<Kind> {
    match asked {
        AskedEvents::First => None,
        AskedEvents::Failure(_) | AskedEvents::Around(_) => Some(Kind::Dropped),
    }
}

/// The picture of what the explanation tells first, as SVG.
///
/// # Errors
/// `OutOfMemory`.
pub fn first_picture(
    alloc: Global,
    explanation: &Explanation,
    labels: &Labels,
) -> Result<String, Fault> {
    svg_of(alloc, explanation, AskedEvents::First, labels)
}

// The picture of what is asked for as SVG, with these labels.
fn svg_of(
    alloc: Global,
    explanation: &Explanation,
    asked: AskedEvents,
    labels: &Labels,
) -> Result<String, Fault> {
    let analysis = &explanation.analysis;
    let known = KnownTrace {
        trace: analysis.trace(),
        lines: analysis.lines() as u64,
        verdicts: analysis.verdicts(),
        never: explanation.stores.as_slice(),
        dropped: explanation.dropped.as_slice(),
    };
    let subject = match asked {
        AskedEvents::First => first_subject(explanation),
        AskedEvents::Failure(number) => DrawnSubject::Failure(number),
        AskedEvents::Around(number) => DrawnSubject::Around(number),
    };
    if let Some(refusal) = refusal_of(known, subject) {
        return Err(refused(alloc, refusal, known.trace.len()));
    }
    let about = about_of(alloc, known, subject)?;
    let picture = picture_of(alloc, known, about)?;
    Ok(svg_text(alloc, &picture, labels)?)
}

// The fault of words that are not of the trace with so many events.
fn refused(alloc: Global, refusal: NotDrawn, events: usize) -> Fault {
    let message = match refusal {
        NotDrawn::PastEnd(number) => format!(in alloc;
            "event {number} lies past the end: the trace has {events} events"
        ),
        NotDrawn::NoAssertion(number) => format!(in alloc;
            "event {number} is no assertion, so '--failure {number}' has nothing to draw"
        ),
        NotDrawn::Passes(number) => format!(in alloc;
            "the assertion of event {number} passes, so '--failure {number}' has nothing to draw"
        ),
    };
    Fault::usage_of(alloc, message)
}
