//! Events in full.

use pmt_model::Event;
use pmt_pen::Pen;
use pmt_telling::Telling;
use pmt_text::write_event;

// Adds the event as a person finds it again: its number, line, thread, label and words.
pub(crate) fn push_event(pen: &mut Pen, told: &Telling<'_>, number: u64) {
    let Some(event) = told.trace.get(number) else {
        pen.fill("event #", &[number]);
        return;
    };
    let numbers = [number, number.saturating_add(1), event.thread as u64];
    pen.fill("event # (line #, thread #)", &numbers);
    if let Some(label) = told.label(number) {
        pen.put(" at ");
        pen.put(label);
    }
    pen.put(": ");
    push_words(pen, event);
}

// Adds the event's line in the text of its trace, which is ASCII, without its LF.
pub(crate) fn push_words(pen: &mut Pen, event: Event) {
    let Ok(line) = write_event(pen.alloc(), event) else {
        pen.refuse();
        return;
    };
    for byte in line.as_slice() {
        if *byte != b'\n' {
            pen.letter(char::from(*byte));
        }
    }
}
