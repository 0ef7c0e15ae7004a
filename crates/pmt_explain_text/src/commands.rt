//! Commands that a text names.

use pmt_pen::Pen;
use pmt_telling::Telling;

// Adds the command with its options, of which one has this number, the labels and the trace.
pub(crate) fn push_command(pen: &mut Pen, told: &Telling<'_>, command: &str, number: u64) {
    pen.fill(command, &[number]);
    if let Some(labels) = told.screen.labels {
        pen.put(" --labels ");
        push_word(pen, labels);
    }
    push_trace(pen, told);
}

// Adds the file of the trace as the last word of a command; of standard input a word that stands for it.
pub(crate) fn push_trace(pen: &mut Pen, told: &Telling<'_>) {
    let trace = told.screen.trace.unwrap_or("TRACE");
    pen.put(if trace.starts_with("-") { " -- " } else { " " });
    push_word(pen, trace);
}

// Adds the word as a shell reads it.
pub(crate) fn push_word(pen: &mut Pen, word: &str) {
    if word.as_bytes().iter().all(|byte| is_plain(*byte)) {
        pen.put(word);
        return;
    }
    pen.put("'");
    for letter in word.chars() {
        match letter {
            '\'' => pen.put("'\\''"),
            _ => pen.letter(letter),
        }
    }
    pen.put("'");
}

// Whether a shell takes the byte as it is.
fn is_plain(byte: u8) -> bool {
    byte.is_ascii_alphanumeric() || b"_-./+,:=@%".contains(&byte)
}
