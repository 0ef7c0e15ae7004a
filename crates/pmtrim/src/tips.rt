//! What a person may have meant by words that are no command.

use command_inputs::{Fault, Opener, shell_word};
use std::alloc::{AllocError, Global};
use std::convert::AsStr;

/// The fault of these words. Where the first one names no command, but a file that is there or a program of its own, it says what to type.
pub fn with_tip<S: AsStr, O: Opener>(alloc: Global, files: &O, words: &[S], fault: Fault) -> Fault {
    match fault {
        Fault::NoCommand(text) => match told(alloc, files, words, text.as_str()) {
            Ok(text) => Fault::Usage(text),
            Err(_) => Fault::OutOfMemory,
        },
        other => other,
    }
}

// What is told of these words, which name no command.
fn told<S: AsStr, O: Opener>(
    alloc: Global,
    files: &O,
    words: &[S],
    text: &str,
) -> Result<String, AllocError> {
    let name = match words.first() {
        Some(word) => word.as_str(),
        None => "",
    };
    match name {
        "replay" | "suite" | "lines" => {
            return format!(in alloc;
                "error: '{name}' is no command of pmtrim, but a program of its own\ntip: pmtrim-{name} --help\n"
            );
        }
        _ => {}
    }
    match files.size(name) {
        Ok(Some(_)) => {
            let file = shell_word(alloc, name)?;
            let file = file.as_str();
            format!(in alloc;
                "error: {file} is no command, but a file\ntip: pmtrim explain {file}\n"
            )
        }
        _ => String::from_str(alloc, text),
    }
}
