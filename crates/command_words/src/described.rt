//! Commands as tables say them, made by clap.
use WordKind::{Flag, Lone, Rival, Value};
use clap::{Arg, ArgAction, Command};
use std::alloc::{AllocError, Global};

/// A command of the program.
#[derive(Clone, Copy)]
pub struct CommandText<'a> {
    /// Its name.
    pub name: &'a str,
    /// How it is used.
    pub usage: &'a str,
    /// What it does.
    pub about: &'a str,
    /// What its help ends with.
    pub after: &'a str,
    /// Its words, in the order of the help.
    pub words: &'a [Word<'a>],
}

/// A word of a command, an option or a word that stands alone: its name, what it is, and what its help says.
#[derive(Clone, Copy)]
pub struct Word<'a>(pub &'a str, pub WordKind<'a>, pub &'a str);

/// What a word of a command is.
#[derive(Clone, Copy)]
pub enum WordKind<'a> {
    /// An option without a value.
    Flag,
    /// The same, which does not stand with the flag of this name.
    Rival(&'a str),
    /// An option with a value, which help shows by this name.
    Value(&'a str),
    /// The same, which must be given.
    Needed(&'a str),
    /// The same, which may be given more than once.
    Values(&'a str),
    /// An option with a value of the list, which help shows by this name; the first of them where it is not given.
    OneOf(&'a str, &'a [&'a str]),
    /// The same without a value where it is not given; its help says which there are.
    AnyOf(&'a str, &'a [&'a str]),
    /// A word that stands alone, and may be left out.
    Lone,
    /// The same, which must be given.
    NeededLone,
    /// One to 256 words that stand alone.
    ManyLone,
}

/// The file of the trace.
pub const TRACE_FILE: Word<'static> = Word(
    "FILE",
    Lone,
    "The trace; standard input, if none is given, or -",
);

/// The file that is written.
pub const OUT_FILE: Word<'static> = Word(
    "out",
    Value("FILE"),
    "Write to FILE; to standard output, if none is given, or -",
);

/// Whether the reason stands below a fault's line.
pub const VERBOSE: Word<'static> = Word(
    "verbose",
    Flag,
    "Say the file and the reason below the line of a fault, as at a terminal",
);

/// What events are called.
pub const LABELS: Word<'static> = Word(
    "labels",
    Value("FILE"),
    "Names of events: lines 'EVENT TEXT'",
);

/// The same of a command that takes the file beside the trace, and the word that it is not to.
pub const LABELS_BESIDE: Word<'static> = Word(
    "labels",
    Value("FILE"),
    "Names of events: lines 'EVENT TEXT'; without it TRACE.labels is read,{n}if it stands beside the trace",
);

pub const NO_LABELS: Word<'static> = Word(
    "no-labels",
    Rival("labels"),
    "Read no labels that stand beside the trace",
);

/// A command, or that memory was refused when it was made.
pub type Made<'a> = Result<Command<'a>, AllocError>;

/// The command with one of its own more, of this text.
pub fn with_text<'a>(alloc: Global, command: Made<'a>, text: &CommandText<'a>) -> Made<'a> {
    let own = command_of(alloc, text)?;
    command?.subcommand(own)
}

/// The command of this text.
pub fn command_of<'a>(alloc: Global, text: &CommandText<'a>) -> Made<'a> {
    let mut command = Command::new(alloc, text.name)
        .override_usage(text.usage)
        .about(text.about)
        .after_help(text.after);
    for word in text.words {
        command = with_word(alloc, command, word)?;
    }
    Ok(command)
}

// The command with this word.
fn with_word<'a>(alloc: Global, command: Command<'a>, word: &Word<'a>) -> Made<'a> {
    let argument = argument_of(alloc, word)?;
    command.arg(argument)
}

// The argument of the word.
fn argument_of<'a>(alloc: Global, word: &Word<'a>) -> Result<Arg<'a>, AllocError> {
    let Word(name, kind, help) = *word;
    let argument = Arg::new(alloc, name).help(help);
    match kind {
        Lone => Ok(argument),
        WordKind::NeededLone => Ok(argument.required(true)),
        WordKind::ManyLone => Ok(
            argument
                .required(true)
                .action(ArgAction::Append)
                .num_args(1..=256),
        ),
        _ => option_of(with_letter(argument, name), kind),
    }
}

// The argument with the name of the option and its letter.
fn with_letter<'a>(argument: Arg<'a>, name: &'a str) -> Arg<'a> {
    let named = argument.long(name);
    match letter_of(name) {
        Some(letter) => named.short(letter),
        None => named,
    }
}

// The letter of the option with this name, if it has one.
fn letter_of(name: &str) -> Option<char> {
    match name {
        "workers" => Some('j'),
        "verbose" => Some('v'),
        "out" => Some('o'),
        _ => None,
    }
}

// The argument as an option of this kind.
fn option_of<'a>(argument: Arg<'a>, kind: WordKind<'a>) -> Result<Arg<'a>, AllocError> {
    match kind {
        Rival(other) => argument.action(ArgAction::SetTrue).conflicts_with(other),
        Value(shown) => Ok(argument.value_name(shown)),
        WordKind::Needed(shown) => Ok(argument.value_name(shown).required(true)),
        WordKind::Values(shown) => Ok(argument.value_name(shown).action(ArgAction::Append)),
        WordKind::OneOf(shown, values) => Ok(
            argument
                .value_name(shown)
                .value_parser(values)
                .default_value(values.first().copied().unwrap_or("")),
        ),
        WordKind::AnyOf(shown, values) => Ok(
            argument
                .value_name(shown)
                .value_parser(values)
                .hide_possible_values(true),
        ),
        _ => Ok(argument.action(ArgAction::SetTrue)),
    }
}
