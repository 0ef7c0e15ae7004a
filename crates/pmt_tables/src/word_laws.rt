//! What words tell of a trace: each function has an empty body, and its contract states a law.

ghost use Rattle.pmt_tables.specs.Lasts.{OverwrittenByWord, WordsGoOn};

/// The last stores to the bytes of a word go on event by event.
pub fn words_go_on()
    ensures { WordsGoOn }
{}

/// A store overwrites those of the last stores to its bytes that come after the last flush of its line.
pub fn overwritten_by_word()
    ensures { OverwrittenByWord }
{}
