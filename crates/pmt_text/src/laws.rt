//! Theorems about the definitions of texts. Each function does nothing; its contract is the theorem.

ghost use Rattle.pmt_text.specs.Texts.{FirstVersionStays, NewWordsAreBad, OneTextOfTrace, OneTraceOfText, ReadIsSpelled, ScriptsAreSpelled, SpelledComesWhole, SpelledIsRead, SpelledIsShort, WithinBound};

/// The spelling of each trace is read as the trace.
pub fn spelled_is_read()
    ensures { SpelledIsRead }
{}

/// Each text without fault is the spelling of the trace that it is read as.
pub fn read_is_spelled()
    ensures { ReadIsSpelled }
{}

/// No text is the text of two traces.
pub fn one_trace_of_text()
    ensures { OneTraceOfText }
{}

/// No trace has two texts.
pub fn one_text_of_trace()
    ensures { OneTextOfTrace }
{}

/// A text of version 1 gives the ops that version 1 has always had, and no others.
pub fn first_version_stays()
    ensures { FirstVersionStays }
{}

/// In a text of version 1 `clflush` and `mfence` are bad words.
pub fn new_words_are_bad()
    ensures { NewWordsAreBad }
{}

/// The spelling of each script is read as the script, and each script without fault is the spelling of what was read.
pub fn scripts_are_spelled()
    ensures { ScriptsAreSpelled }
{}

/// A text within the bound of a reader is judged whole.
pub fn within_bound()
    ensures { WithinBound }
{}

/// The spelling of a trace has at most 60,000,014 bytes.
pub fn spelled_is_short()
    ensures { SpelledIsShort }
{}

/// A reader whose bound is no less judges the spelling of each trace whole, as the trace.
pub fn spelled_comes_whole()
    ensures { SpelledComesWhole }
{}
