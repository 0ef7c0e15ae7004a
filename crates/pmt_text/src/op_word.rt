//! The words of ops.
ghost use Rattle.std.specs.Prelude.{◌≡◌};
ghost use Rattle.pmt_text.specs.Spelling.{word_of as word_in, word_text};

use pmt_model::Op;

/// The word of the op in the text of a trace.
pub fn word_of(op: &Op) -> &'static str
    ensures { result.now ≡ word_text (word_in op.now) }
{
    match op {
        Op::Store(_) => "store",
        Op::Clwb(_) => "clwb",
        Op::ClflushOpt(_) => "clflushopt",
        Op::Clflush(_) => "clflush",
        Op::Sfence => "sfence",
        Op::Mfence => "mfence",
        Op::IsPersist(_) => "isPersist",
        Op::IsOrderedBefore(_, _) => "isOrderedBefore",
    }
}
