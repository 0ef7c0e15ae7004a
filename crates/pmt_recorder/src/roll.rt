//! The name of a session, by which its tapes are told from all others.
use pmt_model::Format;
use std::marker::Brand;
use std::sync::ledger::Ledger;

/// Names a session, so that its tapes are told by their type from those of every other. Whoever starts a session is a function
/// over such an `L` that is called with `Brand`.
pub trait Roll: Ledger {
    ghost use Rattle.std.specs.Prelude.{ℕ};
    ghost use Rattle.pmt_model.specs.Values.{Layout};

    /// How many tapes the session has.
    ghost tapes: { ℕ };

    /// The format of its trace.
    ghost format: { Layout };
}

impl Roll for Brand {
    ghost use Rattle.pmt_model.specs.Values.{first_version};

    ghost tapes = { 0 };

    ghost format = { first_version };
}
