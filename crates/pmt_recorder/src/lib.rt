//! Recording a trace from running threads: each thread appends to a tape of its own, and the events of all stand in one book.
//!
//! The definitions stand in `specs/`; those of traces and interleavings are pmt_model's.
//!
//! | Word | What it is |
//! |---|---|
//! | `Session` | a recording under way: the shelf under one lock, and the parts of the ledger that no tape holds |
//! | `Tape` | what one thread has appended, and owns alone: the numbers and ops of its events |
//! | `Strip` | what contracts see of a tape: its thread and its entries |
//! | `Shelf` | what lies under the session's lock: the book, and the ledger's count of its events |
//! | `Book` | of pmt_book: the events of all threads in one order, with the fronts of their lines |
//! | `Snapshot` | a copy of the book at some moment |
//! | `Roll` | the type that names a session, so that no tape is taken for one of another session |
//! | ledger | of std: it counts the events across threads, and takes no bytes. It is cut into 256 parts |
//! | `Blank` | of std: a new ledger, from which one session is started |
//! | `Share` | of std: some parts of the ledger, with their amount. A tape holds one part; its amount is the length of the tape |
//! | `Rest` | the share that is left over, once each tape has its part |
//! | `Whole` | that the ledger has 256 parts: with the tapes' parts and the rest they are all, so the tapes have every event of the book |
#![tactic(auto)]

pub mod fault;
pub mod laws;
mod parts;
pub mod roll;
pub mod scripts;
mod seal;
pub mod session;
pub mod shelf;
pub mod tape;

pub use crate::fault::{AppendError, RecordError, SealFault, SealKind, SnapshotError, StartError};
pub use crate::roll::Roll;
pub use crate::scripts::record_scripts;
pub use crate::session::Session;
pub use crate::shelf::{Shelf, Snapshot};
pub use crate::tape::Tape;
