//! The session: its one lock, and the tapes that belong to it.
ghost use Rattle.std.specs.Prelude.{◌≡◌, ℕ, ◌+◌, ◌<◌, ◌≤◌, ◌↔◌, ◌⊎◌, IfOk, OnOk, IfErr, Err};
ghost use Rattle.pmt_model.specs.Values.{first_version};
ghost use Rattle.pmt_recorder.specs.Strips.{IsSealed, SealFails, IsHandedBack, empty_tapes};
ghost use Rattle.pmt_recorder.specs.Shelving.{Records, IsSnapshot};

use crate::fault::{AppendError, SealFault, SnapshotError, StartError};
use crate::parts::{Rest, Whole};
use crate::roll::Roll;
use crate::shelf::{Shelf, Snapshot};
use crate::tape::Tape;
use pmt_book::Book;
use pmt_model::{Format, Op, Trace};
use std::alloc::{AllocError, Global};
use std::sync::ledger::{Blank, Share};
use std::sync::{Mutex, Wait};

/// A recording under way: threads append to it, each by its own tape.
#[derive(Drop)]
pub struct Session<L: Roll> {
    shelf: Mutex<Shelf<L>>,
    rest: Mutex<Rest<L>>,
    whole: Whole<L>,
    tapes: usize,
    ghost count: { tapes ≡ L.tapes },
}

// The tapes of the threads below `n`, each with one part of the ledger.
fn cut_tapes<L: Roll>(
    alloc: Global,
    share: &mut Share<L>,
    n: usize,
) -> Result<Vec<Tape<L>>, AllocError>
    requires few { (n ≤ 256) × (n ≤ L.tapes) }
    requires parts { n ≤ share.old.parts }
    requires none { share.old.amount ≡ 0 }
    ensures tapes { IfOk result (λ tapes. tapes.items ≡ empty_tapes n) }
    ensures left { OnOk result (share.new.parts + n ≡ share.old.parts) }
    ensures none { share.new.amount ≡ 0 }
{
    let mut tapes = Vec::with_capacity(alloc, n)?;
    for thread in 0..n {
        let part = share.split_off(1, 0);
        tapes.push_reserved(Tape::new(alloc, thread as u8, part));
    }
    Ok(tapes)
}

impl<L: Roll> Session<L> {
    /// A session of version 1 with `n` tapes, tape k being of thread k, from 0.
    ///
    /// # Errors
    /// `BadCount` unless `n` is 1 to 256, `OutOfMemory`.
    pub fn start(
        alloc: Global,
        blank: Blank,
        n: usize,
    ) -> Result<(Session<L>, Vec<Tape<L>>), StartError>
        requires name { blank.name ≡ L.name }
        requires parts { (blank.parts ≡ L.parts) × (blank.parts ≡ 256) }
        requires tapes { n ≡ L.tapes }
        requires format { first_version ≡ L.format }
        ensures tapes { IfOk result (λ r. r.1.items ≡ empty_tapes n) }
        ensures count { (result ≡ Err StartError.BadCount) ↔ ((n ≡ 0) ⊎ (256 < n)) }
    {
        Self::start_with(alloc, blank, Format::v1(), n)
    }

    /// A session of this format with `n` tapes, tape k being of thread k, from 0.
    ///
    /// # Errors
    /// `BadCount` unless `n` is 1 to 256, `OutOfMemory`.
    pub fn start_with(
        alloc: Global,
        blank: Blank,
        format: Format,
        n: usize,
    ) -> Result<(Session<L>, Vec<Tape<L>>), StartError>
        requires name { blank.name ≡ L.name }
        requires parts { (blank.parts ≡ L.parts) × (blank.parts ≡ 256) }
        requires tapes { n ≡ L.tapes }
        requires format { format ≡ L.format }
        ensures tapes { IfOk result (λ r. r.1.items ≡ empty_tapes n) }
        ensures count { (result ≡ Err StartError.BadCount) ↔ ((n ≡ 0) ⊎ (256 < n)) }
    {
        if n == 0 {
            return Err(StartError::BadCount);
        }
        if n > 256 {
            return Err(StartError::BadCount);
        }
        let (count, mut share) = blank.open::<L>();
        let Ok(tapes) = cut_tapes(alloc, &mut share, n) else {
            return Err(StartError::OutOfMemory);
        };
        let session = Session {
            shelf: Mutex::new(Shelf::new(Book::new_with(alloc, format), count)),
            rest: Mutex::new(Rest::new(share)),
            whole: Whole::new(),
            tapes: n,
        };
        Ok((session, tapes))
    }

    /// Appends the op, as an event of the tape's thread, to the book and to the tape, and answers the event's number, 1 to
    /// 1,000,000. It takes the session's lock and makes the one call `Shelf::append`.
    ///
    /// # Errors
    /// Those of `Shelf::append`. Book and tape are unchanged then.
    pub fn append<R: Wait>(&self, rt: &R, tape: &mut Tape<L>, op: Op) -> Result<u64, AppendError>
        ensures { Records L.format tape.old op result tape.new }
    {
        self.shelf.lock(rt).append(tape, op)
    }

    /// A copy of the book, in the session's format, in which the tape is its thread's part. It takes the session's lock and makes the
    /// one call `Shelf::snapshot`. The session goes on, whatever is answered.
    ///
    /// # Errors
    /// `Torn` where the tape is not its part of the book, `OutOfMemory`.
    pub fn snapshot<R: Wait>(&self, rt: &R, tape: &Tape<L>) -> Result<Snapshot, SnapshotError>
        ensures { IfOk result (IsSnapshot L.tapes L.format tape.now) }
    {
        self.shelf.lock(rt).snapshot(tape)
    }

    /// The book as a trace, which is an interleaving of the tapes. They may come in any order. It takes the lock apart and makes the
    /// one call `Shelf::seal`.
    ///
    /// # Errors
    /// `WrongTapes` unless there is just one tape of each number, then `Torn` with the lowest number whose tape is not its part of
    /// the book. Book and tapes are handed back, the tapes as they were given.
    pub fn seal(self, tapes: Vec<Tape<L>>) -> Result<Trace, SealFault<L>>
        ensures ok { IfOk result (IsSealed L.tapes L.format tapes.items) }
        ensures err { IfErr result (λ fault. SealFails L.tapes tapes.items fault.kind fault.book) }
        ensures book { IfErr result (λ fault. IsHandedBack L.tapes L.format tapes.items fault.book) }
        ensures tapes { IfErr result (λ fault. fault.tapes.items ≡ tapes.items) }
    {
        let Session {
            shelf,
            rest,
            whole,
            tapes: count,
        } = self;
        let shelf = shelf.into_inner();
        shelf.seal(&whole, rest.into_inner(), count, tapes)
    }
}
