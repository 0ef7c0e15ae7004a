//! What lies under the lock of a session, and copies of it.
ghost use Rattle.std.specs.Prelude.{◌≡◌, ℕ, ◌<◌, [], IfOk, IfErr};
ghost use Rattle.std.specs.List.{AllByRecursion};
ghost use Rattle.pmt_model.specs.declared.event.Event.{Event};
ghost use Rattle.pmt_recorder.specs.Strips.{IsSealed, SealFails, IsHandedBack};
ghost use Rattle.pmt_recorder.specs.Shelving.{Appends, Shows, IsSnapshot};

use crate::fault::{AppendError, SealFault, SealKind, SnapshotError};
use crate::parts::{Rest, Whole, audit};
use crate::roll::Roll;
use crate::seal::{is_one_of_each, lowest_torn};
use crate::tape::Tape;
use pmt_book::Book;
use pmt_model::{Event, Op, Trace};
use std::marker::Model;
use std::sync::ledger;

/// What lies under the lock of a session: the book, and the ledger's count of its events. The start of a session alone makes it.
#[derive(Drop)]
pub struct Shelf<L: Roll> {
    book: Book,
    count: ledger::Book<L>,
}

impl<L: Roll> Model for Shelf<L> {
    ghost use Rattle.pmt_model.specs.Traces.{Recording};
    ghost use Rattle.pmt_recorder.specs.Shelving.{IsShelved};

    ghost Value = { Recording };

    ghost view = { λ s. s.book };

    ghost invariant = { λ s. IsShelved L.tapes L.format s.count.total s.book };
}

impl<L: Roll> Shelf<L> {
    // A shelf without events.
    pub(crate) fn new(book: Book, count: ledger::Book<L>) -> Self
        requires format { book.format ≡ L.format }
        requires none { book.events ≡ [] }
        requires count { count.total ≡ 0 }
        ensures { result ≡ book }
    {
        Shelf { book, count }
    }

    // Its events, all of the session's tapes.
    fn events(&self) -> &[Event]
        ensures value { result.now ≡ self.now.events }
        ensures whose { AllByRecursion (λ (e : Event). e.thread < L.tapes) self.now.events }
        ensures format { self.now.format ≡ L.format }
    {
        let _ = &self.count;
        self.book.events()
    }

    // Its book is the session's of these tapes.
    fn audit(&mut self, whole: &Whole<L>, rest: &mut Rest<L>, tapes: &mut [Tape<L>])
        ensures book { IsHandedBack L.tapes L.format tapes.old self.old }
        ensures same { self.new ≡ self.old }
        ensures tapes { tapes.new ≡ tapes.old }
    {
        audit(&mut self.count, whole, rest, tapes);
    }

    // Its book, once no thread holds the lock.
    fn into_book(self) -> Book
        ensures { result ≡ self }
    {
        let Shelf { book, .. } = self;
        book
    }

    /// Adds the op, as an event of the tape's thread, at the end of the book and of the tape, and answers the event's number, 1
    /// to 1,000,000.
    ///
    /// # Errors
    /// `NotInFormat` where the op is a clflush or an mfence and the session is of version 1, then `Full` where the book has
    /// 1,000,000 events, and `OutOfMemory`. Book and tape are unchanged then.
    pub fn append(&mut self, tape: &mut Tape<L>, op: Op) -> Result<u64, AppendError>
        ensures appends { Appends self.old tape.old op result self.new tape.new }
        ensures format { self.old.format ≡ L.format }
    {
        let entry = op;
        let event = Event {
            thread: tape.thread,
            op,
        };
        if !event.is_in(self.book.format()) {
            return Err(AppendError::NotInFormat);
        }
        if tape.entries.reserve(1).is_err() {
            return Err(AppendError::OutOfMemory);
        }
        let number = self.book.push_event(event)?;
        self.count.audit(&mut tape.share);
        self.count.add(&mut tape.share, 1);
        tape.entries.push_reserved((number, entry));
        Ok(number)
    }

    // Its book as a trace, which is an interleaving of the tapes; or why it is none. Book and tapes are handed back then. No thread holds
    // the lock any more, and `count` is the number of the session's tapes.
    pub(crate) fn seal(
        self,
        whole: &Whole<L>,
        mut rest: Rest<L>,
        count: usize,
        mut tapes: Vec<Tape<L>>,
    ) -> Result<Trace, SealFault<L>>
        requires { count ≡ L.tapes }
        ensures trace { IfOk result (λ trace. trace ≡ self) }
        ensures ok { IfOk result (IsSealed L.tapes L.format tapes.items) }
        ensures same { IfErr result (λ fault. fault.book ≡ self) }
        ensures err { IfErr result (λ fault. SealFails L.tapes tapes.items fault.kind fault.book) }
        ensures book { IfErr result (λ fault. IsHandedBack L.tapes L.format tapes.items fault.book) }
        ensures tapes { IfErr result (λ fault. fault.tapes.items ≡ tapes.items) }
    {
        let mut shelf = self;
        shelf.audit(whole, &mut rest, tapes.as_mut_slice());
        if !is_one_of_each(tapes.as_slice(), count) {
            return Err(SealFault {
                kind: SealKind::WrongTapes,
                book: shelf.into_book(),
                tapes,
            });
        }
        match lowest_torn(shelf.events(), tapes.as_slice()) {
            None => Ok(shelf.into_book().into_trace()),
            Some(recorder) => Err(SealFault {
                kind: SealKind::Torn { recorder },
                book: shelf.into_book(),
                tapes,
            }),
        }
    }

    /// A copy of the book, in the session's format, in which the tape is its thread's part.
    ///
    /// # Errors
    /// `Torn` where the tape is not its part of the book, `OutOfMemory`.
    pub fn snapshot(&self, tape: &Tape<L>) -> Result<Snapshot, SnapshotError>
        ensures shows { Shows self.now tape.now result }
        ensures known { IfOk result (IsSnapshot L.tapes L.format tape.now) }
    {
        let _ = &self.count;
        if !tape.is_part(self.book.events()) {
            return Err(SnapshotError::Torn);
        }
        match self.book.copy() {
            Ok(book) => Ok(Snapshot { book }),
            Err(_) => Err(SnapshotError::OutOfMemory),
        }
    }
}

/// A copy of a session's book at some moment. Contracts see it as the book.
#[derive(Drop)]
pub struct Snapshot {
    book: Book,
}

impl Model for Snapshot {
    ghost use Rattle.pmt_model.specs.Traces.{Recording};

    ghost Value = { Recording };

    ghost view = { λ s. s.book };
}

impl Snapshot {
    /// The book as it was.
    pub fn book(&self) -> &Book
        ensures { result.now ≡ self.now }
    {
        &self.book
    }
}
