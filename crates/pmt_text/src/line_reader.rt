//! The lines of a reader.
ghost use Rattle.std.specs.Prelude.{◌≡◌, ◌+◌, ◌-◌, ◌^◌, ◌<◌, ◌≤◌, ◌⊎◌, [], ◌++◌, length, take, drop, OnOk, OnErr, IfErr, IfSome, ◌==◌};
ghost use Rattle.pmt_model.specs.Traces.{event_limit};
ghost use Rattle.pmt_text.specs.Coming.{byte_limit};
ghost use Rattle.pmt_text.specs.Counting.{inner_device, failure_count};
ghost use Rattle.pmt_text.specs.OneLine.{IsOneLine};
ghost use Rattle.pmt_text.specs.Spelled.{AreFirstEvents};
ghost use Rattle.pmt_text.specs.Sources.{read_faults};

use crate::counted::Counted;
use crate::kind::SourceError;
use crate::piece::Piece;
use crate::plain::first_events;
use crate::spelled::first_event;
use bstr::ByteSlice;
use pmt_model::{Event, Format, OutOfMemory, Trace};
use std::alloc::Global;
use std::io::Read;

/// The most bytes of a reader that are judged.
pub const BYTE_LIMIT: usize = 67_108_864;

/// The lines of a reader, of whose bytes only so many are judged. What was read of a line waits in `front`, but for what the last
/// piece holds, so that no byte is looked at twice.
#[derive(Drop)]
pub(crate) struct LineReader<R> {
    input: Counted<R>,
    piece: Piece,
    front: Vec<u8>,
    room: usize,
    last: usize,
    ghost one_line: { IsOneLine front.items },
}

/// What a look for a line found.
#[derive(Clone, Copy)]
pub(crate) enum Found {
    /// A line that ends in this place of the piece.
    Line(usize),
    /// The end of the input.
    End,
    /// One more piece.
    More,
}

impl<R> LineReader<R> {
    ghost use Rattle.std.specs.Prelude.{Some, slice_index};
    ghost use Rattle.pmt_text.specs.Lines.{unread, held, last_line, IsEventAt, IsLineAt};

    pub(crate) fn new(alloc: Global, input: Counted<R>) -> Self
        ensures input { result.input ≡ input }
        ensures held { held result ≡ [] }
        ensures room { result.room ≡ byte_limit }
    {
        LineReader {
            input,
            piece: Piece::new(),
            front: Vec::new(alloc),
            room: BYTE_LIMIT,
            last: 0,
        }
    }

    pub(crate) fn into_input(self) -> Counted<R>
        ensures { result ≡ self.input }
    {
        let LineReader {
            input,
            piece: _,
            front: _,
            room: _,
            last: _,
        } = self;
        input
    }

    // Whether nothing waits.
    pub(crate) fn is_empty(&self) -> bool
        ensures { result ≡ (length self.now.front.items == 0) }
    {
        self.front.is_empty()
    }

    // The line that was found.
    pub(crate) fn line(&self, len: usize) -> &[u8]
        requires { IsLineAt self.now len }
        ensures { result.now ≡ self.now.front.items ++ take len (unread self.now.piece) }
    {
        if self.front.is_empty() {
            &self.piece.as_slice()[..len]
        } else {
            self.front.as_slice()
        }
    }

    // The event of the line at the front of the piece, where no front waits and that is plain in one pass, and the line's length.
    #[inline(always)]
    pub(crate) fn plain_event(&self, format: Format) -> Option<(Event, usize)>
        ensures { IfSome result (λ p. IsEventAt format p.0 self.now p.1) }
    {
        if !self.front.is_empty() {
            return None;
        }
        let piece = self.piece.as_slice();
        match first_event(format, piece) {
            Some((event, rest)) => {
                let len = piece.len() - rest.len() - 1;
                let Event { thread, op } = event;
                Some((Event { thread, op }, len))
            }
            None => None,
        }
    }

    // Puts the events of the lines at the front of the piece at the end of the trace, where no front waits, until it has `most` or a line
    // is not plain in one pass.
    pub(crate) fn take_plain(&mut self, most: usize, trace: &mut Trace) -> Result<(), OutOfMemory>
        requires { most ≤ event_limit }
        ensures taken { OnOk result (AreFirstEvents (held self.old) (held self.new) trace.old trace.new) }
        ensures few { OnOk result ((length trace.new.events ≤ length trace.old.events) ⊎ (length trace.new.events ≤ most)) }
        ensures input { self.new.input ≡ self.old.input }
        ensures room { self.new.room ≡ self.old.room }
        ensures last { OnOk result ((held self.new ≡ held self.old) ⊎ IfSome (last_line self.new) (λ lines. lines ++ held self.new ≡ held self.old)) }
        ensures refused { OnErr result (held self.new ≡ held self.old) }
    {
        if !self.front.is_empty() {
            return Ok(());
        }
        let piece = self.piece.as_slice();
        let rest = first_events(piece, most, trace)?;
        let count = piece.len() - rest.len();
        self.last = count;
        self.piece.skip(count);
        Ok(())
    }

    // Takes the line that was found, with its LF.
    pub(crate) fn skip_line(&mut self, len: usize)
        requires { IsLineAt self.old len }
        ensures held { held self.new ≡ drop (len + 1) (unread self.old.piece) }
        ensures input { self.new.input ≡ self.old.input }
        ensures room { self.new.room ≡ self.old.room }
        ensures last { IfSome (last_line self.new) (λ line. line ≡ self.old.front.items ++ take (len + 1) (unread self.old.piece)) }
    {
        self.last = if self.front.is_empty() { len + 1 } else { 0 };
        self.front.clear();
        self.piece.skip(len + 1);
    }

    // The line that was taken last, with its LF, where it lay in one piece, which is still at hand.
    #[inline(always)]
    pub(crate) fn last_line(&self) -> Option<&[u8]>
        ensures { IfSome result (λ line. last_line self.now ≡ Some line.now) }
    {
        if self.last == 0 {
            None
        } else {
            self.piece.last_taken(self.last)
        }
    }

    // Moves the first `count` bytes of the piece to the front.
    fn keep(&mut self, count: usize) -> Result<(), SourceError>
        requires within { count ≤ length (unread self.old.piece) }
        requires one_line { IsOneLine (take count (unread self.old.piece)) }
        ensures front { OnOk result (self.new.front.items ≡ self.old.front.items ++ take count (unread self.old.piece)) }
        ensures piece { OnOk result (unread self.new.piece ≡ drop count (unread self.old.piece)) }
        ensures input { self.new.input ≡ self.old.input }
        ensures room { self.new.room ≡ self.old.room }
        ensures memory { IfErr result (λ e. e ≡ SourceError.OutOfMemory) }
    {
        match self
            .front
            .extend_from_slice(&self.piece.as_slice()[..count])
        {
            Ok(()) => {
                self.piece.skip(count);
                Ok(())
            }
            Err(_) => Err(SourceError::OutOfMemory),
        }
    }
}

impl<R: Read> LineReader<R> {
    ghost use Rattle.std.specs.Prelude.{ℕ, List, Option};
    ghost use Rattle.pmt_text.specs.Lines.{unread, held, LineEndsAt, known_of, Refills, Looks, Finds};
    ghost use Rattle.pmt_text.specs.Within.{HasRead, StaysWithin};

    // Reads one more piece. False at the end of the input.
    fn refill(&mut self) -> Result<bool, SourceError>
        requires counted { failure_count self.old.input < 2 ^ 64 - 1 }
        ensures same { self.new.front ≡ self.old.front }
        ensures piece { Refills (known_of R.remaining self.old) (known_of R.remaining self.new) (unread self.new.piece) self.old.room self.new.room result }
        ensures within { (first : Option (List ℕ)) → HasRead R.remaining first self.old → StaysWithin R.remaining first result self.new }
        ensures failures { failure_count self.new.input ≡ failure_count self.old.input + read_faults result }
    {
        if self.room == 0 {
            return self.refill_past_limit();
        }
        match self.piece.refill(&mut self.input, self.room) {
            Ok(0) => Ok(false),
            Ok(count) => {
                self.room -= count;
                Ok(true)
            }
            Err(_) => Err(SourceError::Read),
        }
    }

    // Sees whether more bytes come than are judged.
    fn refill_past_limit(&mut self) -> Result<bool, SourceError>
        requires counted { failure_count self.old.input < 2 ^ 64 - 1 }
        requires full { self.old.room ≡ 0 }
        ensures same { self.new.front ≡ self.old.front }
        ensures piece { Refills (known_of R.remaining self.old) (known_of R.remaining self.new) (unread self.new.piece) self.old.room self.new.room result }
        ensures within { (first : Option (List ℕ)) → HasRead R.remaining first self.old → StaysWithin R.remaining first result self.new }
        ensures failures { failure_count self.new.input ≡ failure_count self.old.input + read_faults result }
    {
        match self.piece.refill(&mut self.input, 1) {
            Ok(0) => Ok(false),
            Ok(_) => Err(SourceError::TooMany),
            Err(_) => Err(SourceError::Read),
        }
    }

    // Looks for the end of the line in the piece, or reads one more.
    fn look(&mut self) -> Result<Found, SourceError>
        requires counted { failure_count self.old.input < 2 ^ 64 - 1 }
        ensures found { Looks R.remaining self.old result self.new }
        ensures within { (first : Option (List ℕ)) → HasRead R.remaining first self.old → StaysWithin R.remaining first result self.new }
        ensures failures { failure_count self.new.input ≡ failure_count self.old.input + read_faults result }
    {
        let piece = self.piece.as_slice();
        match piece.find_byte(b'\n') {
            Some(len) => self.join(len),
            None => {
                let len = piece.len();
                self.read_on(len)
            }
        }
    }

    // Keeps the piece, in which no line ends, and reads one more.
    fn read_on(&mut self, len: usize) -> Result<Found, SourceError>
        requires counted { failure_count self.old.input < 2 ^ 64 - 1 }
        requires whole { len ≡ length (unread self.old.piece) }
        requires one_line { IsOneLine (unread self.old.piece) }
        ensures found { Looks R.remaining self.old result self.new }
        ensures within { (first : Option (List ℕ)) → HasRead R.remaining first self.old → StaysWithin R.remaining first result self.new }
        ensures failures { failure_count self.new.input ≡ failure_count self.old.input + read_faults result }
    {
        self.keep(len)?;
        if self.refill()? {
            Ok(Found::More)
        } else {
            Ok(Found::End)
        }
    }

    // The line that ends in this place of the piece, in one part.
    fn join(&mut self, len: usize) -> Result<Found, SourceError>
        requires ends { LineEndsAt (unread self.old.piece) len }
        ensures found { Looks R.remaining self.old result self.new }
        ensures within { (first : Option (List ℕ)) → HasRead R.remaining first self.old → StaysWithin R.remaining first result self.new }
        ensures failures { failure_count self.new.input ≡ failure_count self.old.input + read_faults result }
    {
        if self.front.is_empty() {
            return Ok(Found::Line(len));
        }
        self.keep(len)?;
        Ok(Found::Line(0))
    }

    /// Reads on to the end of the line, or of the input.
    pub(crate) fn find_line(&mut self) -> Result<Found, SourceError>
        requires counted { failure_count self.old.input < 2 ^ 64 - 1 }
        ensures found { Finds R.remaining self.old result self.new }
        ensures within { (first : Option (List ℕ)) → HasRead R.remaining first self.old → StaysWithin R.remaining first result self.new }
        ensures failures { failure_count self.new.input ≡ failure_count self.old.input + read_faults result }
    {
        loop {
            match self.look()? {
                Found::More => {}
                found => return Ok(found),
            }
        }
    }
}
