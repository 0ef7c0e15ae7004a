//! A text, and after it a queue of lines.
ghost use Rattle.std.specs.Prelude.{◌≡◌, ◌==◌, ◌+◌, ◌<◌, ◌≤◌, List, ℕ, [], ◌∷◌, ◌++◌, length, take, drop, OnOk};
ghost use Rattle.pmt_trimming.specs.LineQueues.{HasLittleLeft, Pops};

use pmt_model::OutOfMemory;
use std::alloc::Global;
use std::collections::VecDeque;
use std::marker::Model;

/// The bytes between the text and the first line are given up only from so many on.
const KEPT_ROOM: usize = 4096;

/// A text, and after it lines of at most 255 bytes, the first of which leaves first: it ends the text then, or is gone. A byte is
/// moved a bounded number of times.
#[derive(Drop)]
pub(crate) struct LineQueue {
    bytes: Vec<u8>,
    end: usize,
    start: usize,
    lengths: VecDeque<u8>,
}

impl Model for LineQueue {
    ghost use Rattle.std.specs.Prelude.{take, drop};
    ghost use Rattle.pmt_trimming.specs.LineQueues.{Queued, IsQueue, cut_by};

    ghost Value = { Queued };

    ghost view = { λ q. record { text = take q.end q.bytes.items; lines = cut_by q.lengths.items (drop q.start q.bytes.items) } };

    ghost invariant = { λ q. IsQueue q.lengths.items q.end q.start q.bytes.items };
}

impl LineQueue {
    // This text, and no line.
    pub(crate) fn new(alloc: Global, text: Vec<u8>) -> Self
        ensures text { result.text ≡ text.items }
        ensures lines { result.lines ≡ [] }
    {
        let end = text.len();
        LineQueue {
            bytes: text,
            end,
            start: end,
            lengths: VecDeque::new(alloc),
        }
    }

    // Whether there is no line.
    #[inline(always)]
    pub(crate) fn is_empty(&self) -> bool
        ensures { result ≡ (length self.now.lines == 0) }
    {
        self.lengths.is_empty()
    }

    // The text.
    pub(crate) fn text(&self) -> &[u8]
        ensures { result.now ≡ self.now.text }
    {
        &self.bytes.as_slice()[..self.end]
    }

    // The text is gone.
    pub(crate) fn clear_text(&mut self)
        ensures text { self.new.text ≡ [] }
        ensures lines { self.new.lines ≡ self.old.lines }
    {
        self.end = 0;
    }

    // Puts more at the end of the text, where there is no line.
    #[inline(always)]
    pub(crate) fn put(&mut self, more: &[u8]) -> Result<(), OutOfMemory>
        requires { self.old.lines ≡ [] }
        ensures text { OnOk result (self.new.text ≡ self.old.text ++ more.now) }
        ensures lines { OnOk result (self.new.lines ≡ []) }
    {
        self.bytes.truncate(self.end);
        self.start = self.end;
        self.bytes.extend_from_slice(more)?;
        self.end = self.bytes.len();
        self.start = self.end;
        Ok(())
    }

    // Puts the line at the end.
    #[inline(always)]
    pub(crate) fn push(&mut self, line: &[u8]) -> Result<(), OutOfMemory>
        requires { length line.now < 256 }
        ensures text { OnOk result (self.new.text ≡ self.old.text) }
        ensures lines { OnOk result (self.new.lines ≡ self.old.lines ++ line.now ∷ []) }
    {
        give_up_room(&mut self.bytes, self.end, &mut self.start);
        self.lengths.reserve(1)?;
        self.bytes.extend_from_slice(line)?;
        self.lengths.push_back_reserved(line.len() as u8);
        Ok(())
    }

    // Takes the first line, and puts it at the end of the text where it is kept.
    #[inline(always)]
    pub(crate) fn pop(&mut self, kept: bool)
        ensures { Pops self.old.lines kept self.old.text self.new.lines self.new.text }
    {
        let Some(len) = self.lengths.pop_front() else {
            return;
        };
        let len = len as usize;
        if kept {
            move_down(&mut self.bytes, self.end, self.start, len);
            self.end += len;
        }
        self.start += len;
    }

    // The text.
    pub(crate) fn into_text(self) -> Vec<u8>
        ensures { result.items ≡ self.text }
    {
        let LineQueue {
            mut bytes,
            end,
            start: _,
            lengths: _,
        } = self;
        bytes.truncate(end);
        bytes
    }
}

// Moves so many bytes from the start to the end of the text.
#[inline(always)]
pub(crate) fn move_down(bytes: &mut Vec<u8>, end: usize, start: usize, len: usize)
    requires before { end ≤ start }
    requires within { start + len ≤ length bytes.old.items }
    ensures text { take (end + len) bytes.new.items ≡ take end bytes.old.items ++ take len (drop start bytes.old.items) }
    ensures rest { drop (start + len) bytes.new.items ≡ drop (start + len) bytes.old.items }
    ensures size { length bytes.new.items ≡ length bytes.old.items }
{
    if end < start {
        let past = start + len;
        bytes.as_mut_slice().copy_within(start..past, end);
    }
}

// The bytes between the text and the start are gone.
pub(crate) fn close_gap(bytes: &mut Vec<u8>, end: usize, start: usize)
    requires before { end ≤ start }
    requires within { start ≤ length bytes.old.items }
    ensures { bytes.new.items ≡ take end bytes.old.items ++ drop start bytes.old.items }
{
    let len = bytes.len() - start;
    move_down(bytes, end, start, len);
    bytes.truncate(end + len);
}

// Gives up the bytes between the text and the start, where no line is left, or they are many and most of all bytes.
#[inline(always)]
fn give_up_room(bytes: &mut Vec<u8>, end: usize, start: &mut usize)
    requires before { end ≤ start.old }
    requires within { start.old ≤ length bytes.old.items }
    ensures text { take end bytes.new.items ≡ take end bytes.old.items }
    ensures rest { drop start.new bytes.new.items ≡ drop start.old bytes.old.items }
    ensures before { end ≤ start.new }
    ensures within { start.new ≤ length bytes.new.items }
    ensures little { HasLittleLeft end start.new bytes.new.items }
{
    let gap = *start - end;
    if *start == bytes.len() || gap >= KEPT_ROOM && gap > bytes.len() / 2 {
        close_gap(bytes, end, *start);
        *start = end;
    }
}
