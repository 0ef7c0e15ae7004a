//! A text, and after it lines, of which those that are kept end the text once all have come.
ghost use Rattle.std.specs.Prelude.{◌≡◌, ◌+◌, ◌<◌, ◌≤◌, [], ◌∷◌, ◌++◌, length, sum, take, drop, OnOk};
ghost use Rattle.pmt_trimming.specs.LineQueues.{AreHeld, IsRun, Pops, cut_by, kept_text, run_text};

use crate::line_queue::{close_gap, move_down};
use crate::marks::given_up;
use pmt_model::OutOfMemory;
use std::alloc::Global;
use std::marker::Model;

/// A text: the first `end` bytes, and after them the run of those between `from` and `at`, which is moved at once.
#[derive(Clone, Copy)]
pub(crate) struct Run {
    end: usize,
    from: usize,
    at: usize,
}

/// The room of lines that are gone is given up only from so many bytes on.
const KEPT_ROOM: usize = 4096;

/// A text, and after it lines of at most 255 bytes, the first of which leaves first: it ends the text then, or is gone. The room of lines
/// that are gone is had again by `give_up_room`.
#[derive(Drop)]
pub(crate) struct HeldLines {
    bytes: Vec<u8>,
    run: Run,
    lengths: Vec<u8>,
    left: usize,
}

impl Model for HeldLines {
    ghost use Rattle.std.specs.Prelude.{drop};
    ghost use Rattle.pmt_trimming.specs.LineQueues.{Queued, AreHeld, cut_by, run_text};

    ghost Value = { Queued };

    ghost view = { λ q. record { text = run_text q.run.end q.run.from q.run.at q.bytes.items; lines = cut_by (drop q.left q.lengths.items) (drop q.run.at q.bytes.items) } };

    ghost invariant = { λ q. AreHeld q.run.end q.run.from q.run.at q.left q.lengths.items q.bytes.items };
}

impl HeldLines {
    // This text, and no line.
    pub(crate) fn new(alloc: Global, text: Vec<u8>) -> Self
        ensures text { result.text ≡ text.items }
        ensures lines { result.lines ≡ [] }
    {
        let end = text.len();
        HeldLines {
            bytes: text,
            run: Run {
                end,
                from: end,
                at: end,
            },
            lengths: Vec::new(alloc),
            left: 0,
        }
    }

    // Puts the line at the end.
    #[inline(always)]
    pub(crate) fn push(&mut self, line: &[u8]) -> Result<(), OutOfMemory>
        requires { length line.now < 256 }
        ensures text { OnOk result (self.new.text ≡ self.old.text) }
        ensures lines { OnOk result (self.new.lines ≡ self.old.lines ++ line.now ∷ []) }
    {
        self.lengths.reserve(1)?;
        self.bytes.extend_from_slice(line)?;
        self.lengths.push_reserved(line.len() as u8);
        Ok(())
    }

    // Puts lines at the end, which stand one after another and have these lengths.
    pub(crate) fn push_all(&mut self, lengths: &[u8], lines: &[u8]) -> Result<(), OutOfMemory>
        requires { sum lengths.now ≡ length lines.now }
        ensures text { OnOk result (self.new.text ≡ self.old.text) }
        ensures lines { OnOk result (self.new.lines ≡ self.old.lines ++ cut_by lengths.now lines.now) }
    {
        self.bytes.reserve(lines.len())?;
        self.lengths.extend_from_slice(lengths)?;
        self.bytes.extend_from_slice(lines)?;
        Ok(())
    }

    // Takes the first line, and puts it at the end of the text where it is kept.
    #[inline(always)]
    pub(crate) fn pop(&mut self, kept: bool)
        ensures { Pops self.old.lines kept self.old.text self.new.lines self.new.text }
    {
        if self.left == self.lengths.len() {
            return;
        }
        let len = self.lengths[self.left];
        self.run = past(&mut self.bytes, self.run, len as usize, kept);
        self.left += 1;
    }

    // Gives up the room of lines that are gone, where it is much and no less than what stands after it: so a byte is moved a bounded
    // number of times.
    pub(crate) fn give_up_room(&mut self)
        ensures { self.new ≡ self.old }
    {
        self.run = closed(&mut self.bytes, self.run);
        self.left = given_up(&mut self.lengths, self.left);
    }

    // The text.
    pub(crate) fn into_text(self) -> Vec<u8>
        ensures { result.items ≡ self.text }
    {
        let HeldLines {
            mut bytes,
            run,
            lengths: _,
            left: _,
        } = self;
        let size = run.at - run.from;
        move_down(&mut bytes, run.end, run.from, size);
        bytes.truncate(run.end + size);
        bytes
    }
}

// The text once the line of this length at the end of its run is part of the run, or is gone: then the run is moved.
#[inline(always)]
fn past(bytes: &mut Vec<u8>, run: Run, len: usize, kept: bool) -> Run
    requires run { IsRun run.end run.from run.at }
    requires within { run.at + len ≤ length bytes.old.items }
    ensures run { IsRun result.end result.from result.at }
    ensures at { result.at ≡ run.at + len }
    ensures size { length bytes.new.items ≡ length bytes.old.items }
    ensures text { run_text result.end result.from result.at bytes.new.items ≡ run_text run.end run.from run.at bytes.old.items ++ kept_text kept (take len (drop run.at bytes.old.items)) }
    ensures rest { drop (run.at + len) bytes.new.items ≡ drop (run.at + len) bytes.old.items }
{
    let at = run.at + len;
    if kept {
        return Run {
            end: run.end,
            from: run.from,
            at,
        };
    }
    let size = run.at - run.from;
    move_down(bytes, run.end, run.from, size);
    Run {
        end: run.end + size,
        from: at,
        at,
    }
}

// The run once the bytes before it are gone, if they are many and no fewer than those from there on.
fn closed(bytes: &mut Vec<u8>, run: Run) -> Run
    requires run { IsRun run.end run.from run.at }
    requires within { run.at ≤ length bytes.old.items }
    ensures run { IsRun result.end result.from result.at }
    ensures text { run_text result.end result.from result.at bytes.new.items ≡ run_text run.end run.from run.at bytes.old.items }
    ensures rest { drop result.at bytes.new.items ≡ drop run.at bytes.old.items }
    ensures size { result.at + length bytes.old.items ≡ run.at + length bytes.new.items }
{
    let gap = run.from - run.end;
    if gap < KEPT_ROOM || gap < bytes.len() - run.from {
        return run;
    }
    close_gap(bytes, run.end, run.from);
    Run {
        end: run.end,
        from: run.end,
        at: run.at - gap,
    }
}
