//! The mark of a thread: what its last flush of the line covers.
ghost use Rattle.std.specs.Prelude.{◌≡◌, ℕ, ◌≤◌, IfNone, IfOk, IfErr, OnOk, OnErr, IsOk, IsSome, Some, None};
ghost use Rattle.pmt_marks.specs.Lines.{mark_in, ChangesMark, IsGapFor, IsPlaceOf, KeepsMarks, ThreadsRise};

use pmt_model::OutOfMemory;
use smallvec::SmallVec;

/// The last flush of a line by a thread that has not fenced since.
#[derive(Clone, Copy, Debug, Default, PartialEq, Eq)]
pub struct Mark {
    /// The thread that flushed.
    pub thread: u8,
    /// How many stores to the line came before the flush.
    pub stores: u32,
}

// The place of the thread's mark, or where it would stand.
fn search(marks: &[Mark], thread: u8) -> Result<usize, usize>
    requires { ThreadsRise marks.now }
    ensures found { IfOk result (IsPlaceOf thread marks.now) }
    ensures absent { IfErr result (IsGapFor thread marks.now) }
{
    marks.binary_search_by_key(&thread, |mark| mark.thread)
}

// The stores before the thread's last flush, if it has a mark.
pub(crate) fn stores_of(marks: &[Mark], thread: u8) -> Option<u32>
    requires { ThreadsRise marks.now }
    ensures { result ≡ mark_in thread marks.now }
{
    match search(marks, thread) {
        Ok(place) => Some(marks[place].stores),
        Err(_) => None,
    }
}

// Writes the mark over the one that its thread has, or adds it.
pub(crate) fn set_mark(marks: &mut SmallVec<Mark, 4>, mark: Mark) -> Result<(), OutOfMemory>
    requires { ThreadsRise marks.old.items }
    ensures ok { OnOk result (ChangesMark mark.thread (Some mark.stores) marks.old.items marks.new.items) }
    ensures again { IsSome (mark_in mark.thread marks.old.items) → IsOk result }
    ensures err { OnErr result (marks.new ≡ marks.old) }
    ensures kept { (limit : ℕ) → mark.stores ≤ limit → KeepsMarks limit marks.old.items marks.new.items }
{
    match search(marks.as_slice(), mark.thread) {
        Ok(place) => {
            marks[place] = mark;
            Ok(())
        }
        Err(place) => {
            marks.insert(place, mark)?;
            Ok(())
        }
    }
}

// Takes the thread's mark away: the stores before its last flush, if it had one.
pub(crate) fn take_mark(marks: &mut SmallVec<Mark, 4>, thread: u8) -> Option<u32>
    requires { ThreadsRise marks.old.items }
    ensures value { result ≡ mark_in thread marks.old.items }
    ensures taken { ChangesMark thread None marks.old.items marks.new.items }
    ensures none { IfNone result (marks.new ≡ marks.old) }
    ensures kept { (limit : ℕ) → KeepsMarks limit marks.old.items marks.new.items }
{
    match search(marks.as_slice(), thread) {
        Ok(place) => Some(marks.remove(place).stores),
        Err(_) => None,
    }
}
