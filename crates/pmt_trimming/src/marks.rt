//! The marks of events in a row, the first of which leaves first.
ghost use Rattle.std.specs.Prelude.{◌≡◌, ◌+◌, ◌<◌, ◌≤◌, [], ◌∷◌, ◌++◌, length, take, drop, set, slice_get, OnOk};

use crate::pass::Mark;
use pmt_model::OutOfMemory;
use std::alloc::Global;
use std::marker::Model;

/// The room of marks that have left is given up only from so many on.
const KEPT_ROOM: usize = 4096;

/// Marks in a row, the first of which leaves first. A mark is moved a bounded number of times.
#[derive(Drop)]
pub(crate) struct Marks {
    list: Vec<Mark>,
    left: usize,
}

impl Model for Marks {
    ghost use Rattle.std.specs.Prelude.{length, drop, ◌≤◌};
    ghost use Rattle.pmt_trimming.specs.LineQueues.{MarkRow};

    ghost Value = { MarkRow };

    ghost view = { λ q. record { items = drop q.left q.list.items } };

    ghost invariant = { λ q. q.left ≤ length q.list.items };
}

impl Marks {
    // No mark.
    pub(crate) fn new(alloc: Global) -> Self
        ensures { result.items ≡ [] }
    {
        Marks {
            list: Vec::new(alloc),
            left: 0,
        }
    }

    // How many there are.
    #[inline(always)]
    pub(crate) fn len(&self) -> usize
        ensures { result ≡ length self.now.items }
    {
        self.list.len() - self.left
    }

    // The marks.
    pub(crate) fn as_slice(&self) -> &[Mark]
        ensures { result.now ≡ self.now.items }
    {
        &self.list.as_slice()[self.left..]
    }

    // The first mark.
    #[inline(always)]
    pub(crate) fn first(&self) -> Option<Mark>
        ensures { result ≡ slice_get self.now.items 0 }
    {
        match self.list.get(self.left) {
            Some(mark) => Some(*mark),
            None => None,
        }
    }

    // Puts the mark at the end.
    #[inline(always)]
    pub(crate) fn push(&mut self, mark: Mark) -> Result<(), OutOfMemory>
        ensures items { OnOk result (self.new.items ≡ self.old.items ++ mark ∷ []) }
    {
        self.list.push(mark)?;
        Ok(())
    }

    // Puts the mark in the place of another one.
    #[inline(always)]
    pub(crate) fn put(&mut self, index: usize, mark: Mark)
        requires { index < length self.old.items }
        ensures { self.new.items ≡ set self.old.items index mark }
    {
        self.list[self.left + index] = mark;
    }

    // The first marks leave, so many.
    pub(crate) fn leave(&mut self, count: usize)
        requires { count ≤ length self.old.items }
        ensures { self.new.items ≡ drop count self.old.items }
    {
        self.left = given_up(&mut self.list, self.left + count);
    }

    // The first mark leaves.
    #[inline(always)]
    pub(crate) fn pop(&mut self)
        ensures { self.new.items ≡ drop 1 self.old.items }
    {
        if self.left < self.list.len() {
            self.left = given_up(&mut self.list, self.left + 1);
        }
    }
}

// Gives up the room of the items that have left, so many, where they are all or many and most: how many are there still.
#[inline(always)]
pub(crate) fn given_up<T: Copy>(list: &mut Vec<T>, left: usize) -> usize
    requires { left ≤ length list.old.items }
    ensures within { result ≤ length list.new.items }
    ensures rest { drop result list.new.items ≡ drop left list.old.items }
{
    if left == list.len() || left >= KEPT_ROOM && left > list.len() / 2 {
        drop_first(list, left);
        return 0;
    }
    left
}

// The first items are gone, so many.
fn drop_first<T: Copy>(list: &mut Vec<T>, left: usize)
    requires { left ≤ length list.old.items }
    ensures { list.new.items ≡ drop left list.old.items }
{
    let len = list.len() - left;
    move_first(list, left, len);
    list.truncate(len);
}

// Moves so many items from this place to the front.
fn move_first<T: Copy>(list: &mut Vec<T>, left: usize, len: usize)
    requires { left + len ≤ length list.old.items }
    ensures items { take len list.new.items ≡ take len (drop left list.old.items) }
    ensures size { length list.new.items ≡ length list.old.items }
{
    let past = left + len;
    list.as_mut_slice().copy_within(left..past, 0);
}
