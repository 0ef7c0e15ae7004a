//! A set of threads that is mostly empty or small.
ghost use Rattle.std.specs.Prelude.{◌≡◌, ℕ, ◌<◌, ◌≤◌, ◌==◌, ◌||◌, false, length, OnOk, OnErr};
ghost use Rattle.pmt_rows.specs.Threads.{few, has_thread, in_list, in_table};

use pmt_model::OutOfMemory;
use smallvec::SmallVec;
use std::alloc::Global;
use std::marker::Model;

// How many threads a list has at most.
const FEW: usize = 16;

/// A set of threads: up to sixteen lie in it, and more in a table of 256 bytes, so that each call takes a few steps.
#[derive(Drop)]
pub struct Flushers {
    threads: SmallVec<u8, 16>,
}

impl Model for Flushers {
    ghost use Rattle.std.specs.Prelude.{ℕ, List};
    ghost use Rattle.pmt_rows.specs.Threads.{IsHeld};

    ghost Value = { List ℕ };

    ghost view = { λ f. f.threads.items };

    ghost invariant = { λ f. IsHeld f.threads.items };
}

impl Flushers {
    /// No thread.
    pub fn new(alloc: Global) -> Self
        ensures { (t : ℕ) → t < 256 → has_thread result t ≡ false }
    {
        Flushers {
            threads: SmallVec::new(alloc),
        }
    }

    /// Lets all threads go.
    #[inline(always)]
    pub fn clear(&mut self)
        ensures { (t : ℕ) → t < 256 → has_thread self.new t ≡ false }
    {
        self.threads.clear();
    }

    /// Whether the thread is one of them.
    #[inline(always)]
    pub fn has(&self, thread: u8) -> bool
        ensures { result ≡ has_thread self.now thread }
    {
        let threads = self.threads.as_slice();
        if threads.len() <= FEW {
            return threads.contains(&thread);
        }
        threads[thread as usize] != 0
    }

    /// One thread more.
    ///
    /// # Errors
    /// Where memory was refused. The set stays as it was.
    #[inline(always)]
    pub fn add(&mut self, thread: u8) -> Result<(), OutOfMemory>
        ensures added { OnOk result ((t : ℕ) → t < 256 → has_thread self.new t ≡ ((thread == t) || has_thread self.old t)) }
        ensures same { OnErr result (self.new ≡ self.old) }
    {
        if self.threads.len() < FEW {
            self.threads.push(thread)?;
            return Ok(());
        }
        self.add_to_table(thread)
    }

    // As `add`, where the list is full or there is a table.
    #[inline(never)]
    fn add_to_table(&mut self, thread: u8) -> Result<(), OutOfMemory>
        requires { few ≤ length self.old }
        ensures added { OnOk result ((t : ℕ) → t < 256 → has_thread self.new t ≡ ((thread == t) || has_thread self.old t)) }
        ensures same { OnErr result (self.new ≡ self.old) }
    {
        if self.threads.len() == FEW {
            let table = table_of(self.threads.as_slice());
            self.threads = SmallVec::from_slice(*self.threads.allocator(), &table)?;
        }
        self.threads[thread as usize] = 1;
        Ok(())
    }
}

// The table of these threads.
fn table_of(threads: &[u8]) -> [u8; 256]
    ensures size { length result ≡ 256 }
    ensures each { (t : ℕ) → t < 256 → in_table result t ≡ in_list threads.now t }
{
    let mut table = [0; 256];
    for thread in threads {
        table[*thread as usize] = 1;
    }
    table
}
