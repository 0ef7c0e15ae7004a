//! A long text, written chunk by chunk.
ghost use Rattle.std.specs.Prelude.{◌≡◌, ℕ, List, [], ◌+◌, ◌-◌, ◌^◌, ◌<◌, ◌≤◌, ◌++◌, length, Option, IfOk, OnOk};
ghost use Rattle.pmt_text.specs.Counting.{inner_device, failure_count};
ghost use Rattle.pmt_report.specs.Runs.{IsPut, PutsOn, WritesText, write_faults};

use crate::fault::RunError;
use pmt_model::OutOfMemory;
use pmt_text::{Counted, write_all_counted};
use std::alloc::Global;
use std::io::Write;

/// So many bytes wait at most.
const CHUNK: usize = 65_536;

/// A text that is being written: its last bytes, which still wait, and how many are out.
#[derive(Drop)]
pub(crate) struct Chunks {
    waiting: Vec<u8>,
    written: u64,
}

impl Chunks {
    /// An empty text. It asks for all the memory that it needs.
    ///
    /// # Errors
    /// Where memory was refused.
    pub(crate) fn new(alloc: Global) -> Result<Self, OutOfMemory>
        ensures { IfOk result (λ chunks. (known : Option (List ℕ)) → IsPut known known [] chunks) }
    {
        Ok(Chunks {
            waiting: Vec::with_capacity(alloc, CHUNK)?,
            written: 0,
        })
    }

    /// Puts the line behind the text. What waits is written before it has no room.
    ///
    /// # Errors
    /// `Write` where a write failed: how many bytes of the text are out.
    #[inline(always)]
    pub(crate) fn put<W: Write>(
        &mut self,
        writer: &mut Counted<W>,
        line: &[u8],
    ) -> Result<(), RunError>
        requires writes { failure_count writer.old < 2 ^ 64 - 1 }
        requires short { length line.now ≤ 128 }
        requires text { (before : Option (List ℕ)) × (text : List ℕ) × IsPut before (W.contents (inner_device writer.old)) text self.old × (length text < 2 ^ 63) }
        ensures put { (before : Option (List ℕ)) (text : List ℕ) → IsPut before (W.contents (inner_device writer.old)) text self.old → PutsOn before (W.contents (inner_device writer.new)) (text ++ line.now) result self.new }
        ensures failures { failure_count writer.new ≡ failure_count writer.old + write_faults result }
    {
        if let Err(fault) = self.make_room(writer, line.len()) {
            return Err(fault);
        }
        match self.waiting.extend_from_slice(line) {
            Ok(()) => Ok(()),
            Err(_) => Err(RunError::OutOfMemory),
        }
    }

    // Makes room for a line of this length: what waits is written if there is none.
    #[inline(always)]
    fn make_room<W: Write>(&mut self, writer: &mut Counted<W>, len: usize) -> Result<(), RunError>
        requires writes { failure_count writer.old < 2 ^ 64 - 1 }
        requires short { len ≤ 128 }
        requires text { (before : Option (List ℕ)) × (text : List ℕ) × IsPut before (W.contents (inner_device writer.old)) text self.old × (length text < 2 ^ 63) }
        ensures put { (before : Option (List ℕ)) (text : List ℕ) → IsPut before (W.contents (inner_device writer.old)) text self.old → PutsOn before (W.contents (inner_device writer.new)) text result self.new }
        ensures room { OnOk result (length self.new.waiting.items + len ≤ 65536) }
        ensures failures { failure_count writer.new ≡ failure_count writer.old + write_faults result }
    {
        if self.waiting.len() + len <= CHUNK {
            return Ok(());
        }
        self.write_out(writer)
    }

    // Writes what waits.
    #[inline(never)]
    fn write_out<W: Write>(&mut self, writer: &mut Counted<W>) -> Result<(), RunError>
        requires writes { failure_count writer.old < 2 ^ 64 - 1 }
        requires text { (before : Option (List ℕ)) × (text : List ℕ) × IsPut before (W.contents (inner_device writer.old)) text self.old × (length text < 2 ^ 63) }
        ensures put { (before : Option (List ℕ)) (text : List ℕ) → IsPut before (W.contents (inner_device writer.old)) text self.old → PutsOn before (W.contents (inner_device writer.new)) text result self.new }
        ensures none { OnOk result (self.new.waiting.items ≡ []) }
        ensures failures { failure_count writer.new ≡ failure_count writer.old + write_faults result }
    {
        match write_all_counted(writer, self.waiting.as_slice()) {
            Ok(()) => {
                self.written += self.waiting.len() as u64;
                self.waiting.clear();
                Ok(())
            }
            Err(fault) => Err(RunError::Write {
                written: self.written + fault.written,
            }),
        }
    }

    /// Writes what waits, and then flushes once.
    ///
    /// # Errors
    /// `Write` where a write or the flush failed: how many bytes of the text are out.
    pub(crate) fn finish<W: Write>(self, writer: &mut Counted<W>) -> Result<(), RunError>
        requires writes { failure_count writer.old < 2 ^ 64 - 1 }
        requires text { (before : Option (List ℕ)) × (text : List ℕ) × IsPut before (W.contents (inner_device writer.old)) text self × (length text < 2 ^ 63) }
        ensures written { (before : Option (List ℕ)) (text : List ℕ) → IsPut before (W.contents (inner_device writer.old)) text self → WritesText before (W.contents (inner_device writer.new)) text result }
        ensures failures { failure_count writer.new ≡ failure_count writer.old + write_faults result }
    {
        let mut chunks = self;
        chunks.write_out(writer)?;
        match writer.flush() {
            Ok(()) => Ok(()),
            Err(_) => Err(RunError::Write {
                written: chunks.written,
            }),
        }
    }
}
