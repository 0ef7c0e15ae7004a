//! Ops and events.
ghost use Rattle.std.specs.Prelude.{◌≡◌};
ghost use Rattle.pmt_model.specs.Traces.{IsEvent, in_format};
ghost use Rattle.pmt_model.specs.Ops.{store_of, clwb_of, clflushopt_of, clflush_of};

use crate::addr::Addr;
use crate::fault::OpError;
use crate::format::Format;
use crate::range::Range;
use crate::store::{Payload, WordStore};
use std::mem::size_of;

/// What one event does.
#[derive(Clone, Copy, Debug, PartialEq, Eq)]
pub enum Op {
    /// A store of 1 to 8 bytes.
    Store(WordStore),
    /// A flush of the line of the address, which a fence of its thread completes (Intel SDM, CLWB).
    Clwb(Addr),
    /// A flush of the line of the address, which a fence of its thread completes (Intel SDM, CLFLUSHOPT).
    ClflushOpt(Addr),
    /// A flush of the line of the address, complete at once (Intel SDM, CLFLUSH); version 2.
    Clflush(Addr),
    /// A fence, which completes the flushes of its thread (Intel SDM, SFENCE).
    Sfence,
    /// A fence with every rule of `Sfence` (Intel SDM, MFENCE); version 2.
    Mfence,
    /// The assertion that the range is persisted.
    IsPersist(Range),
    /// The assertion that the first range persists before the second.
    IsOrderedBefore(Range, Range),
}

impl Op {
    /// A store of the bytes at the address.
    ///
    /// # Errors
    /// `BadLength` where there are no bytes or more than 8, then `OutOfRange` where the address is past 48 bits, then
    /// `CrossesWord` where the store does not lie inside one aligned word of 8 bytes.
    pub fn store(addr: u64, bytes: &[u8]) -> Result<Op, OpError>
        ensures { result ≡ store_of addr bytes.now }
    {
        let payload = Payload::new(bytes)?;
        let addr = Addr::new(addr)?;
        Ok(Op::Store(WordStore::new(addr, payload)?))
    }

    /// A clwb of the line of the address.
    ///
    /// # Errors
    /// `OutOfRange` where the address is past 48 bits.
    pub fn clwb(addr: u64) -> Result<Op, OpError>
        ensures { result ≡ clwb_of addr }
    {
        Ok(Op::Clwb(Addr::new(addr)?))
    }

    /// A clflushopt of the line of the address.
    ///
    /// # Errors
    /// `OutOfRange` where the address is past 48 bits.
    pub fn clflushopt(addr: u64) -> Result<Op, OpError>
        ensures { result ≡ clflushopt_of addr }
    {
        Ok(Op::ClflushOpt(Addr::new(addr)?))
    }

    /// A clflush of the line of the address.
    ///
    /// # Errors
    /// `OutOfRange` where the address is past 48 bits.
    pub fn clflush(addr: u64) -> Result<Op, OpError>
        ensures { result ≡ clflush_of addr }
    {
        Ok(Op::Clflush(Addr::new(addr)?))
    }
}

/// One event of a trace.
#[derive(Clone, Copy, Debug, PartialEq, Eq)]
pub struct Event {
    /// The thread that makes it.
    pub thread: u8,
    /// What it does.
    pub op: Op,
}

// An event is held a million times.
const _: () = prove!(size_of::<Event>() == 20);

impl Event {
    /// Whether the event is in the format: clflush and mfence are in version 2 alone.
    pub fn is_in(&self, format: Format) -> bool
        ensures known { result ≡ in_format format self.now.op }
        ensures limits { IsEvent self.now }
    {
        let op = self.op;
        let _thread = self.thread;
        match op {
            Op::Store(store) => {
                let _ = store.addr();
                true
            }
            Op::Clwb(addr) | Op::ClflushOpt(addr) => {
                let _ = addr.get();
                true
            }
            Op::Clflush(addr) => {
                let _ = addr.get();
                format.version() == 2
            }
            Op::Sfence => true,
            Op::Mfence => format.version() == 2,
            Op::IsPersist(range) => {
                let _ = range.len();
                true
            }
            Op::IsOrderedBefore(first, second) => {
                let _ = first.len();
                let _ = second.len();
                true
            }
        }
    }
}
