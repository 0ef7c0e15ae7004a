//! How many events of each kind there are, and how many bytes they store.

ghost use Rattle.std.specs.Prelude.{◌≡◌, []};
ghost use Rattle.pmt_fates.specs.Counting.{AreFew, counts_of, with_op};

use pmt_model::Op;

/// How many events of each kind there are, and how many bytes they store.
#[derive(Clone, Copy)]
pub struct Counts {
    /// All events.
    pub events: u64,
    /// The stores.
    pub stores: u64,
    /// The flushes that are clwb.
    pub clwbs: u64,
    /// The flushes that are clflushopt.
    pub clflushopts: u64,
    /// The flushes that are clflush.
    pub clflushes: u64,
    /// The fences that are sfence.
    pub sfences: u64,
    /// The fences that are mfence.
    pub mfences: u64,
    /// The assertions that a range is persisted.
    pub persists: u64,
    /// The assertions that a range persists before another.
    pub orders: u64,
    /// The bytes of all stores together.
    pub bytes: u64,
}

impl Counts {
    // The counts of no event.
    pub(crate) fn none() -> Self
        ensures { result ≡ counts_of [] }
    {
        Counts {
            events: 0,
            stores: 0,
            clwbs: 0,
            clflushopts: 0,
            clflushes: 0,
            sfences: 0,
            mfences: 0,
            persists: 0,
            orders: 0,
            bytes: 0,
        }
    }

    // Counts an event with this op.
    pub(crate) fn add(&mut self, op: Op)
        requires { AreFew self.old }
        ensures { self.new ≡ with_op op self.old }
    {
        self.events += 1;
        match op {
            Op::Store(store) => {
                self.stores += 1;
                self.bytes += store.bytes().len() as u64;
            }
            Op::Clwb(_) => self.clwbs += 1,
            Op::ClflushOpt(_) => self.clflushopts += 1,
            Op::Clflush(_) => self.clflushes += 1,
            Op::Sfence => self.sfences += 1,
            Op::Mfence => self.mfences += 1,
            Op::IsPersist(_) => self.persists += 1,
            Op::IsOrderedBefore(_, _) => self.orders += 1,
        }
    }
}
