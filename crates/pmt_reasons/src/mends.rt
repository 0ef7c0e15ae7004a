//! Laws of what mends a store that is not safe.

ghost use Rattle.pmt_reasons.specs.Mends.{FailureIsMended, LossIsMended, FenceCanBePutIn, FlushAndFenceCanBePutIn, FlushedStoreCanBePutFirst, StoreCanBePutFirst, FailureCanBeMended, LossCanBeMended};

/// In a trace with the mend of a failure put in, no crash up to the assertion loses the store, or keeps the one store without the other.
pub fn failure_is_mended()
    ensures { FailureIsMended }
{}

/// In a trace with the mend of stores that are never persisted put in, no crash at the end loses one of them.
pub fn loss_is_mended()
    ensures { LossIsMended }
{}

/// There is a trace with a fence put in, at each place between the two events that the mend names.
pub fn fence_can_be_put_in()
    ensures { FenceCanBePutIn }
{}

/// There is one with a flush and a fence put in.
pub fn flush_and_fence_can_be_put_in()
    ensures { FlushAndFenceCanBePutIn }
{}

/// There is one with a store made before an earlier event.
pub fn store_can_be_put_first()
    ensures { StoreCanBePutFirst }
{}

/// There is one with a store made, flushed and fenced before an earlier event.
pub fn flushed_store_can_be_put_first()
    ensures { FlushedStoreCanBePutFirst }
{}

/// There is a trace with the mend of a failure put in.
pub fn failure_can_be_mended()
    ensures { FailureCanBeMended }
{}

/// There is one with the mend of stores that are never persisted.
pub fn loss_can_be_mended()
    ensures { LossCanBeMended }
{}
