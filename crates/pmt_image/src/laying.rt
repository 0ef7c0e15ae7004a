//! Stores laid over the bytes that were there.
ghost use Rattle.std.specs.Prelude.{◌≡◌, ◌+◌, ◌-◌, ◌^◌, ◌<◌, ◌≤◌, ℕ, if◌then◌else◌, length, reverse, slice_index};
ghost use Rattle.pmt_model.specs.Machine.{writes};
ghost use Rattle.pmt_image.specs.Crashes.{written_by};
ghost use Rattle.pmt_image.specs.Pools.{over};

use pmt_model::WordStore;

// Writes the bytes of the stores, one after another, over these bytes, the first of which is at the address.
pub(crate) fn lay_stores(bytes: &mut [u8], at: u64, stores: &[WordStore])
    requires { at + length bytes.old < 2 ^ 64 }
    ensures { bytes.new ≡ over (written_by (reverse stores.now)) at bytes.old }
{
    for index in 0..stores.len() {
        lay_store(bytes, at, stores[index]);
    }
}

// Writes the bytes of one store over these bytes.
fn lay_store(bytes: &mut [u8], at: u64, store: WordStore)
    requires { at + length bytes.old < 2 ^ 64 }
    ensures { (k : ℕ) → k < length bytes.old → slice_index bytes.new k ≡ (if writes store (at + k) then slice_index store.bytes (at + k - store.addr) else slice_index bytes.old k) }
{
    let start = store.addr().get();
    let written = store.bytes();
    let low = start.max(at);
    let high = (start + written.len() as u64).min(at + bytes.len() as u64);
    for address in low..high {
        bytes[(address - at) as usize] = written[(address - start) as usize];
    }
}
