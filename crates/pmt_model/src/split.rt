//! Cutting a long store at the words.
ghost use Rattle.std.specs.Prelude.{◌≡◌, MatchResult, IfOk};
ghost use Rattle.pmt_model.specs.Ops.{AreWordPieces, IsCutInWords, SplitRefuses, IsSplittable};

use crate::event::Op;
use crate::fault::SplitStoreError;
use std::alloc::Global;

/// Cuts the store of 1 to 4096 bytes at `addr` at the aligned words of 8 bytes: 1 to 513 stores, in order of their addresses.
///
/// # Errors
/// `BadLength` where there are no bytes or more than 4096, then `OutOfRange` where `addr` and the length pass 48 bits, then
/// `OutOfMemory`.
pub fn split_store(alloc: Global, addr: u64, bytes: &[u8]) -> Result<Vec<Op>, SplitStoreError>
    ensures pieces { MatchResult result (λ ops. IsSplittable addr bytes.now × AreWordPieces addr bytes.now ops.items) (SplitRefuses addr bytes.now) }
    ensures whole { IfOk result (λ ops. IsCutInWords addr bytes.now ops.items) }
{
    if bytes.is_empty() || bytes.len() > 4096 {
        return Err(SplitStoreError::BadLength);
    }
    if addr > (1 << 48) - bytes.len() as u64 {
        return Err(SplitStoreError::OutOfRange);
    }
    pieces(alloc, addr, bytes)
}

fn pieces(alloc: Global, addr: u64, bytes: &[u8]) -> Result<Vec<Op>, SplitStoreError>
    requires { IsSplittable addr bytes.now }
    ensures pieces { MatchResult result (λ ops. AreWordPieces addr bytes.now ops.items) (λ e. e ≡ SplitStoreError.OutOfMemory) }
    ensures whole { IfOk result (λ ops. IsCutInWords addr bytes.now ops.items) }
{
    let mut ops = Vec::new(alloc);
    let mut addr = addr;
    let mut rest = bytes;
    while !rest.is_empty() {
        let room = 8 - (addr % 8) as usize;
        let (piece, later) = rest.split_at(room.min(rest.len()));
        let Ok(op) = Op::store(addr, piece) else {
            unreachable!()
        };
        if ops.push(op).is_err() {
            return Err(SplitStoreError::OutOfMemory);
        }
        addr += piece.len() as u64;
        rest = later;
    }
    Ok(ops)
}
