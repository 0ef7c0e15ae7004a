//! Taking the answers of the workers apart.
ghost use Rattle.std.specs.Prelude.{◌≡◌, map, ◌++◌, IfOk, OnOk};
ghost use Rattle.std.specs.List.{flat_map};
ghost use Rattle.pmt_workers.specs.Answering.{result_in, kept_in};

use crate::shard::LineAnswer;
use pmt_lines::LineResult;
use pmt_model::OutOfMemory;
use std::alloc::Global;

// The results in the answers of all workers, and the lists of what is kept. There is room for so many lines.
pub(crate) fn taken_apart(
    alloc: Global,
    parts: Vec<Vec<LineAnswer>>,
    lines: usize,
) -> Result<(Vec<LineResult>, Vec<Vec<u64>>), OutOfMemory>
    ensures results { IfOk result (λ pair. pair.0.items ≡ map result_in (flat_map (λ part. part.items) parts.items)) }
    ensures lists { IfOk result (λ pair. map (λ kept. kept.items) pair.1.items ≡ map kept_in (flat_map (λ part. part.items) parts.items)) }
{
    let mut results = Vec::with_capacity(alloc, lines)?;
    let mut lists = Vec::with_capacity(alloc, lines)?;
    for part in parts {
        add_part(&mut results, &mut lists, part)?;
    }
    Ok((results, lists))
}

// Adds those of one worker.
fn add_part(
    results: &mut Vec<LineResult>,
    lists: &mut Vec<Vec<u64>>,
    part: Vec<LineAnswer>,
) -> Result<(), OutOfMemory>
    ensures results { OnOk result (results.new.items ≡ results.old.items ++ map result_in part.items) }
    ensures lists { OnOk result (map (λ kept. kept.items) lists.new.items ≡ map (λ kept. kept.items) lists.old.items ++ map kept_in part.items) }
{
    for answer in part {
        let LineAnswer { result, kept } = answer;
        results.push(result)?;
        lists.push(kept)?;
    }
    Ok(())
}
