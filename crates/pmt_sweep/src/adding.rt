//! What is found or judged at an event is added to what was before.
ghost use Rattle.std.specs.Prelude.{◌≡◌, [], ◌++◌, OnOk};
ghost use Rattle.pmt_model.specs.declared.finding.Finding.TheVariants.{Overwritten};
ghost use Rattle.pmt_sweep.specs.Found.{found_if, overwritten, with_verdict};

use crate::Noted;
use crate::noted::note;
use pmt_model::{Finding, OutOfMemory, Verdict};
use pmt_tables::Overwrite;

// Adds the finding, if it is one.
#[inline(always)]
pub(crate) fn push_if(
    found: &mut Vec<Noted>,
    is_one: bool,
    finding: Finding,
) -> Result<(), OutOfMemory>
    ensures { OnOk result (found.new.items ≡ found.old.items ++ found_if is_one finding) }
{
    if is_one {
        note(found, finding)?;
    }
    Ok(())
}

// Adds that these stores are overwritten.
#[inline(always)]
fn push_overwritten(found: &mut Vec<Noted>, over: &[Overwrite]) -> Result<(), OutOfMemory>
    ensures { OnOk result (found.new.items ≡ found.old.items ++ overwritten over.now) }
{
    for index in 0..over.len() {
        note(found, finding_of(over[index]))?;
    }
    Ok(())
}

// Adds that these stores are overwritten, and leaves none of them.
#[inline(always)]
pub(crate) fn move_overwritten(
    found: &mut Vec<Noted>,
    over: &mut Vec<Overwrite>,
) -> Result<(), OutOfMemory>
    ensures found { OnOk result (found.new.items ≡ found.old.items ++ overwritten over.old.items) }
    ensures none { OnOk result (over.new.items ≡ []) }
{
    if over.is_empty() {
        return Ok(());
    }
    push_overwritten(found, over.as_slice())?;
    over.clear();
    Ok(())
}

// That the store is overwritten.
fn finding_of(overwrite: Overwrite) -> Finding
    ensures { result ≡ Overwritten overwrite.earlier overwrite.later }
{
    Finding::Overwritten {
        earlier: overwrite.earlier as u64,
        later: overwrite.later as u64,
    }
}

// Adds the verdict, if there is one.
pub(crate) fn push_verdict(
    verdicts: &mut Vec<Verdict>,
    judged: Option<Verdict>,
) -> Result<(), OutOfMemory>
    ensures { OnOk result (verdicts.new.items ≡ with_verdict verdicts.old.items judged) }
{
    if let Some(verdict) = judged {
        verdicts.push(verdict)?;
    }
    Ok(())
}
