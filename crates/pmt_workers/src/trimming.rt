//! The trimmed trace of an analysis.
ghost use Rattle.std.specs.Prelude.{IfOk};
ghost use Rattle.pmt_trimming.specs.Headline.{IsTrimmed};

use pmt_analysis::Analysis;
use pmt_model::{OutOfMemory, Trace};

/// The trimmed trace: the events that are kept.
///
/// # Errors
/// Where memory was refused.
pub fn trimmed(analysis: &Analysis) -> Result<Trace, OutOfMemory>
    ensures { IfOk result (IsTrimmed analysis.now.trace analysis.now.selection) }
{
    let trimmed = analysis.trace().select(analysis.selection())?;
    Ok(trimmed)
}
