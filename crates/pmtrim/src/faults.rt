//! The faults of runs, with their reasons.
ghost use Rattle.pmt_report.specs.Faults.{run_status};
ghost use Rattle.command_inputs.specs.Devices.{IsToldAs, fault_status};

use command_inputs::{Fault, Input, Memory, Recalling, reasoned};
use pmt_report::RunError;
use pmt_text::Counted;
use std::alloc::Global;

/// The fault of a run over this input, with the reason below its line where that is recalled of the reader or of what was written.
pub fn run_fault<R: Drop>(
    alloc: Global,
    error: RunError,
    input: Input<'_>,
    reader: Counted<Recalling<R>>,
    written: Option<Memory>,
) -> Fault
    ensures { IsToldAs (run_status error) (fault_status result) }
{
    let reader = reader.into_inner();
    reasoned(
        alloc,
        Fault::Run(error),
        input,
        reader.memory(),
        written.as_ref(),
    )
}
