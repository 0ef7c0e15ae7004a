//! The job of the fences: all flushes and fences.
ghost use Rattle.std.specs.Prelude.{◌≡◌, ◌<◌, ◌≤◌, OnOk, OnErr, [], ◌∷◌, ◌++◌};
ghost use Rattle.pmt_model.specs.Traces.{event_limit};
ghost use Rattle.pmt_lines.specs.Jobs.{IsStepKind, AreSteps, last_number};

use crate::step::Step;
use pmt_model::OutOfMemory;
use std::alloc::Global;
use std::marker::Model;

/// The flushes and fences of a trace, in order.
#[derive(Debug, Drop)]
pub struct ThreadJob {
    steps: Vec<Step>,
}

impl Model for ThreadJob {
    ghost use Rattle.std.specs.Prelude.{List};
    ghost use Rattle.pmt_lines.specs.declared.step.Step.{Step};
    ghost use Rattle.pmt_lines.specs.Jobs.{AreSteps};

    ghost Value = { List Step };

    ghost view = { λ j. j.steps.items };

    ghost invariant = { λ j. AreSteps 0 j.steps.items };
}

impl ThreadJob {
    // The job for which nothing has come.
    pub(crate) fn new(alloc: Global) -> Self
        ensures { result ≡ [] }
    {
        ThreadJob {
            steps: Vec::new(alloc),
        }
    }

    /// The flushes and fences, by rising numbers from 1 to 1,000,000.
    pub fn steps(&self) -> &[Step]
        ensures value { result.now ≡ self.now }
        ensures rising { AreSteps 0 self.now }
    {
        self.steps.as_slice()
    }

    // Adds a later step.
    pub(crate) fn push(&mut self, step: &Step) -> Result<(), OutOfMemory>
        requires later { last_number 0 self.old < step.now.number }
        requires within { step.now.number ≤ event_limit }
        requires kind { IsStepKind step.now.kind }
        ensures ok { OnOk result (self.new ≡ self.old ++ step.now ∷ []) }
        ensures err { OnErr result (self.new ≡ self.old) }
    {
        self.steps.push(*step)?;
        Ok(())
    }
}
