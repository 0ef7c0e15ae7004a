//! The job of one line: the events that matter to it.
ghost use Rattle.std.specs.Prelude.{◌≡◌, ◌<◌, ◌≤◌, OnOk, OnErr, [], ◌∷◌, ◌++◌};
ghost use Rattle.pmt_model.specs.Traces.{event_limit};
ghost use Rattle.pmt_lines.specs.Jobs.{IsStepKind, AreSteps, last_number, with_step};

use crate::step::Step;
use pmt_model::OutOfMemory;
use std::alloc::Global;
use std::marker::Model;

/// The events of a trace that matter to one line, in order.
#[derive(Debug, Drop)]
pub struct LineJob {
    line: u64,
    steps: Vec<Step>,
}

impl Model for LineJob {
    ghost use Rattle.pmt_lines.specs.Jobs.{LineWork, AreSteps};

    ghost Value = { LineWork };

    ghost view = { λ j. record { line = j.line; steps = j.steps.items } };

    ghost invariant = { λ j. AreSteps 0 j.steps.items };
}

impl LineJob {
    // The job of a line for which nothing has come.
    pub(crate) fn new(alloc: Global, line: u64) -> Self
        ensures { result ≡ record { line = line; steps = [] } }
    {
        LineJob {
            line,
            steps: Vec::new(alloc),
        }
    }

    /// The number of the line.
    pub fn line(&self) -> u64
        ensures { result ≡ self.now.line }
    {
        self.line
    }

    /// The stores, flushes and fences, by rising numbers from 1 to 1,000,000; each store lies inside one word.
    pub fn steps(&self) -> &[Step]
        ensures value { result.now ≡ self.now.steps }
        ensures rising { AreSteps 0 self.now.steps }
    {
        self.steps.as_slice()
    }

    // The number of the last step, or 0.
    pub(crate) fn last_number(&self) -> u64
        ensures { result ≡ last_number 0 self.now.steps }
    {
        match self.steps.last() {
            Some(step) => step.number,
            None => 0,
        }
    }

    // Adds a later step.
    pub(crate) fn push(&mut self, step: &Step) -> Result<(), OutOfMemory>
        requires later { last_number 0 self.old.steps < step.now.number }
        requires within { step.now.number ≤ event_limit }
        requires inside { IsStepKind step.now.kind }
        ensures ok { OnOk result (self.new ≡ with_step self.old step.now) }
        ensures err { OnErr result (self.new ≡ self.old) }
    {
        self.steps.push(*step)?;
        Ok(())
    }
}
