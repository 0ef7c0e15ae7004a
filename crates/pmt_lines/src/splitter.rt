//! Where each event of a trace goes while it is split.
ghost use Rattle.std.specs.Prelude.{◌≡◌, ℕ, ◌<◌, ◌≤◌, map, vec_len, All, IfOk, OnOk, Some, true, not, nat_eq, slice_get};
ghost use Rattle.indexmap.specs.IndexSet.{insert_key};
ghost use Rattle.pmt_laws.specs.Prelude.{Event, Flushes, Fences, Asserts, empty, with_event, Recording, event_limit, act, IsDistinct, list_any};
ghost use Rattle.pmt_lines.specs.Jobs.{IsStepKind, line_in, IsSplit, IsAccess, TakesOnLine, EndBefore, EndsAt};
ghost use Rattle.pmt_lines.specs.Splitters.{HasTaken, IsTaking};

use crate::job::LineJob;
use crate::open::OpenFlushes;
use crate::splitting::Jobs;
use crate::step::{Step, StepKind};
use crate::thread_job::ThreadJob;
use indexmap::IndexSet;
use pmt_model::{Event, Format, Op, OutOfMemory, Trace, line_of};
use std::alloc::Global;

/// The jobs of a trace while its events come. It holds none of the events.
#[derive(Drop)]
pub(crate) struct Splitter {
    format: Format,
    // How many events it has taken.
    taken: u64,
    lines: IndexSet<u64>,
    jobs: Vec<LineJob>,
    open_flushes: OpenFlushes,
    fences: ThreadJob,
}

impl Splitter {
    // No events of this format yet.
    pub(crate) fn new(alloc: Global, format: Format) -> Result<Self, OutOfMemory>
        ensures { IfOk result (HasTaken (empty format)) }
    {
        Ok(Splitter {
            format,
            taken: 0,
            lines: IndexSet::new(alloc),
            jobs: Vec::new(alloc),
            open_flushes: OpenFlushes::new(alloc)?,
            fences: ThreadJob::new(alloc),
        })
    }

    // Takes the next event. What it leaves where memory was refused is not told.
    #[inline(always)]
    pub(crate) fn take(&mut self, event: &Event) -> Result<(), OutOfMemory>
        requires taking { IsTaking self.old }
        requires room { self.old.taken < event_limit }
        ensures { (T : Recording) → HasTaken T self.old → OnOk result (HasTaken (with_event T event.now) self.new) }
    {
        let thread = event.thread;
        match &event.op {
            Op::Store(store) => {
                let addr = store.addr();
                let kind = StepKind::Store {
                    addr: addr.get(),
                    len: store.bytes().len() as u64,
                };
                self.take_access(thread, line_of(self.format, addr), kind)
            }
            Op::Clwb(addr) | Op::ClflushOpt(addr) => self.take_flush(
                thread,
                line_of(self.format, *addr),
            ),
            Op::Clflush(addr) => {
                let kind = StepKind::Clflush;
                self.take_access(thread, line_of(self.format, *addr), kind)
            }
            Op::Sfence | Op::Mfence => self.take_fence(thread),
            Op::IsPersist(_) | Op::IsOrderedBefore(_, _) => self.take_assertion(),
        }
    }

    // The trace, whose events it has taken, and the jobs.
    pub(crate) fn finish(self, trace: Trace) -> Jobs
        requires { HasTaken trace self }
        ensures trace { result.trace ≡ trace }
        ensures apart { IsSplit result.trace result.lines.items result.fences }
    {
        let Splitter {
            format: _,
            taken: _,
            lines: _,
            jobs,
            open_flushes: _,
            fences,
        } = self;
        Jobs {
            trace,
            lines: jobs,
            fences,
        }
    }

    // A store to the line, or a clflush of it.
    fn take_access(&mut self, thread: u8, line: u64, kind: StepKind) -> Result<(), OutOfMemory>
        requires taking { IsTaking self.old }
        requires room { self.old.taken < event_limit }
        requires kind { IsStepKind kind }
        ensures { (T : Recording) (e : Event) → e.thread ≡ thread → IsAccess line kind (act T.format e) → HasTaken T self.old → OnOk result (HasTaken (with_event T e) self.new) }
    {
        let number = self.taken + 1;
        let step = Step {
            number,
            thread,
            kind,
        };
        take_on_line(&mut self.lines, &mut self.jobs, line, &step)?;
        self.taken = number;
        Ok(())
    }

    // A flush of the line by the thread.
    fn take_flush(&mut self, thread: u8, line: u64) -> Result<(), OutOfMemory>
        requires taking { IsTaking self.old }
        requires room { self.old.taken < event_limit }
        ensures { (T : Recording) (e : Event) → e.thread ≡ thread → act T.format e ≡ Flushes thread line → HasTaken T self.old → OnOk result (HasTaken (with_event T e) self.new) }
    {
        let number = self.taken + 1;
        let kind = StepKind::Flush;
        let step = Step {
            number,
            thread,
            kind,
        };
        let place = take_on_line(&mut self.lines, &mut self.jobs, line, &step)?;
        self.open_flushes.add(thread, place)?;
        self.fences.push(&step)?;
        self.taken = number;
        Ok(())
    }

    // A fence by the thread.
    fn take_fence(&mut self, thread: u8) -> Result<(), OutOfMemory>
        requires taking { IsTaking self.old }
        requires room { self.old.taken < event_limit }
        ensures { (T : Recording) (e : Event) → e.thread ≡ thread → act T.format e ≡ Fences thread → HasTaken T self.old → OnOk result (HasTaken (with_event T e) self.new) }
    {
        let number = self.taken + 1;
        let kind = StepKind::Fence;
        let step = Step {
            number,
            thread,
            kind,
        };
        end_intervals(&mut self.jobs, self.open_flushes.of(thread), &step)?;
        self.open_flushes.clear(thread);
        self.fences.push(&step)?;
        self.taken = number;
        Ok(())
    }

    // An assertion.
    fn take_assertion(&mut self) -> Result<(), OutOfMemory>
        requires room { self.old.taken < event_limit }
        ensures { (T : Recording) (e : Event) → act T.format e ≡ Asserts → HasTaken T self.old → OnOk result (HasTaken (with_event T e) self.new) }
    {
        self.taken += 1;
        Ok(())
    }
}

// Adds the step to the job of the line, which it makes if there is none yet: the place of the job.
fn take_on_line(
    lines: &mut IndexSet<u64>,
    jobs: &mut Vec<LineJob>,
    line: u64,
    step: &Step,
) -> Result<usize, OutOfMemory>
    requires same { map line_in jobs.old.items ≡ lines.old.keys }
    requires numbered { 1 ≤ step.now.number }
    requires later { EndBefore step.now.number jobs.old.items }
    requires within { step.now.number ≤ event_limit }
    requires kind { IsStepKind step.now.kind }
    ensures { IfOk result (λ place. TakesOnLine line step.now place lines.old.keys lines.new.keys jobs.old.items jobs.new.items) }
{
    let (place, is_new) = lines.insert_full(line)?;
    if is_new {
        jobs.push(LineJob::new(*jobs.allocator(), line))?;
    }
    jobs[place].push(step)?;
    Ok(place)
}

// Adds the fence to each job at one of the places, once.
fn end_intervals(jobs: &mut Vec<LineJob>, places: &[usize], fence: &Step) -> Result<(), OutOfMemory>
    requires placed { All (λ place. place < vec_len jobs.old) places.now }
    requires later { EndBefore fence.now.number jobs.old.items }
    requires within { fence.now.number ≤ event_limit }
    requires kind { IsStepKind fence.now.kind }
    ensures { OnOk result (EndsAt places.now fence.now jobs.old.items jobs.new.items) }
{
    for place in places {
        let job = &mut jobs[*place];
        if job.last_number() < fence.number {
            job.push(fence)?;
        }
    }
    Ok(())
}
