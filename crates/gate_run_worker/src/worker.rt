//! The thread of a pipeline's worker, from its seats at the beginning to what it hands back.
ghost use Rattle.std.specs.Prelude.{◌≡◌, true};
ghost use Rattle.gate_queue.specs.Seats.{IsHeadOf};
ghost use Rattle.gate_pipeline.specs.States.{asked, found_empty, is_taking, next_of};
ghost use Rattle.gate_run_worker.specs.Workers.{CanWork, HasWorked};
ghost use Rattle.gate_run_worker.specs.Inner.Workers.{Continues, MayProcess};

use crate::gate::Gate;
use crate::inbox::InboxSeat;
use crossbeam_utils::sync::Parker;
use gate_config::Config;
use gate_items::{JobResult, Manage};
use gate_pipeline::{Pipeline, Taken, Which};
use gate_queue::{FreeHead, FreeQueue};
use gate_record::{Memory, PipelineId, PipelineItem, TenantId};
use gate_run_threads::{Signals, StepOutcome, Work};
use std::sync::Wait;
use std::thread::Threads;
use std::time::Clock;

// How many queues a pipeline takes from. After so many empty ones in a row the worker has nothing to do.
const QUEUES: u8 = 3;

/// The worker of a pipeline before it begins, with its seats.
#[derive(Drop)]
pub struct PipelineWorker<'a, G> {
    pub config: &'a Config,
    pub tenant: TenantId,
    pub pipeline: PipelineId,
    /// The pipeline, which has taken nothing yet.
    pub state: Pipeline,
    /// The trigger queue, and the taker's seat in it.
    pub source: &'a FreeQueue<PipelineItem>,
    pub head: FreeHead<PipelineItem>,
    pub management: InboxSeat<Manage>,
    pub results: InboxSeat<JobResult>,
    pub parker: Parker,
    pub gate: &'a G,
}

/// What a worker hands back when its thread returns: the pipeline and the seats.
#[derive(Drop)]
pub struct WorkerEnd {
    pub state: Pipeline,
    pub head: FreeHead<PipelineItem>,
    pub management: InboxSeat<Manage>,
    pub results: InboxSeat<JobResult>,
    pub parker: Parker,
}

impl<'a, G: Gate + Sync> Work<WorkerEnd> for PipelineWorker<'a, G> {
    ghost ready = { λ w. CanWork w.config.now w.tenant.0 w.pipeline.0 w.state w.source.now w.head };

    ghost comes_to = { λ w end. HasWorked w.config.now w.tenant.0 w.pipeline.0 w.head end.head w.management end.management w.results end.results end.state };

    fn work<R: Threads + Wait + Clock + Sync>(self, rt: &R, signals: &Signals) -> WorkerEnd {
        let PipelineWorker {
            config,
            tenant,
            pipeline,
            state,
            source,
            head,
            management,
            results,
            parker,
            gate,
        } = self;
        let mut working = RunningWorker {
            tenant,
            pipeline,
            state,
            head,
            management,
            results,
            empty: 0,
        };
        for _ in rt.forever() {
            if signals.is_halted() {
                return working.end(rt, parker, gate);
            }
            match working.step(rt, config, source, signals, gate) {
                StepOutcome::Ready => {}
                StepOutcome::Pending => parker.park(rt),
                StepOutcome::Done => return working.end(rt, parker, gate),
            }
        }
        unreachable!()
    }
}

// A pipeline's worker at work.
#[derive(Drop)]
pub(crate) struct RunningWorker {
    pub(crate) tenant: TenantId,
    pub(crate) pipeline: PipelineId,
    pub(crate) state: Pipeline,
    pub(crate) head: FreeHead<PipelineItem>,
    pub(crate) management: InboxSeat<Manage>,
    pub(crate) results: InboxSeat<JobResult>,
    // How many queues were found empty since the last value was processed.
    pub(crate) empty: u8,
}

impl RunningWorker {
    // Takes a value of the queue that the pipeline wants next, and processes it.
    fn step<G: Gate, R: Wait>(
        &mut self,
        rt: &R,
        config: &Config,
        source: &FreeQueue<PipelineItem>,
        signals: &Signals,
        gate: &G,
    ) -> StepOutcome
        requires head { IsHeadOf source.now self.old.head }
        ensures continues { Continues config.now self.old self.new }
        ensures head { self.new.head.queue ≡ self.old.head.queue }
    {
        match self.state.wants() {
            Which::Finished => StepOutcome::Done,
            Which::Held => self.process(rt, config, Taken::Again, signals, gate),
            Which::Management => match self.management.take(rt) {
                Some(taken) => {
                    self.process(rt, config, Taken::Manage(taken.value), signals, gate)
                }
                None => self.found_empty(),
            },
            Which::Result => match self.results.take(rt) {
                Some(taken) => {
                    self.process(rt, config, Taken::Result(taken.value), signals, gate)
                }
                None => self.found_empty(),
            },
            Which::Trigger => match source.take(rt, &mut self.head) {
                Some(taken) => {
                    self.process(rt, config, Taken::Trigger(taken.value), signals, gate)
                }
                None => self.found_empty(),
            },
        }
    }

    // Notes that the queue which the pipeline wanted was empty. Once all queues were, the thread has nothing to do.
    fn found_empty(&mut self) -> StepOutcome
        requires asked { is_taking (next_of self.old.state) ≡ true }
        ensures finds { self.new.state ≡ found_empty self.old.state }
        ensures head { self.new.head ≡ self.old.head }
        ensures management { self.new.management ≡ self.old.management }
        ensures results { self.new.results ≡ self.old.results }
    {
        self.state.found_empty();
        self.empty = self.empty.saturating_add(1);
        if self.empty < QUEUES {
            return StepOutcome::Ready;
        }
        self.empty = 0;
        StepOutcome::Pending
    }

    // Processes a value that was taken. Where memory is refused, the pipeline holds the value.
    fn process<G: Gate, R: Wait>(
        &mut self,
        rt: &R,
        config: &Config,
        given: Taken,
        signals: &Signals,
        gate: &G,
    ) -> StepOutcome
        requires asked { next_of self.old.state ≡ asked given }
        ensures processes { MayProcess config.now self.old.state given self.new.state }
        ensures head { self.new.head ≡ self.old.head }
        ensures management { self.new.management ≡ self.old.management }
        ensures results { self.new.results ≡ self.old.results }
    {
        if !matches!(given, Taken::Trigger(PipelineItem::End)) {
            gate.before(rt, self.tenant, self.pipeline, &self.state);
        }
        self.empty = 0;
        match self.state.took(config, given) {
            Ok(Some(processed)) => {
                gate.after(rt, self.tenant, self.pipeline, &self.state, &processed);
                StepOutcome::Ready
            }
            // This was the end mark, which is no action.
            Ok(None) => StepOutcome::Ready,
            Err(Memory) => {
                signals.halt();
                StepOutcome::Done
            }
        }
    }

    // Tells the gate for the last time, and hands back the pipeline and the seats.
    fn end<G: Gate, R: Wait>(self, rt: &R, parker: Parker, gate: &G) -> WorkerEnd
        ensures state { result.state ≡ self.state }
        ensures head { result.head ≡ self.head }
        ensures management { result.management ≡ self.management }
        ensures results { result.results ≡ self.results }
    {
        gate.last(rt, self.tenant, self.pipeline, &self.state);
        WorkerEnd {
            state: self.state,
            head: self.head,
            management: self.management,
            results: self.results,
            parker,
        }
    }
}
