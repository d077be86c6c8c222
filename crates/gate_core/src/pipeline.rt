//! A pipeline at work in the core: its three queues, what is posted into two of them, and the turns of its worker.
ghost use Rattle.std.specs.Prelude.{◌≡◌};
ghost use Rattle.gate_record.specs.Limits.{places};
ghost use Rattle.gate_pipeline.specs.States.{asked, next_of};

use crate::answer::Answer;
use gate_config::Config;
use gate_items::{JobResult, Manage};
use gate_pipeline::{Taken, Which};
use gate_record::{Memory, PLACES, PipelineId, PipelineItem, Queue, TenantId};
use std::alloc::Global;

/// A post to a pipeline, or a turn of its worker.
#[derive(Drop)]
pub enum PipelineStep {
    /// Somebody posts a management event.
    PostManage(Manage),
    /// Somebody posts a result.
    PostResult(JobResult),
    /// The worker processes the event that it holds, or takes one value of its phase's queue, or finds that queue empty.
    Turn,
}

/// A pipeline at work: its queues and its worker. Of management events and of results at most 4,096 each wait.
#[derive(Drop)]
pub struct Pipeline {
    /// The management events that wait.
    pub management: Queue<Manage>,
    /// The results that wait.
    pub results: Queue<JobResult>,
    /// The trigger events that wait, and at the end the end mark.
    pub triggers: Queue<PipelineItem>,
    /// The worker: where its pass stands, what it has processed, and its queue items.
    pub worker: gate_pipeline::Pipeline,
}

impl Pipeline {
    ghost use Rattle.std.specs.Prelude.{OnErr};
    ghost use Rattle.gate_core.specs.Answers.{Does};
    ghost use Rattle.gate_core.specs.Needs.{TurnNeeds};
    ghost use Rattle.gate_core.specs.Inner.Needs.{PipelineNeeds};
    ghost use Rattle.gate_core.specs.Pipelines.{fresh_pipeline, post_manage, post_result, refused, took, turned};
    ghost use Rattle.gate_core.specs.Inner.Pipelines.{held_in, pipeline_step, refused_step};

    /// The pipeline before anything came.
    pub fn new(alloc: Global, config: &Config, tenant: TenantId, pipeline: PipelineId) -> Pipeline
        ensures { result ≡ fresh_pipeline config.now tenant.0 pipeline.0 }
    {
        Pipeline {
            management: Queue::new(alloc),
            results: Queue::new(alloc),
            triggers: Queue::new(alloc),
            worker: gate_pipeline::Pipeline::new(alloc, config, tenant, pipeline),
        }
    }

    /// Takes one step. A turn that is refused memory holds what it took from its queue.
    pub fn step(&mut self, config: &Config, step: PipelineStep) -> Result<Answer, Memory>
        ensures does { Does (refused_step step self.old) (pipeline_step config.now step self.old) self.new result }
        ensures needs { OnErr result (PipelineNeeds step self.old) }
    {
        match step {
            PipelineStep::PostManage(manage) => self.post_manage(manage),
            PipelineStep::PostResult(ended) => self.post_result(ended),
            PipelineStep::Turn => self.turn(config),
        }
    }

    // Puts a management event at the back of its queue. The answer is `Full` where 4,096 wait there.
    #[inline(never)]
    fn post_manage(&mut self, manage: Manage) -> Result<Answer, Memory>
        ensures { Does self.old (post_manage manage self.old) self.new result }
    {
        if self.management.len() >= PLACES {
            return Ok(Answer::Full);
        }
        self.management.push(manage)?;
        Ok(Answer::Moved)
    }

    // Puts a result at the back of its queue. The answer is `Full` where 4,096 wait there.
    #[inline(never)]
    fn post_result(&mut self, ended: JobResult) -> Result<Answer, Memory>
        ensures { Does self.old (post_result ended self.old) self.new result }
    {
        if self.results.len() >= PLACES {
            return Ok(Answer::Full);
        }
        self.results.push(ended)?;
        Ok(Answer::Moved)
    }

    // Processes the event that the worker holds, or takes one value of the phase's queue, or finds that queue empty. Where memory is
    // refused, the worker holds what it took.
    #[inline(never)]
    fn turn(&mut self, config: &Config) -> Result<Answer, Memory>
        ensures does { Does (refused self.old) (turned config.now self.old) self.new result }
        ensures needs { OnErr result (TurnNeeds self.old) }
    {
        if self.passes() {
            return Ok(Answer::Passed);
        }
        self.work(config)
    }

    ghost use Rattle.std.specs.Prelude.{◌≢◌, false, true};
    ghost use Rattle.gate_core.specs.Pipelines.{Emptiness, found, passed_on};
    ghost use Rattle.gate_core.specs.declared.answer.Answer.TheVariants.{Passed};

    /// Goes on to the next phase where the queue of this one is empty. The answer is whether it did.
    pub fn passes(&mut self) -> bool
        ensures passes { result ≡ true → (found self.old ≡ Emptiness) × ((self.new, Passed) ≡ passed_on self.old) }
        ensures stays { result ≡ false → (self.new ≡ self.old) × (found self.old ≢ Emptiness) }
    {
        let is_empty = match self.worker.wants() {
            Which::Management => self.management.is_empty(),
            Which::Result => self.results.is_empty(),
            Which::Trigger => self.triggers.is_empty(),
            Which::Held | Which::Finished => return false,
        };
        if is_empty {
            self.worker.found_empty();
        }
        is_empty
    }

    // Takes a turn that doesn't find its queue empty.
    #[inline(never)]
    fn work(&mut self, config: &Config) -> Result<Answer, Memory>
        requires { found self.old ≢ Emptiness }
        ensures does { Does (refused self.old) (turned config.now self.old) self.new result }
        ensures needs { OnErr result (TurnNeeds self.old) }
    {
        match self.worker.wants() {
            Which::Finished => Ok(Answer::Idle),
            Which::Held => self.hand_in(config, Taken::Again),
            Which::Management => {
                let Some(manage) = self.management.pop() else {
                    unreachable!()
                };
                self.hand_in(config, Taken::Manage(manage))
            }
            Which::Result => {
                let Some(ended) = self.results.pop() else {
                    unreachable!()
                };
                self.hand_in(config, Taken::Result(ended))
            }
            Which::Trigger => {
                let Some(item) = self.triggers.pop() else {
                    unreachable!()
                };
                self.hand_in(config, Taken::Trigger(item))
            }
        }
    }

    ghost use Rattle.gate_pipeline.specs.States.{MayBeRefused, to_process};

    fn hand_in(&mut self, config: &Config, given: Taken) -> Result<Answer, Memory>
        requires { next_of self.old.worker ≡ asked given }
        ensures does { Does (held_in given self.old) (took config.now given self.old) self.new result }
        ensures refused { OnErr result (MayBeRefused self.old.worker.items.manager (to_process self.old.worker.held given)) }
    {
        match self.worker.took(config, given)? {
            Some((stamp, action, outcome)) => Ok(Answer::Turned(stamp, action, outcome)),
            None => Ok(Answer::Moved),
        }
    }
}
