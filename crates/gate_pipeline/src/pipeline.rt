//! `Pipeline`, the worker of one pipeline.
ghost use Rattle.std.specs.Prelude.{◌≡◌, IfOk, OnErr, MatchResult, true};
ghost use Rattle.gate_pipeline.specs.States.{MayBeRefused, Takes, applied, asked, first_state, found_empty, is_taking, next_of, processed, report_of, to_process};

use crate::pass::{Pass, Phase, Taking};
use crate::trigger::{manager_of, trigger_of};
use crate::which::{Held, Processed, Taken, Which};
use gate_config::Config;
use gate_items::{Action, Items, Outcome};
use gate_record::{Memory, PipelineId, PipelineItem, Sequence, Stamp, Stamped, TenantId};
use gate_report::PipelineReport;
use std::alloc::Global;
use std::marker::Model;

/// The worker of a pipeline: its place in its pass, the value that it holds, the trigger events that it has processed, and its
/// queue items. Contracts see these, and the numbers of the pipeline and its tenant.
///
/// A pass goes from management events to results to triggers, and then begins again. The owner of the queues asks `wants`, takes
/// from the queue that it names, and hands in the value, or says that the queue was empty.
#[derive(Drop)]
pub struct Pipeline {
    tenant: TenantId,
    pipeline: PipelineId,
    pass: Pass,
    held: Option<Held>,
    done: Vec<Stamp>,
    finished: bool,
    items: Items,
}

impl Model for Pipeline {
    ghost use Rattle.gate_pipeline.specs.States.{State};

    ghost Value = { State };

    ghost view = { λ p. record { tenant = p.tenant.0; pipeline = p.pipeline.0; pass = p.pass; held = p.held; done = p.done.items; finished = p.finished; items = p.items } };
}

impl Pipeline {
    /// Returns the worker of a pipeline that has taken nothing yet. A pipeline that the configuration doesn't have counts as
    /// independent. It takes no memory.
    pub fn new(alloc: Global, config: &Config, tenant: TenantId, pipeline: PipelineId) -> Pipeline
        ensures { result ≡ first_state config.now tenant.0 pipeline.0 }
    {
        Pipeline {
            tenant,
            pipeline,
            pass: Pass::first(),
            held: None,
            done: Vec::new(alloc),
            finished: false,
            items: Items::new(alloc, manager_of(config, tenant, pipeline), 0),
        }
    }

    /// Returns what is to be done next: nothing once the end mark was taken, else to process the held value, else to take from
    /// the queue of the phase.
    pub fn wants(&self) -> Which
        ensures { result ≡ next_of self.now }
    {
        if self.finished {
            return Which::Finished;
        }
        if self.held.is_some() {
            return Which::Held;
        }
        match self.pass.phase {
            Phase::Management => Which::Management,
            Phase::Result => Which::Result,
            Phase::Trigger => Which::Trigger,
        }
    }

    /// Processes a value, which must be what `wants` asks for. The value counts in its phase, and its action is applied to the
    /// items. The result is the action, its stamp if it came of a trigger event, and its outcome; for the end mark, which
    /// finishes the pipeline, the result is `None`. A trigger event asks for the jobs that this configuration has for its
    /// project. Its stamp is done as soon as the action was applied or discarded.
    ///
    /// Only a trigger, and a reset of an independent pipeline, can be refused memory. After `Memory` the worker holds the value,
    /// and the value is the next to be processed.
    pub fn took(&mut self, config: &Config, given: Taken) -> Result<Option<Processed>, Memory>
        requires asked { next_of self.old ≡ asked given }
        ensures takes { Takes config.now self.old given self.new result }
        ensures refused { OnErr result (MayBeRefused self.old.items.manager (to_process self.old.held given)) }
    {
        let held = match given {
            Taken::Manage(manage) => self.count(Held::Action(Action::Manage(manage))),
            Taken::Result(result) => self.count(Held::Action(Action::Result(result))),
            Taken::Trigger(PipelineItem::Event(stamped)) => self.count(Held::Event(stamped)),
            Taken::Trigger(PipelineItem::End) => {
                self.pass = self.pass.after(Taking::Value);
                self.finished = true;
                return Ok(None);
            }
            Taken::Again => match self.held.take() {
                Some(held) => held,
                None => return Ok(None),
            },
        };
        Ok(Some(self.process(config, held)?))
    }

    /// Says that the queue which `wants` names was empty: the pass goes on to the next phase.
    pub fn found_empty(&mut self)
        requires asked { is_taking (next_of self.old) ≡ true }
        ensures { self.new ≡ found_empty self.old }
    {
        self.pass = self.pass.after(Taking::Nothing);
    }

    /// Returns the stamps of the trigger events that were processed, in order.
    pub fn done(&self) -> &[Stamp]
        ensures { result.now ≡ self.now.done }
    {
        self.done.as_slice()
    }

    /// Returns whether the end mark was taken.
    pub fn finished(&self) -> bool
        ensures { result ≡ self.now.finished }
    {
        self.finished
    }

    /// Returns what a run reports of the pipeline: the stamps of the trigger events that were processed, and whether the end mark
    /// was taken.
    pub fn report(&self, alloc: Global) -> Result<PipelineReport, Memory>
        ensures { IfOk result (λ report. report ≡ report_of self.now) }
    {
        let done = self.done().to_vec(alloc)?;
        Ok(PipelineReport {
            done: Sequence::new(done),
            finished: self.finished,
        })
    }

    /// Returns the queue items and the reports.
    pub fn state(&self) -> &Items
        ensures { result.now ≡ self.now.items }
    {
        &self.items
    }

    ghost use Rattle.gate_pipeline.specs.States.{counted, held_as};
    ghost use Rattle.gate_pipeline.specs.Inner.States.{ComesTo, Processes};
    ghost use Rattle.gate_pipeline.specs.declared.which.Held.TheVariants as held;
    ghost use Rattle.std.specs.Prelude.{Some, None};

    // Counts a value in its phase.
    fn count(&mut self, held: Held) -> Held
        ensures counts { self.new ≡ counted self.old }
        ensures same { result ≡ held }
    {
        self.pass = self.pass.after(Taking::Value);
        held
    }

    // Processes a value. After `Memory` the worker holds the value.
    fn process(&mut self, config: &Config, held: Held) -> Result<Processed, Memory>
        requires free { self.old.held ≡ None }
        ensures processes { Processes config.now self.old held self.new result }
        ensures refused { OnErr result (MayBeRefused self.old.items.manager (Some held)) }
    {
        match held {
            Held::Action(action) => self.process_action(action),
            Held::Event(stamped) => self.process_event(config, stamped),
        }
    }

    fn process_action(&mut self, action: Action) -> Result<Processed, Memory>
        requires free { self.old.held ≡ None }
        ensures processes { ComesTo (applied None action self.old) (held.Action action) self.old self.new result }
        ensures refused { OnErr result (MayBeRefused self.old.items.manager (Some (held.Action action))) }
    {
        match self.items.apply(&action) {
            Ok(outcome) => Ok((None, action, outcome)),
            Err(Memory) => {
                self.held = Some(Held::Action(action));
                Err(Memory)
            }
        }
    }

    fn process_event(&mut self, config: &Config, stamped: Stamped) -> Result<Processed, Memory>
        requires free { self.old.held ≡ None }
        ensures processes { Processes config.now self.old (held.Event stamped) self.new result }
    {
        match self.trigger(config, &stamped) {
            Ok((action, outcome)) => Ok((Some(stamped.stamp), action, outcome)),
            Err(Memory) => {
                self.held = Some(Held::Event(stamped));
                Err(Memory)
            }
        }
    }

    ghost use Rattle.gate_pipeline.specs.Inner.States.{Triggers};

    // Processes a trigger event. After `Memory` the worker is unchanged.
    fn trigger(&mut self, config: &Config, stamped: &Stamped) -> Result<(Action, Outcome), Memory>
        ensures { Triggers config.now self.old stamped.now self.new result }
    {
        self.done.reserve(1)?;
        let alloc = *self.done.allocator();
        let action = trigger_of(alloc, config, self.tenant, self.pipeline, stamped)?;
        let outcome = self.items.apply(&action)?;
        self.done.push_reserved(stamped.stamp);
        Ok((action, outcome))
    }
}
