//! A tenant at work in the core: its queue, the steps of its worker, and its pipelines.
ghost use Rattle.std.specs.Prelude.{◌≡◌, ◌<◌, ◌≤◌, ◌+◌, ◌∷◌, ◌++◌, [], false, IfErr, IfOk, None, OnErr, OnOk};
ghost use Rattle.gate_tenant.specs.States.{has_ended, reserved_of, room_of, state_of};

use crate::answer::Answer;
use crate::pipeline::Pipeline;
use gate_config::{Config, Generations};
use gate_record::{Memory, PipelineId, TenantId, TenantItem};
use gate_tenant::Dispatch;
use std::alloc::{AllocFailed, Global};
use std::collections::VecDeque;

/// A step of a tenant's worker.
#[derive(Drop)]
pub enum TenantStep {
    /// The worker gathers at most this many items of its queue.
    Fetch(u32),
    /// The worker matches the events that it gathered.
    Match,
    /// The worker gives the next matched item to its pipeline.
    Give,
}

/// A tenant at work: its queue, its worker's items, and its pipelines by number.
#[derive(Drop)]
pub struct Tenant<'c> {
    /// The items that wait for the worker.
    pub queue: VecDeque<TenantItem>,
    /// The items that the worker gathered, and those that were matched and wait to be given.
    pub dispatch: Dispatch<'c>,
    /// The tenant's pipelines, by number.
    pub pipelines: Vec<Pipeline>,
    /// The proof needs this: between two steps, the dispatch has lent out no item of its outbox.
    pub ghost none_out: { (state_of dispatch).outbox.out ≡ None },
}

impl<'c> Tenant<'c> {
    ghost use Rattle.gate_core.specs.Answers.{Does};
    ghost use Rattle.gate_core.specs.Needs.{MatchNeeds};
    ghost use Rattle.gate_core.specs.Inner.Needs.{TenantNeeds};
    ghost use Rattle.gate_core.specs.Steps.{new_tenant, fetch, match_gathered, give};
    ghost use Rattle.gate_core.specs.Inner.Steps.{tenant_step};
    ghost use Rattle.gate_core.specs.States.{with_gathered};
    ghost use Rattle.gate_core.specs.Views.{tenant_view};
    ghost use Rattle.gate_core.specs.Inner.Views.{gens_of_tenant, number_of_tenant};

    /// The tenant of this number before anything came.
    pub fn new(alloc: Global, gens: &'c Generations, tenant: TenantId) -> Result<Tenant<'c>, Memory>
        ensures gens { IfOk result (λ worker. gens_of_tenant worker ≡ gens.entry.now) }
        ensures number { IfOk result (λ worker. number_of_tenant worker ≡ tenant.0) }
        ensures view { IfOk result (λ worker. tenant_view worker ≡ new_tenant gens.entry.now.first tenant.0) }
    {
        let pipelines = new_pipelines(alloc, gens.first(), tenant)?;
        Ok(Tenant {
            queue: VecDeque::new(alloc),
            dispatch: Dispatch::new(alloc, gens, tenant)?,
            pipelines,
        })
    }

    /// Puts an item at the back of the queue. Where memory is refused the item comes back.
    pub fn put(&mut self, item: TenantItem) -> Result<(), AllocFailed<TenantItem>>
        ensures gens { gens_of_tenant self.new ≡ gens_of_tenant self.old }
        ensures number { number_of_tenant self.new ≡ number_of_tenant self.old }
        ensures puts { OnOk result (tenant_view self.new ≡ record (tenant_view self.old) { queue = (tenant_view self.old).queue ++ item ∷ [] }) }
        ensures refused { IfErr result (λ refused. (tenant_view self.new ≡ tenant_view self.old) × (refused.value ≡ item)) }
    {
        self.queue.push_back(item)
    }

    /// Takes one step.
    pub fn step(&mut self, alloc: Global, step: TenantStep) -> Result<Answer, Memory>
        ensures gens { gens_of_tenant self.new ≡ gens_of_tenant self.old }
        ensures number { number_of_tenant self.new ≡ number_of_tenant self.old }
        ensures does { Does (tenant_view self.old) (tenant_step (gens_of_tenant self.old) (number_of_tenant self.old) step (tenant_view self.old)) (tenant_view self.new) result }
        ensures needs { OnErr result (TenantNeeds (gens_of_tenant self.old).first (number_of_tenant self.old) step (tenant_view self.old)) }
    {
        match step {
            TenantStep::Fetch(count) => self.fetch(count),
            TenantStep::Match => self.match_gathered(alloc),
            TenantStep::Give => self.give(),
        }
    }

    // Gathers the next items of the queue: as many as are asked for, as wait, and as the dispatch has room for. None is gathered once all
    // end marks were matched.
    fn fetch(&mut self, count: u32) -> Result<Answer, Memory>
        ensures gens { gens_of_tenant self.new ≡ gens_of_tenant self.old }
        ensures number { number_of_tenant self.new ≡ number_of_tenant self.old }
        ensures does { Does (tenant_view self.old) (fetch (gens_of_tenant self.old).first (number_of_tenant self.old) count (tenant_view self.old)) (tenant_view self.new) result }
    {
        if self.dispatch.ended() {
            return Ok(Answer::Idle);
        }
        let count = (count as usize)
            .min(self.dispatch.room())
            .min(self.queue.len());
        if count == 0 {
            return Ok(Answer::Idle);
        }
        self.dispatch.make_room(count)?;
        for _fetched in 0..count {
            self.gather_next();
        }
        Ok(Answer::Moved)
    }

    // Gathers the next item of the queue, for which room was made.
    fn gather_next(&mut self)
        requires waits { 0 < length (tenant_view self.old).queue }
        requires room { 0 < room_of (tenant_view self.old).dispatch }
        requires goes_on { has_ended (gens_of_tenant self.old).first (number_of_tenant self.old) (tenant_view self.old).dispatch ≡ false }
        requires reserved { 0 < reserved_of self.old.dispatch }
        ensures gens { gens_of_tenant self.new ≡ gens_of_tenant self.old }
        ensures number { number_of_tenant self.new ≡ number_of_tenant self.old }
        ensures gathers { tenant_view self.new ≡ with_gathered 1 (tenant_view self.old) }
        ensures uses { reserved_of self.old.dispatch ≤ reserved_of self.new.dispatch + 1 }
    {
        let Some(item) = self.queue.pop_front() else {
            unreachable!()
        };
        let Ok(()) = self.dispatch.gather(item) else {
            unreachable!()
        };
    }

    // Matches the gathered events with the rules of the pipelines.
    fn match_gathered(&mut self, alloc: Global) -> Result<Answer, Memory>
        ensures gens { gens_of_tenant self.new ≡ gens_of_tenant self.old }
        ensures number { number_of_tenant self.new ≡ number_of_tenant self.old }
        ensures does { Does (tenant_view self.old) (match_gathered (gens_of_tenant self.old) (number_of_tenant self.old) (tenant_view self.old)) (tenant_view self.new) result }
        ensures needs { OnErr result (MatchNeeds (gens_of_tenant self.old).first (number_of_tenant self.old) (tenant_view self.old)) }
    {
        if !self.dispatch.has_gathered() {
            return Ok(Answer::Idle);
        }
        self.dispatch.match_batch(alloc)?;
        Ok(Answer::Moved)
    }

    // Gives the next matched item to its pipeline.
    fn give(&mut self) -> Result<Answer, Memory>
        ensures gens { gens_of_tenant self.new ≡ gens_of_tenant self.old }
        ensures number { number_of_tenant self.new ≡ number_of_tenant self.old }
        ensures does { Does (tenant_view self.old) (give (tenant_view self.old)) (tenant_view self.new) result }
    {
        let Some((pipeline, item)) = self.dispatch.next() else {
            return Ok(Answer::Idle);
        };
        match self.pipelines.get_mut(pipeline.0 as usize) {
            None => {
                self.dispatch.ungiven(item);
                Ok(Answer::Idle)
            }
            Some(pipeline) => match pipeline.triggers.push(item) {
                Ok(()) => {
                    self.dispatch.given();
                    Ok(Answer::Moved)
                }
                Err(refused) => {
                    self.dispatch.ungiven(refused.value);
                    Err(Memory)
                }
            },
        }
    }
}

ghost use Rattle.std.specs.Prelude.{length, map};
ghost use Rattle.std.specs.List.{range_with_len};
ghost use Rattle.gate_config.specs.Lookups.{pipelines_of};
ghost use Rattle.gate_core.specs.Pipelines.{fresh_pipeline};

// Makes a pipeline for each one of the tenant.
fn new_pipelines(alloc: Global, config: &Config, tenant: TenantId) -> Result<Vec<Pipeline>, Memory>
    ensures { IfOk result (λ pipelines. pipelines.items ≡ map (fresh_pipeline config.now tenant.0) (range_with_len 0 (length (pipelines_of config.now tenant.0)))) }
{
    let mut pipelines = Vec::new(alloc);
    for number in 0..config.pipelines(tenant).len() {
        pipelines.push(Pipeline::new(alloc, config, tenant, PipelineId(number as u32)))?;
    }
    Ok(pipelines)
}
