//! The world of the core: all connections, tenants and pipelines at one moment, and the step that moves it on.
ghost use Rattle.std.specs.Prelude.{◌≡◌, ◌+◌, ℕ, IfOk, OnErr, Some, false, option_map, slice_get, true};
ghost use Rattle.gate_core.specs.Inner.Views.{AreConnections, AreTenants};

use crate::answer::Answer;
use crate::connection::{Connection, ConnectionStep};
use crate::making::{new_connections, new_tenants};
use crate::pipeline::PipelineStep;
use crate::reporting::{report_connections, report_tenants};
use crate::sending::send;
use crate::step::Step;
use crate::tenant::{Tenant, TenantStep};
use gate_config::Generations;
use gate_items::Items;
use gate_record::{ConnId, Memory, PipelineId, TenantId};
use gate_report::RunReport;
use std::alloc::Global;

/// The core at one moment: the generations of a configuration, and its connections and tenants at work.
#[derive(Drop)]
pub struct World<'c> {
    gens: &'c Generations,
    connections: Vec<Connection<'c>>,
    tenants: Vec<Tenant<'c>>,
    alloc: Global,
    /// Each connection has its number and the world's generations.
    ghost connections_by_number: { AreConnections gens.now connections.items },
    /// Each tenant has its number and the world's generations.
    ghost tenants_by_number: { AreTenants gens.now tenants.items },
}

impl<'c> World<'c> {
    ghost use Rattle.gate_core.specs.Answers.{Does};
    ghost use Rattle.gate_core.specs.Needs.{IsThere, StepNeeds};
    ghost use Rattle.gate_core.specs.Inner.Needs.{ConnectionNeeds, PipelineNeeds, TenantNeeds};
    ghost use Rattle.gate_core.specs.Reports.{report_of};
    ghost use Rattle.gate_core.specs.Inner.Pipelines.{pipeline_step};
    ghost use Rattle.gate_core.specs.States.{ConnectionState, items_at, pipeline_at};
    ghost use Rattle.gate_core.specs.Steps.{first, on_connection, on_pipeline, on_tenant, refused_step, send, step_of};
    ghost use Rattle.gate_core.specs.Inner.Steps.{connection_step, refused_at, tenant_step};
    ghost use Rattle.gate_core.specs.Inner.Views.{HasNumberLeft};
    ghost use Rattle.gate_core.specs.Worlds.{AcceptedAtMost, HasNumber, gens_of, state_of};

    /// The world in which nothing was offered yet.
    pub fn new(alloc: Global, gens: &'c Generations) -> Result<World<'c>, Memory>
        ensures gens { IfOk result (λ world. gens_of world ≡ gens.entry.now) }
        ensures first { IfOk result (λ world. state_of world ≡ first gens.entry.now) }
        ensures counts { IfOk result (λ world. AcceptedAtMost 0 (state_of world)) }
    {
        let connections = new_connections(alloc, gens)?;
        let tenants = new_tenants(alloc, gens)?;
        Ok(World {
            gens,
            connections,
            tenants,
            alloc,
        })
    }

    /// Takes one step. A step with an id out of range, or one that finds nothing to do, is answered `Idle`. A connection that is offered a
    /// record must have accepted fewer than 2^64 - 1 records before.
    ///
    /// `Memory` comes only to a step that would change something. Among the steps that take from a connection's queue, only one that takes
    /// a record is refused; among matchings, only one of an event or of the last end mark that the tenant waits for; and among turns, only
    /// one that processes a trigger event or a reset of an independent pipeline. A turn that is refused holds what it took from its queue,
    /// and the pipeline processes that next.
    #[tactic(auto, using(crate::proofs::Counting::one_more))]
    pub fn step(&mut self, step: Step) -> Result<Answer, Memory>
        requires { HasNumber (state_of self.old) step }
        ensures gens { gens_of self.new ≡ gens_of self.old }
        ensures moves { Does (refused_step (state_of self.old) step) (step_of (gens_of self.old) (state_of self.old) step) (state_of self.new) result }
        ensures needs { OnErr result (StepNeeds (gens_of self.old).first (state_of self.old) step) }
        ensures counts { (most : ℕ) → AcceptedAtMost most (state_of self.old) → AcceptedAtMost (most + 1) (state_of self.new) }
    {
        match step {
            Step::Offer(conn, line) => self.connection_step(conn, ConnectionStep::Offer(line)),
            Step::Close(conn) => self.connection_step(conn, ConnectionStep::Close),
            Step::Renew(conn) => self.connection_step(conn, ConnectionStep::Renew),
            Step::Take(conn) => self.connection_step(conn, ConnectionStep::Take),
            Step::Send(conn) => self.send(conn),
            Step::Fetch(tenant, count) => self.tenant_step(tenant, TenantStep::Fetch(count)),
            Step::Match(tenant) => self.tenant_step(tenant, TenantStep::Match),
            Step::Give(tenant) => self.tenant_step(tenant, TenantStep::Give),
            Step::PostManage(tenant, pipeline, manage) => {
                self.pipeline_step(tenant, pipeline, PipelineStep::PostManage(manage))
            }
            Step::PostResult(tenant, pipeline, ended) => {
                self.pipeline_step(tenant, pipeline, PipelineStep::PostResult(ended))
            }
            Step::Turn(tenant, pipeline) => {
                self.pipeline_step(tenant, pipeline, PipelineStep::Turn)
            }
        }
    }

    /// The configuration, with its later generations.
    pub fn generations(&self) -> &Generations
        ensures { result.now ≡ gens_of self.now }
    {
        self.gens
    }

    /// The report of the steps so far.
    pub fn report(&self) -> Result<RunReport, Memory>
        ensures { IfOk result (λ report. report ≡ report_of (state_of self.now)) }
    {
        Ok(RunReport {
            connections: report_connections(self.alloc, self.connections.as_slice())?,
            pipelines: report_tenants(self.alloc, self.tenants.as_slice())?,
        })
    }

    /// The queue items and reports of a pipeline, if there is such a pipeline.
    pub fn items(&self, tenant: TenantId, pipeline: PipelineId) -> Option<&Items>
        ensures { option_map (λ items. items.now) result ≡ items_at tenant.0 pipeline.0 (state_of self.now) }
    {
        let tenant = self.tenants.get(tenant.0 as usize)?;
        let pipeline = tenant.pipelines.get(pipeline.0 as usize)?;
        Some(pipeline.worker.state())
    }

    ghost use Rattle.gate_core.specs.declared.answer.Answer.TheVariants.{Passed};
    ghost use Rattle.gate_core.specs.declared.step.Step.TheVariants.{Turn};

    /// Takes the turn of a pipeline if it finds its queue empty. The answer is whether it did. Most turns of a script do, and no `Answer`
    /// is made for them.
    pub(crate) fn passes(&mut self, tenant: TenantId, pipeline: PipelineId) -> bool
        ensures gens { gens_of self.new ≡ gens_of self.old }
        ensures passes { result ≡ true → (state_of self.new, Passed) ≡ step_of (gens_of self.old) (state_of self.old) (Turn tenant pipeline) }
        ensures stays { result ≡ false → state_of self.new ≡ state_of self.old }
    {
        match self.tenants.get_mut(tenant.0 as usize) {
            Some(tenant) => match tenant.pipelines.get_mut(pipeline.0 as usize) {
                Some(pipeline) => pipeline.passes(),
                None => false,
            },
            None => false,
        }
    }

    // Takes a connection's step. The answer is `Idle` where there is no connection of that number.
    fn connection_step(&mut self, conn: ConnId, step: ConnectionStep) -> Result<Answer, Memory>
        requires { (connection : ConnectionState) → slice_get (state_of self.old).connections conn.0 ≡ Some connection → HasNumberLeft step connection }
        ensures gens { gens_of self.new ≡ gens_of self.old }
        ensures moves { Does (state_of self.old) (on_connection (connection_step (gens_of self.old) conn.0 step) conn.0 (state_of self.old)) (state_of self.new) result }
        ensures needs { OnErr result (IsThere (ConnectionNeeds step) (slice_get (state_of self.old).connections conn.0)) }
    {
        match self.connections.get_mut(conn.0 as usize) {
            Some(connection) => connection.step(self.alloc, step),
            None => Ok(Answer::Idle),
        }
    }

    fn send(&mut self, conn: ConnId) -> Result<Answer, Memory>
        ensures gens { gens_of self.new ≡ gens_of self.old }
        ensures moves { Does (state_of self.old) (send conn.0 (state_of self.old)) (state_of self.new) result }
    {
        match self.connections.get_mut(conn.0 as usize) {
            Some(connection) => send(connection, &mut self.tenants),
            None => Ok(Answer::Idle),
        }
    }

    // Takes a step of a tenant's worker. The answer is `Idle` where there is no tenant of that number.
    fn tenant_step(&mut self, tenant: TenantId, step: TenantStep) -> Result<Answer, Memory>
        ensures gens { gens_of self.new ≡ gens_of self.old }
        ensures moves { Does (state_of self.old) (on_tenant (tenant_step (gens_of self.old) tenant.0 step) tenant.0 (state_of self.old)) (state_of self.new) result }
        ensures needs { OnErr result (IsThere (TenantNeeds (gens_of self.old).first tenant.0 step) (slice_get (state_of self.old).tenants tenant.0)) }
    {
        match self.tenants.get_mut(tenant.0 as usize) {
            Some(tenant) => tenant.step(self.alloc, step),
            None => Ok(Answer::Idle),
        }
    }

    // Posts to a pipeline, or takes a turn of it. The answer is `Idle` where there is no such pipeline.
    fn pipeline_step(
        &mut self,
        tenant: TenantId,
        pipeline: PipelineId,
        step: PipelineStep,
    ) -> Result<Answer, Memory>
        ensures gens { gens_of self.new ≡ gens_of self.old }
        ensures moves { Does (refused_at step tenant.0 pipeline.0 (state_of self.old)) (on_tenant (on_pipeline (pipeline_step (gens_of self.old).first step) pipeline.0) tenant.0 (state_of self.old)) (state_of self.new) result }
        ensures needs { OnErr result (IsThere (PipelineNeeds step) (pipeline_at tenant.0 pipeline.0 (state_of self.old))) }
    {
        match self.tenants.get_mut(tenant.0 as usize) {
            Some(tenant) => match tenant.pipelines.get_mut(pipeline.0 as usize) {
                Some(pipeline) => pipeline.step(self.gens.first(), step),
                None => Ok(Answer::Idle),
            },
            None => Ok(Answer::Idle),
        }
    }
}
