//! The steps of the core, of which a run of `replay` consists.
ghost use Rattle.std.specs.Prelude.{◌≡◌, IfOk};

use gate_items::{JobResult, Manage};
use gate_record::{ConnId, Memory, PipelineId, Record, TenantId, Text};
use std::alloc::Global;

/// One step of the core. Each one is a move of one thread of `serve`, or of somebody who posts from outside.
#[derive(Debug, Drop)]
pub enum Step {
    /// The reader of a connection offers a record.
    Offer(ConnId, Record),
    /// The reader of a connection closes it: it puts the end mark after the records.
    Close(ConnId),
    /// The reader of a connection puts the next generation of the configuration in force for the records that follow.
    Renew(ConnId),
    /// The forwarder of a connection takes the next entry of its queue.
    Take(ConnId),
    /// The forwarder of a connection sends the first item that it holds to its tenant.
    Send(ConnId),
    /// The worker of a tenant gathers at most this many items of its queue.
    Fetch(TenantId, u32),
    /// The worker of a tenant matches the gathered events with the rules of the tenant's pipelines.
    Match(TenantId),
    /// The worker of a tenant gives the next matched item to its pipeline.
    Give(TenantId),
    /// Somebody posts a management event to a pipeline.
    PostManage(TenantId, PipelineId, Manage),
    /// Somebody posts the result of a job to a pipeline.
    PostResult(TenantId, PipelineId, JobResult),
    /// The worker of a pipeline takes one value of its phase's queue, or finds that queue empty.
    Turn(TenantId, PipelineId),
}

impl Step {
    /// A copy of the step, with the record or the post that it brings.
    pub fn copy(&self, alloc: Global) -> Result<Step, Memory>
        ensures { IfOk result (λ copy. copy ≡ self.now) }
    {
        match self {
            Step::Offer(conn, line) => Ok(Step::Offer(*conn, line.copy(alloc)?)),
            Step::Close(conn) => Ok(Step::Close(*conn)),
            Step::Renew(conn) => Ok(Step::Renew(*conn)),
            Step::Take(conn) => Ok(Step::Take(*conn)),
            Step::Send(conn) => Ok(Step::Send(*conn)),
            Step::Fetch(tenant, count) => Ok(Step::Fetch(*tenant, *count)),
            Step::Match(tenant) => Ok(Step::Match(*tenant)),
            Step::Give(tenant) => Ok(Step::Give(*tenant)),
            Step::PostManage(tenant, pipeline, manage) => {
                let manage = copy_manage(alloc, manage)?;
                Ok(Step::PostManage(*tenant, *pipeline, manage))
            }
            Step::PostResult(tenant, pipeline, result) => {
                let result = copy_result(alloc, result)?;
                Ok(Step::PostResult(*tenant, *pipeline, result))
            }
            Step::Turn(tenant, pipeline) => Ok(Step::Turn(*tenant, *pipeline)),
        }
    }
}

fn copy_manage(alloc: Global, manage: &Manage) -> Result<Manage, Memory>
    ensures { IfOk result (λ copy. copy ≡ manage.now) }
{
    match manage {
        Manage::Dequeue(key) => Ok(Manage::Dequeue(key.copy(alloc)?)),
        Manage::Reset(key) => Ok(Manage::Reset(key.copy(alloc)?)),
    }
}

fn copy_result(alloc: Global, ended: &JobResult) -> Result<JobResult, Memory>
    ensures { IfOk result (λ copy. copy ≡ ended.now) }
{
    Ok(JobResult {
        set: ended.set,
        job: Text::copy(alloc, ended.job.as_str())?,
        success: ended.success,
    })
}
