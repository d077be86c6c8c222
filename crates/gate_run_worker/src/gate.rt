//! The trait by which others follow what the pipelines do: the status board, and the journal.

use gate_pipeline::{Pipeline, Processed};
use gate_record::{PipelineId, TenantId};
use std::sync::Wait;

/// Is told of the actions of pipelines by the pipelines' own threads. A call may wait, and its pipeline waits with it. A call can't change
/// the pipeline. A method that an implementation leaves out does nothing.
pub trait Gate {
    /// Called before an action is processed.
    fn before<R: Wait>(
        &self,
        _rt: &R,
        _tenant: TenantId,
        _pipeline: PipelineId,
        _state: &Pipeline,
    ) {}

    /// Called after an action was processed, with what came of it, and before the pipeline's next action. It isn't called where memory was
    /// refused for the action.
    fn after<R: Wait>(
        &self,
        _rt: &R,
        _tenant: TenantId,
        _pipeline: PipelineId,
        _state: &Pipeline,
        _processed: &Processed,
    ) {}

    /// Called once, when the pipeline's worker returns.
    fn last<R: Wait>(&self, _rt: &R, _tenant: TenantId, _pipeline: PipelineId, _state: &Pipeline) {}
}
