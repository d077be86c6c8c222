//! The gate by which a pipeline's worker keeps the board up to date.

use crate::board::Board;
use crate::progress::Progress;
use gate_pipeline::{Pipeline, Processed};
use gate_record::{PipelineId, TenantId};
use gate_run_worker::Gate;
use std::sync::{Mutex, Wait};

/// A gate that keeps a board. It sets there how far a pipeline is after each of the pipeline's actions, and once its worker returns. A call
/// waits for the board's lock. It takes no memory, and its time doesn't grow with what the pipeline has.
#[derive(Drop)]
pub struct BoardGate<'a> {
    board: &'a Mutex<Board>,
}

impl<'a> BoardGate<'a> {
    /// The gate of a board. Others may read the board meanwhile.
    pub fn new(board: &'a Mutex<Board>) -> BoardGate<'a> {
        BoardGate { board }
    }

    // Sets on the board how far a pipeline is.
    fn note<R: Wait>(&self, rt: &R, tenant: TenantId, pipeline: PipelineId, state: &Pipeline) {
        let progress = Progress::of(state);
        self.board.lock(rt).set(tenant, pipeline, progress);
    }
}

impl<'a> Gate for BoardGate<'a> {
    fn after<R: Wait>(
        &self,
        rt: &R,
        tenant: TenantId,
        pipeline: PipelineId,
        state: &Pipeline,
        _processed: &Processed,
    ) {
        self.note(rt, tenant, pipeline, state);
    }

    fn last<R: Wait>(&self, rt: &R, tenant: TenantId, pipeline: PipelineId, state: &Pipeline) {
        self.note(rt, tenant, pipeline, state);
    }
}
