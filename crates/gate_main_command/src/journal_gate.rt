//! The gate of `serve`, by which workers keep the journal and the status board.
use crate::fault::Fault;
use crate::journal::{Journal, JournalFault};
use crate::pipeline_journals::place_of;
use gate_config::Generations;
use gate_journal::ProcessedAction;
use gate_pipeline::{Pipeline, Processed};
use gate_record::{PipelineId, Shared, TenantId};
use gate_run_posts::{Inbox, Stopper};
use gate_run_worker::Gate;
use gate_source::StopCause;
use gate_status::BoardGate;
use std::fs::File;
use std::sync::{Mutex, Wait};

/// A journal that asks the run to stop if a line of it can't be written.
#[derive(Drop)]
pub struct Journaling {
    gens: Shared<Generations>,
    journal: Journal<File>,
    stopper: Stopper,
    // Whether the run was asked to stop.
    stops: bool,
}

impl Journaling {
    /// Why lines are missing, if any are.
    pub fn fault(&self) -> Option<JournalFault> {
        self.journal.fault()
    }

    // Writes the lines of a pipeline's next action.
    fn tell(&mut self, tenant: TenantId, pipeline: PipelineId, processed: &ProcessedAction<'_>) {
        let place = place_of(self.gens.get(), tenant, pipeline);
        self.journal.tell(&place, processed);
        self.stop_at_fault();
    }

    // Writes the last line of a pipeline.
    fn end(&mut self, tenant: TenantId, pipeline: PipelineId, state: &Pipeline) {
        let place = place_of(self.gens.get(), tenant, pipeline);
        self.journal
            .end(&place, state.finished(), state.state().len());
        self.stop_at_fault();
    }

    // Asks the run to stop if a line is missing. Where memory is refused for that, the next action asks again.
    fn stop_at_fault(&mut self) {
        if self.journal.fault().is_some() && !self.stops {
            self.stops = self.stopper.stop(StopCause::Caller).is_ok();
        }
    }
}

/// Shares the journal of a run, if there is one, among the run's workers. A fault of the journal will stop the run of this inbox.
pub fn shared_journal(
    gens: &Shared<Generations>,
    inbox: &Inbox,
    journal: Option<Journal<File>>,
) -> Result<Option<Mutex<Journaling>>, Fault> {
    let Some(journal) = journal else {
        return Ok(None);
    };
    Ok(Some(Mutex::new(Journaling {
        gens: gens.share()?,
        journal,
        stopper: inbox.stopper()?,
        stops: false,
    })))
}

/// A gate that keeps the board, and the journal if there is one. A call waits for the locks of both. Its time grows with what the action
/// changed, and not with how many items the pipeline has.
#[derive(Drop)]
pub struct JournalGate<'a> {
    board: BoardGate<'a>,
    journal: Option<&'a Mutex<Journaling>>,
}

impl<'a> JournalGate<'a> {
    /// The gate of a board and a journal.
    pub fn new(board: BoardGate<'a>, journal: Option<&'a Mutex<Journaling>>) -> JournalGate<'a> {
        JournalGate { board, journal }
    }
}

impl<'a> Gate for JournalGate<'a> {
    fn after<R: Wait>(
        &self,
        rt: &R,
        tenant: TenantId,
        pipeline: PipelineId,
        state: &Pipeline,
        processed: &Processed,
    ) {
        self.board.after(rt, tenant, pipeline, state, processed);
        let Some(journal) = self.journal else {
            return;
        };
        let (stamp, action, outcome) = processed;
        let processed = ProcessedAction {
            stamp: *stamp,
            action,
            outcome: *outcome,
            items: state.state(),
        };
        journal.lock(rt).tell(tenant, pipeline, &processed);
    }

    fn last<R: Wait>(&self, rt: &R, tenant: TenantId, pipeline: PipelineId, state: &Pipeline) {
        self.board.last(rt, tenant, pipeline, state);
        let Some(journal) = self.journal else {
            return;
        };
        journal.lock(rt).end(tenant, pipeline, state);
    }
}
