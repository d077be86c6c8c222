//! Makes the journal of a script while the script is played: the lines that a run would write if it took the script's steps.

use crate::journal::Journal;
use crate::pipeline_journals::place_of;
use gate_config::Generations;
use gate_core::{Answer, Onlooker, PipelineReport, RunReport, World};
use gate_items::Items;
use gate_journal::ProcessedAction;
use gate_record::{Memory, PipelineId, TenantId};
use std::alloc::Global;

/// The journal of a script in memory. It is written to its file once the script is known to have no fault.
#[derive(Drop)]
pub(crate) struct ScriptJournal {
    alloc: Global,
    // There is none before the script begins, and none where memory was refused for it.
    journal: Option<Journal<Vec<u8>>>,
}

impl ScriptJournal {
    /// The journal of a script that has not begun.
    pub(crate) fn new(alloc: Global) -> ScriptJournal {
        ScriptJournal {
            alloc,
            journal: None,
        }
    }

    /// The lines of the script that was played, from the lines of the start to the last lines of the pipelines.
    pub(crate) fn into_lines(self) -> Result<Vec<u8>, Memory> {
        match self.journal {
            Some(journal) if journal.fault().is_none() => Ok(journal.into_writer()),
            _ => Err(Memory),
        }
    }
}

impl Onlooker for ScriptJournal {
    fn begins(&mut self, generations: &Generations) {
        let lines = Vec::new(self.alloc);
        self.journal = Journal::new(self.alloc, generations.first(), lines).ok();
    }

    fn turned(
        &mut self,
        world: &World<'_>,
        tenant: TenantId,
        pipeline: PipelineId,
        answer: &Answer,
    ) {
        if let Some(journal) = &mut self.journal {
            tell(journal, world, tenant, pipeline, answer);
        }
    }

    fn ended(&mut self, world: &World<'_>, report: &RunReport) {
        if let Some(journal) = &mut self.journal {
            end(journal, world, report);
        }
    }
}

// Tells a journal of the action that a turn processed, if it did.
fn tell(
    journal: &mut Journal<Vec<u8>>,
    world: &World<'_>,
    tenant: TenantId,
    pipeline: PipelineId,
    answer: &Answer,
) {
    let Answer::Turned(stamp, action, outcome) = answer else {
        return;
    };
    let Some(items) = world.items(tenant, pipeline) else {
        return;
    };
    let processed = ProcessedAction {
        stamp: *stamp,
        action,
        outcome: *outcome,
        items,
    };
    journal.tell(&place_of(world.generations(), tenant, pipeline), &processed);
}

// Tells a journal of the ends of all pipelines.
fn end(journal: &mut Journal<Vec<u8>>, world: &World<'_>, report: &RunReport) {
    let mut tenant = TenantId(0);
    for pipelines in report.pipelines.as_slice() {
        end_tenant(journal, world, tenant, pipelines.as_slice());
        tenant = TenantId(tenant.0.saturating_add(1));
    }
}

// Tells a journal of the ends of a tenant's pipelines.
fn end_tenant(
    journal: &mut Journal<Vec<u8>>,
    world: &World<'_>,
    tenant: TenantId,
    reports: &[PipelineReport],
) {
    let mut pipeline = PipelineId(0);
    for report in reports {
        let place = place_of(world.generations(), tenant, pipeline);
        let items = world.items(tenant, pipeline).map_or(0, Items::len);
        journal.end(&place, report.finished, items);
        pipeline = PipelineId(pipeline.0.saturating_add(1));
    }
}
