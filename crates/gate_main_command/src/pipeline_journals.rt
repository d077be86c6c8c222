//! The journals of all pipelines of a configuration.
ghost use Rattle.std.specs.Prelude.{◌≡◌, ◌∷◌, ◌++◌, [], IfOk, List, OnOk, string_bytes, ℕ};
ghost use Rattle.gate_config.specs.declared.config.Config.{Config as AConfig};
ghost use Rattle.gate_config.specs.Lookups.{pipelines_of};
ghost use Rattle.gate_main_command.specs.Inner.Rows.{KnowAll, KnowRow};
ghost use Rattle.gate_main_command.specs.Telling.{IsTrue, Told, acts, next_lines};

use gate_config::{Config, Generations, PipelineSpec};
use gate_journal::{PipelineJournal, Place, ProcessedAction};
use gate_record::{Memory, PipelineId, TenantId};
use std::alloc::Global;

/// The journals of all pipelines, by tenant number and pipeline number.
#[derive(Drop)]
pub(crate) struct PipelineJournals {
    journals: Vec<Vec<PipelineJournal>>,
}

impl PipelineJournals {
    /// The journals of a configuration's pipelines, which begin with no items.
    pub(crate) fn of(alloc: Global, config: &Config) -> Result<PipelineJournals, Memory>
        ensures { IfOk result (λ pipelines. KnowAll config.now [] pipelines.journals.items) }
    {
        let mut journals = Vec::new(alloc);
        for tenant in config.tenants() {
            journals.push(journals_of(alloc, tenant.pipelines.as_slice())?)?;
        }
        Ok(PipelineJournals { journals })
    }

    /// Adds the lines of a pipeline's next action. A pipeline that isn't there has none.
    pub(crate) fn push_action(
        &mut self,
        out: &mut String,
        place: &Place<'_>,
        processed: &ProcessedAction<'_>,
    ) -> Result<(), Memory>
        ensures lines { (so_far : List Told) → KnowAll place.now.config.now so_far self.old.journals.items → IsTrue place.now.config.now so_far place.now.tenant.0 place.now.pipeline.0 processed.now.action.now processed.now.outcome processed.now.items.now → OnOk result (string_bytes out.new ≡ string_bytes out.old ++ next_lines place.now.config.now so_far (acts place.now.tenant.0 place.now.pipeline.0 processed.now.stamp processed.now.action.now)) }
        ensures knows { (so_far : List Told) → KnowAll place.now.config.now so_far self.old.journals.items → IsTrue place.now.config.now so_far place.now.tenant.0 place.now.pipeline.0 processed.now.action.now processed.now.outcome processed.now.items.now → OnOk result (KnowAll place.now.config.now (so_far ++ acts place.now.tenant.0 place.now.pipeline.0 processed.now.stamp processed.now.action.now ∷ []) self.new.journals.items) }
    {
        match self.journals.get_mut(place.tenant.0 as usize) {
            Some(journals) => match journals.get_mut(place.pipeline.0 as usize) {
                Some(journal) => journal.push_action(out, place, processed),
                None => Ok(()),
            },
            None => Ok(()),
        }
    }
}

// The journals of a tenant's pipelines, which begin with no items.
fn journals_of(alloc: Global, pipelines: &[PipelineSpec]) -> Result<Vec<PipelineJournal>, Memory>
    ensures { (config : AConfig) (t : ℕ) → pipelines_of config t ≡ pipelines.now → IfOk result (λ journals. KnowRow config [] t journals.items) }
{
    let mut journals = Vec::new(alloc);
    for pipeline in pipelines {
        journals.push(PipelineJournal::new(alloc, pipeline.manager))?;
    }
    Ok(journals)
}

/// The place of a pipeline, whose lines have the names that the first generation gives.
pub(crate) fn place_of(
    generations: &Generations,
    tenant: TenantId,
    pipeline: PipelineId,
) -> Place<'_> {
    Place {
        config: generations.first(),
        tenant,
        pipeline,
    }
}
