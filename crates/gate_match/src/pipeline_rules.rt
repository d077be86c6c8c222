//! `PipelineRules`, the rules of one pipeline, which choose the pipeline's events of a batch.
ghost use Rattle.std.specs.Prelude.{◌≡◌, IfOk, OnOk, length, replicate, false, true};
ghost use Rattle.std.specs.List.{All};
ghost use Rattle.gate_match.specs.Inner.Batches.{events_in, keys_in, rows_in};
ghost use Rattle.gate_match.specs.Inner.Choosing.{AreActive, chosen, chosen_of, has_all};
ghost use Rattle.gate_match_rules.specs.Knowing.{AreRight};
ghost use Rattle.gate_match_rules.specs.Marks.{either};
ghost use Rattle.gate_match.specs.Selecting.{gens_of, mask_of, tenant_of};
ghost use Rattle.gate_match.specs.declared.active.Active.{Active};

use crate::active::Active;
use crate::batch::Batch;
use crate::program::Program;
use crate::tenant_rules::TenantRules;
use gate_match_rules::{Answers, Mask, MatcherCache, Search, add_meeting, compile};
use gate_record::Memory;

// One pipeline of a program's tenant, with the program that has its rules.
#[derive(Clone, Copy, Drop)]
pub(crate) struct PipelineRules<'p, 'c> {
    pub(crate) program: &'p Program<'c>,
    pub(crate) pipeline: u32,
}

impl<'p, 'c> PipelineRules<'p, 'c> {
    // Returns the mask of the pipeline.
    pub(crate) fn mask(
        &self,
        batch: &Batch<'_, 'c>,
        actives: &[Active],
        answers: &mut Answers<'c>,
    ) -> Result<Vec<u32>, Memory>
        requires right { AreRight (events_in batch.now) answers.old }
        requires actives { AreActive (gens_of self.now.program.now) (tenant_of self.now.program.now) (rows_in batch.now) actives.now }
        requires all { has_all actives.now (keys_in batch.now) ≡ true }
        ensures right { AreRight (events_in batch.now) answers.new }
        ensures mask { IfOk result (λ mask. mask.items ≡ mask_of (gens_of self.now.program.now) (tenant_of self.now.program.now) self.now.pipeline (rows_in batch.now)) }
    {
        let rows = self.chosen(&batch.search, actives, answers)?;
        Ok(rows.into_words())
    }

    // Returns the rows that the pipeline selects of these connections in their generations.
    fn chosen(
        &self,
        search: &Search<'_, 'c>,
        actives: &[Active],
        answers: &mut Answers<'c>,
    ) -> Result<Mask, Memory>
        requires right { AreRight search.now.columns.now answers.old }
        requires lens { All (λ (active : Active). length active.rows ≡ length search.now.columns.now) actives.now }
        ensures right { AreRight search.now.columns.now answers.new }
        ensures chosen { IfOk result (λ rows. rows ≡ chosen (gens_of self.now.program.now) (tenant_of self.now.program.now) self.now.pipeline search.now.columns.now (replicate (length search.now.columns.now) false) actives.now) }
    {
        let mut out = Mask::none(search.alloc, search.columns.rows())?;
        for active in actives {
            self.add_chosen(search, active, answers, &mut out)?;
        }
        Ok(out)
    }

    // Adds the rows that the pipeline selects of one connection in one generation.
    fn add_chosen(
        &self,
        search: &Search<'_, 'c>,
        active: &Active,
        answers: &mut Answers<'c>,
        out: &mut Mask,
    ) -> Result<(), Memory>
        requires right { AreRight search.now.columns.now answers.old }
        requires rows { length active.now.rows ≡ length search.now.columns.now }
        requires len { length out.old ≡ length search.now.columns.now }
        ensures right { AreRight search.now.columns.now answers.new }
        ensures len { length out.new ≡ length search.now.columns.now }
        ensures adds { OnOk result (out.new ≡ either out.old (chosen_of (gens_of self.now.program.now) (tenant_of self.now.program.now) self.now.pipeline search.now.columns.now active.now)) }
    {
        let program = self.program;
        match program.find(self.pipeline, active.key) {
            Some(rules) => add_meeting(search, rules, answers, &active.rows, out),
            // The table has the rules for each generation and connection of the configuration. So this is reached only if the batch
            // has a number out of range, which `select` allows: then the first generation's rules count, or the connection has none.
            None => {
                let source = TenantRules {
                    gens: program.gens,
                    tenant: program.tenant,
                };
                let rules = source.rules(self.pipeline, active.key);
                let mut cache = MatcherCache::new(search.alloc);
                let rules = compile(search.alloc, &mut cache, rules)?;
                let search = Search {
                    alloc: search.alloc,
                    cache: &cache,
                    columns: search.columns,
                };
                add_meeting(&search, rules.as_slice(), answers, &active.rows, out)
            }
        }
    }
}
