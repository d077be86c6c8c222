//! Selects the events of a batch for each pipeline of a tenant.
ghost use Rattle.std.specs.Prelude.{◌≡◌, ℕ, IfOk, IfSome, OnOk, length, map, true};
ghost use Rattle.std.specs.List.{zip};
ghost use Rattle.gate_config.specs.Generations.{config_at};
ghost use Rattle.gate_config.specs.Lookups.{rules_of};
ghost use Rattle.gate_match.specs.Inner.Batches.{keys_in, rows_in};
ghost use Rattle.gate_match.specs.Inner.Choosing.{AreActive, active_in, has_all, is_key_of, key_of};
ghost use Rattle.gate_match_rules.specs.Compiling.{rules_in};
ghost use Rattle.gate_match.specs.Selecting.{gens_of, masks_of, tenant_of};
ghost use Rattle.gate_match.specs.Inner.Tables.{AskAlike};

use crate::active::Active;
use crate::batch::Batch;
use crate::key::Key;
use crate::listed::listed_rows;
use crate::pipeline_rules::PipelineRules;
use crate::program::Program;
use crate::table::{pipelines, place_of, table};
use crate::tenant_rules::TenantRules;
use gate_config::Generations;
use gate_intern::Columns;
use gate_match_rules::{Answers, Compiled, Mask, MatcherCache, Search};
use gate_record::{ConnId, Memory, TenantId};
use std::alloc::Global;

impl<'c> Program<'c> {
    /// Compiles the rules of a tenant's pipelines in all generations. This takes time in the length of their patterns. The
    /// matcher of a pattern's text is made when a batch first needs it.
    pub fn new(
        alloc: Global,
        gens: &'c Generations,
        tenant: TenantId,
    ) -> Result<Program<'c>, Memory>
        ensures gens { IfOk result (λ program. gens_of program ≡ gens.entry.now) }
        ensures tenant { IfOk result (λ program. tenant_of program ≡ tenant.0) }
    {
        let mut cache = MatcherCache::new(alloc);
        let source = TenantRules { gens, tenant };
        let table = table(alloc, &source, &mut cache)?;
        Ok(Program {
            gens,
            tenant,
            cache,
            table,
        })
    }

    /// Returns a mask for each pipeline of the tenant, by number, with a word for each event of the batch. The word is all ones
    /// where the pipeline selects the event, and 0 elsewhere. At an event's place, `conns` has its connection, and `gens` the
    /// generation whose rules apply to it.
    ///
    /// Each entry is tried once on each distinct text of the batch, and only if a rule of a connection and generation in the
    /// batch asks for it. The answers about a batch have an index of four bytes for each different entry.
    pub fn select(
        &self,
        alloc: Global,
        columns: &Columns<'_>,
        gens: &[u32],
        conns: &[u32],
    ) -> Result<Vec<Vec<u32>>, Memory>
        requires gens { length gens.now ≡ length columns.now }
        requires conns { length conns.now ≡ length columns.now }
        ensures { IfOk result (λ masks. map (λ mask. mask.items) masks.items ≡ masks_of (gens_of self.now) (tenant_of self.now) (zip (zip gens.now conns.now) columns.now)) }
    {
        let cache = &self.cache;
        let batch = Batch {
            search: Search {
                alloc,
                cache,
                columns,
            },
            gens,
            conns,
        };
        let actives = self.actives(&batch)?;
        let mut answers = Answers::none(alloc);
        let mut masks = Vec::new(alloc);
        for pipeline in 0..pipelines(self.gens.first(), self.tenant) {
            let rules = PipelineRules {
                program: self,
                pipeline,
            };
            let mask = rules.mask(&batch, actives.as_slice(), &mut answers)?;
            masks.push(mask)?;
        }
        Ok(masks)
    }

    // Returns the connections of a batch in their generations, each pair once.
    fn actives(&self, batch: &Batch<'_, '_>) -> Result<Vec<Active>, Memory>
        ensures active { IfOk result (λ actives. AreActive (gens_of self.now) (tenant_of self.now) (rows_in batch.now) actives.items) }
        ensures all { IfOk result (λ actives. has_all actives.items (keys_in batch.now) ≡ true) }
    {
        let mut actives = Vec::new(batch.search.alloc);
        for row in 0..batch.conns.len() {
            let key = Key {
                generation: batch.gens[row],
                conn: batch.conns[row],
            };
            self.add_active(batch, key, &mut actives)?;
        }
        Ok(actives)
    }

    // Adds a connection in a generation, unless it is there already.
    fn add_active(
        &self,
        batch: &Batch<'_, '_>,
        key: Key,
        actives: &mut Vec<Active>,
    ) -> Result<(), Memory>
        requires active { AreActive (gens_of self.now) (tenant_of self.now) (rows_in batch.now) actives.old.items }
        ensures active { OnOk result (AreActive (gens_of self.now) (tenant_of self.now) (rows_in batch.now) actives.new.items) }
        ensures has { OnOk result (is_key_of actives.new.items (key.generation, key.conn) ≡ true) }
        ensures keeps { OnOk result ((other : ℕ × ℕ) → is_key_of actives.old.items other ≡ true → is_key_of actives.new.items other ≡ true) }
    {
        if !has_key(actives.as_slice(), key) {
            actives.push(self.active(batch, key)?)?;
        }
        Ok(())
    }

    // Finds the rows of a connection in a generation whose project the tenant lists under the connection.
    fn active(&self, batch: &Batch<'_, '_>, key: Key) -> Result<Active, Memory>
        ensures of_key { IfOk result (λ active. key_of active ≡ (key.generation, key.conn)) }
        ensures rows { IfOk result (λ active. active.rows ≡ active_in (gens_of self.now) (tenant_of self.now) (key.generation, key.conn) (rows_in batch.now)) }
    {
        let search = &batch.search;
        let mut rows = Mask::of_ids(search.alloc, batch.gens, &[key.generation])?;
        rows.and(&Mask::of_ids(search.alloc, batch.conns, &[key.conn])?);
        let config = self.gens.generation(key.generation);
        let conn = ConnId(key.conn);
        let listed = listed_rows(search.alloc, config, self.tenant, conn, search.columns)?;
        rows.and(&listed);
        Ok(Active { key, rows })
    }

    // Returns the compiled rules of a pipeline for the events of a key, if the table has them.
    pub(crate) fn find(&self, pipeline: u32, key: Key) -> Option<&[Compiled<'c>]>
        ensures { IfSome result (λ rules. AskAlike (rules_in rules.now) (rules_of (config_at (gens_of self.now) key.generation) (tenant_of self.now) pipeline key.conn)) }
    {
        let place = place_of(self.gens, self.tenant, pipeline, key);
        match self.table.as_slice().get(place) {
            Some(entry) if entry.key == key && entry.pipeline == pipeline => {
                Some(entry.rules.as_slice())
            }
            _ => None,
        }
    }
}

fn has_key(actives: &[Active], key: Key) -> bool
    ensures { result ≡ is_key_of actives.now (key.generation, key.conn) }
{
    actives.iter().any(|active| key.generation == active.key.generation
        && key.conn == active.key.conn)
}
