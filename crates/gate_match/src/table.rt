//! Builds the table of a tenant's compiled rules, and finds an entry in it.
ghost use Rattle.std.specs.Prelude.{IfOk, OnOk};
ghost use Rattle.gate_match.specs.Inner.Tables.{AreOfGenerations};

use crate::key::Key;
use crate::rules_of_conn::RulesOfConn;
use crate::tenant_rules::TenantRules;
use gate_config::{Config, Generations};
use gate_match_rules::{MatcherCache, compile};
use gate_record::{Memory, TenantId};
use std::alloc::Global;

// Compiles the rules of all pipelines of a tenant. The table is ordered by generation, then by pipeline, then by connection.
pub(crate) fn table<'c>(
    alloc: Global,
    source: &TenantRules<'c>,
    cache: &mut MatcherCache<'c>,
) -> Result<Vec<RulesOfConn<'c>>, Memory>
    ensures { IfOk result (λ table. AreOfGenerations source.now.gens.now source.now.tenant.0 table.items) }
{
    let mut table = Vec::new(alloc);
    for generation in 0..source.gens.count() {
        push_generation(alloc, source, generation, cache, &mut table)?;
    }
    Ok(table)
}

fn push_generation<'c>(
    alloc: Global,
    source: &TenantRules<'c>,
    generation: u32,
    cache: &mut MatcherCache<'c>,
    table: &mut Vec<RulesOfConn<'c>>,
) -> Result<(), Memory>
    requires { AreOfGenerations source.now.gens.now source.now.tenant.0 table.old.items }
    ensures { OnOk result (AreOfGenerations source.now.gens.now source.now.tenant.0 table.new.items) }
{
    let first = source.gens.first();
    for pipeline in 0..pipelines(first, source.tenant) {
        for conn in 0..connections(first) {
            let key = Key { generation, conn };
            table.push(rules_of_conn(alloc, source, pipeline, key, cache)?)?;
        }
    }
    Ok(())
}

ghost use Rattle.gate_match.specs.Inner.Tables.{IsOfGenerations};

fn rules_of_conn<'c>(
    alloc: Global,
    source: &TenantRules<'c>,
    pipeline: u32,
    key: Key,
    cache: &mut MatcherCache<'c>,
) -> Result<RulesOfConn<'c>, Memory>
    ensures { IfOk result (λ entry. IsOfGenerations source.now.gens.now source.now.tenant.0 entry) }
{
    let rules = source.rules(pipeline, key);
    let rules = compile(alloc, cache, rules)?;
    Ok(RulesOfConn {
        key,
        pipeline,
        rules,
    })
}

// Returns the place in the table for a pipeline's rules for the events of a key. No contract says what stands there, so the
// caller compares the entry.
pub(crate) fn place_of(gens: &Generations, tenant: TenantId, pipeline: u32, key: Key) -> usize {
    let config = gens.first();
    (key.generation as usize)
        .wrapping_mul(config.pipelines(tenant).len())
        .wrapping_add(pipeline as usize)
        .wrapping_mul(config.connections().len())
        .wrapping_add(key.conn as usize)
}

ghost use Rattle.std.specs.Prelude.{◌≡◌, length};
ghost use Rattle.gate_config.specs.Lookups.{pipelines_of};

pub(crate) fn pipelines(config: &Config, tenant: TenantId) -> u32
    ensures { result ≡ length (pipelines_of config.now tenant.0) }
{
    config.pipelines(tenant).len() as u32
}

fn connections(config: &Config) -> u32 {
    config.connections().len() as u32
}
