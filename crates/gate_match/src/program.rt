//! `Program`, the compiled rules of a tenant.
ghost use Rattle.gate_match.specs.Inner.Tables.{AreOfGenerations};

use crate::rules_of_conn::RulesOfConn;
use gate_config::Generations;
use gate_match_rules::MatcherCache;
use gate_record::TenantId;

/// The rules of all pipelines of a tenant in all generations, ready for one batch of events after another. Each distinct text of
/// their patterns has a matcher, which is kept from batch to batch. Nothing else is kept of a batch.
#[derive(Drop)]
pub struct Program<'c> {
    pub(crate) gens: &'c Generations,
    pub(crate) tenant: TenantId,
    pub(crate) cache: MatcherCache<'c>,
    pub(crate) table: Vec<RulesOfConn<'c>>,
    ghost compiled: { AreOfGenerations gens.now tenant.0 table.items },
}
